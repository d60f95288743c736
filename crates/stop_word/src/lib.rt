//! A word by which one thread stops others.
//!
//! Promises: the word is 1 exactly from the moment at which the stopper stops (`specs/Stops.antt`). A watcher that
//! finds it stopped has seen so, and what a watcher has seen the stopper has done (`settle`). Builds on `atomic_table`
//! for the word.
//!
//! Not said: that a watcher sees the stop by a given time.
//!
//! ```text
//! let (word, mut stopper) = StopWord::new(alloc)?;
//! let mut watcher = word.watcher(&mut stopper);
//! ..
//! word.stop(&mut stopper);
//! ..
//! if word.is_stopped(&mut watcher) { return; }
//! ..
//! word.settle(&mut stopper, watcher);
//! ```
#![tactic(auto)]

mod rule;
mod seat;
mod steps;
mod stop_word;

pub use rule::View;
pub use seat::{Stopper, Watcher};
pub use stop_word::StopWord;
