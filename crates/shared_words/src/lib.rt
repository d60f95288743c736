//! The words of a guest's pages, shared by threads that race.
//!
//! Promises: the rule of the words holds at every moment, whatever threads do (`specs/Rule.antt`). Each guest word is
//! below 2^32, and is either the word at the start or one that a seat stored there. The tickets that seats have are the
//! numbers below the ticket word, each once. The ticket word and the budgets of all seats are 2^62 in all. `of_pages`
//! starts with the words of the pages, and `into_pages` returns the same pages with the words of one moment at which
//! the rule holds. Words may also stay open: `copy_to` writes the blocks that are marked to pages, and `copy_changes`
//! stores what has changed in pages. Each call of a seat is one atomic step on the word that its address names, and the
//! seat's view says what the step found and stored. `RacingMem` is a `Mem` over a seat: it counts the accesses that
//! were busy and the SCs that were lost, the tickets in its log don't fall, and the blocks that it stored to are
//! marked. Builds on `atomic_table` for the steps, on `cow_pages` for pages, on `dp_base` for `Mem`, and on
//! `sync_hints` for what a log says of a step.
//!
//! Not said: which of the stored words a load finds, since other threads store; that a thread makes progress; how often
//! an access is busy; which accesses of `RacingMem` are denied, and which steps it logs.
//!
//! ```text
//! let (words, seat) = SharedWords::of_pages(alloc, &pages)?;
//! let (seat, other) = words.split(seat);
//! let memory = RacingMem::new(alloc, &words, other)?;
//! ..
//! let (other, log, marks) = memory.into_parts();
//! let pages = words.into_pages(alloc, words.join(seat, other))?;
//! ```
#![tactic(auto)]

mod atomic_steps;
mod block_copies;
mod interference;
mod layout;
mod lookup;
mod mapped_page;
mod marks;
mod naming;
mod pages_of_words;
mod part_access;
mod racing_mem;
mod racing_seat;
mod rule;
mod shared_words;
mod view;
mod words_of_pages;

pub use mapped_page::MappedPage;
pub use marks::Marks;
pub use naming::Naming;
pub use racing_mem::RacingMem;
pub use rule::WordRule;
pub use shared_words::{Seat, SharedWords};
pub use view::{Stored, Touch, View};
