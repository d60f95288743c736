//! A racing run on several processors: the threads of a guest run side by side, for states in which later epochs may
//! start and for hints of the epochs in between.
//!
//! Promises: `ThreadRacer` is a `Racer`. It offers only to a sink that is ready, and it answers `Ok` or `OutOfMemory`,
//! whatever the guest does. Which states it offers isn't said: they depend on how the threads are scheduled by the
//! host.
//!
//! A run goes in stretches of an epoch. A stretch may begin with passes, in which threads run side by side on shared
//! words. It ends with its threads one after another on one processor. Both note the steps that synchronise, each with
//! a ticket, and the hints of a stretch are its threads' logs, merged by ticket. The words are kept from pass to pass:
//! what threads stored is copied back to the pages, and what has changed there since to the words. A pass costs time
//! for its threads, for each page of the guest and for what is copied, so a stretch races only if that pays. Builds on
//! `shared_words` for the memory that threads share, on `rv_step` for the instructions, on `guest_kernel` for states
//! and calls, on `supply` for the input and the clock, and on `sync_hints` for the hints.
//!
//! ```text
//! let mut racer = ThreadRacer::new(4);
//! for offer in offers_of(&rt, alloc, &mut racer, &state, &supply, &plan)? {
//!     .. offer.hints, offer.next ..
//! }
//! ```
#![tactic(auto)]

mod gated;
mod kept_words;
mod noted_pages;
mod noted_words;
mod pace;
mod pass;
mod pass_part;
mod round_robin;
mod side_by_side;
mod stopped_turns;
mod stretch;
mod stretch_course;
mod thread_racer;
mod thread_run;

pub use gated::Gated;
pub use thread_racer::ThreadRacer;
