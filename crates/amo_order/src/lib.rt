//! An order of the AMOs of a pass, in which threads run side by side: one in which each AMO finds what the one before
//! it stored.
//!
//! Promises: `order_amos` returns a place for each AMO, in the order in which they are given. A place is the AMO's
//! ticket, or is between that and the next ticket of its thread, so that AMOs of a thread keep their order. The AMOs of
//! a word keep their tickets, or they are in turn by their places and weren't by their tickets (`specs/Places.antt`).
//! Builds on `dp_base`.
//!
//! Not said: which words are put in order. Of a word whose AMOs aren't in turn an order is sought in few steps.
//!
//! ```text
//! for placed in &order_amos(alloc, &amos)? {
//!     .. placed.amo.thread, placed.amo.entry, placed.place ..
//! }
//! ```
#![tactic(auto)]

mod amo;
mod disordered_words;
mod ordering;
mod search;
mod turn_check;

pub use amo::{Amo, PLACES, Placed};
pub use ordering::order_amos;
