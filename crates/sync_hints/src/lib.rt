//! Hints: what a racing run saw of its threads, for the schedule of an epoch.
//!
//! Promises: `merge` joins the logs of threads. The counts are the logs' steps. The order has each entry of each log
//! once, by ticket, and entries with equal tickets in the order of the logs. `laws` says that a thread's hints are in
//! the order as in its log, if the tickets of the log don't fall. Hints may be anything, since a racing run isn't
//! trusted: no sum is made of their numbers here. Builds on `dp_base`.
//!
//! ```text
//! let hints = merge(alloc, &logs)?;
//! for hint in hints.order.as_slice() {
//!     ..
//! }
//! ```
#![tactic(auto)]

mod hints;
pub mod laws;
mod merging;
#[cfg(test)]
mod merging_tests;
mod thread_log;

pub use hints::{Hints, Sc, SyncHint};
pub use merging::merge;
pub use thread_log::ThreadLog;
