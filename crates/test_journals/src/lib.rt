//! Journals by hand, for tests of the crates above: of bodies that no recording need write, and what is at a gate.
#![tactic(auto)]

mod epoch;
mod gate;
mod journal;

pub use epoch::{THREE_STEPS, frame_of_three_steps};
pub use gate::{Kind, seen};
pub use journal::{journal_of, records_of};

#[cfg(test)]
mod tests;
