//! What a test gives a run in memory: calls that fail, a disk and two streams, a file, an input and words. For tests of
//! the crates above.
#![tactic(auto)]

mod failing;
mod letters;
mod outside;

pub use failing::{Failing, disk_of, fails_of, world_of};
pub use letters::letters_of;
pub use outside::{file_named, inlet_of, texts_of};

#[cfg(test)]
mod tests;
