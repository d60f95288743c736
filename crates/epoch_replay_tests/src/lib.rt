//! Replays of journals with marks, by one worker and by several, on disks in memory: each answers and sends the same.
//!
//! This crate is its tests. `journals` makes a journal out of letters, one for each record. Its guest writes one byte
//! in each epoch, and an epoch is long enough that its stretch gets a thread. `partial_journals` does the same with
//! partial marks, of a guest that stores a word.
#![tactic(auto)]

#[cfg(test)]
mod emit_tests;
#[cfg(test)]
mod gate_tests;
#[cfg(test)]
mod head_tests;
#[cfg(test)]
mod inspect_tests;
#[cfg(test)]
mod journals;
#[cfg(test)]
mod partial_journals;
#[cfg(test)]
mod partial_tests;
#[cfg(test)]
mod replays;
#[cfg(test)]
mod worker_tests;
