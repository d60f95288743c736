//! States as bytes: what is a checkpoint or a partial mark, what it reads as, and the digest of a state.
//!
//! This crate is its tests: they call `guest_state`, `partial_mark` and `checkpoint` as a crate above them does. The
//! bytes were written out from the format's tables.
#![tactic(auto)]

#[cfg(test)]
mod checkpoint_tests;
#[cfg(test)]
mod judging_tests;
#[cfg(test)]
mod partial_tests;
#[cfg(test)]
mod worked_checkpoints;
#[cfg(test)]
mod worked_partials;
