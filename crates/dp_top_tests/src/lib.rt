//! Whole runs: what the words of a command come to, on memory forms, down to each byte on the disk and on both streams;
//! and recordings that stop at each of their calls in turn, with what a crash leaves of them: each image is replayed.
//!
//! This crate is its tests: they call `dp_top` as a program does. The bytes of journals and the digests come from the
//! format's tables. `stopped` records a guest over a disk and an output some of whose calls fail, asks the disk for its
//! three images, and replays each; what an image holds comes from the calls that a recording makes, counted by hand.
#![tactic(auto)]

#[cfg(test)]
mod changed_bytes;
#[cfg(test)]
mod changed_journal_tests;
#[cfg(test)]
mod command;
#[cfg(test)]
mod disk_tests;
#[cfg(test)]
mod emit_tests;
#[cfg(test)]
mod gate_tests;
#[cfg(test)]
mod guest_emit_tests;
#[cfg(test)]
mod image_tests;
#[cfg(test)]
mod inspect_tests;
#[cfg(test)]
mod mark_tests;
#[cfg(test)]
mod replay_tests;
#[cfg(test)]
mod run_tests;
#[cfg(test)]
mod stopped;
#[cfg(test)]
mod worked_outside;
