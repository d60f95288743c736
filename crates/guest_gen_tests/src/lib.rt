//! What made guests print, and how they end, by epochs of several lengths and slices.
//!
//! This crate is its tests: they call `guest_gen` as a crate above it does, and run its guests by `epoch_runner`. What
//! a guest prints is computed from its number alone.
#![tactic(auto)]

#[cfg(test)]
mod guest_tests;
