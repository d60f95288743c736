//! Epochs of a round that are run side by side.
//!
//! This crate is its tests: they call `epoch_pool` as a crate above it does.
#![tactic(auto)]

#[cfg(test)]
mod pool_tests;
