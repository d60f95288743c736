//! Rounds whose results are judged.
//!
//! This crate is its tests: they call `commit_core` as a crate above it does.
#![tactic(auto)]

#[cfg(test)]
mod round_tests;
