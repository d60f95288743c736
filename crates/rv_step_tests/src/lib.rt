//! Single instructions: what words decode to, and what a step at each leaves, stops at or traps with.
//!
//! This crate is its tests: they call `rv_step` as a crate above it does, over a small memory that may deny an access
//! or be busy. Words and values come from the ISA's text.
#![tactic(auto)]

#[cfg(test)]
mod decoding_tests;
#[cfg(test)]
mod small_memory;
#[cfg(test)]
mod step_tests;
