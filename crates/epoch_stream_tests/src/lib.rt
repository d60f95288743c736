//! Streamed rounds: with any number of workers, with a taker that stops early, and with offers that are nonsense.
//!
//! This crate is its tests: they call `epoch_stream` as a crate above it does.
#![tactic(auto)]

#[cfg(test)]
mod counting;
#[cfg(test)]
mod holding;
#[cfg(test)]
mod nonsense;
#[cfg(test)]
mod stream_tests;
