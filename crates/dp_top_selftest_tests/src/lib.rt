//! Self-tests on memory implementations.
//!
//! This crate is its tests: they call `dp_top` as a program does. Lines come from a model of the machine, the racer and
//! the schedule that is a script of its own.
#![tactic(auto)]

#[cfg(test)]
mod selftest_tests;
