//! Words and lines: what command lines mean, and the lines that commands print.
//!
//! This crate is its tests: they call `dp_words` and `dp_report` as a crate above them does. Words and lines are those
//! of the tables of commands and of texts, by hand.
#![tactic(auto)]

#[cfg(test)]
mod line_tests;
#[cfg(test)]
mod word_tests;
