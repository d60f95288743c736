//! Shared words and the memory of a racing hart, as a crate above them uses both.
//!
//! This crate is its tests. Values come from the definition of memory and from the RISC-V Unprivileged ISA 20191213, by
//! hand.
#![tactic(auto)]

#[cfg(test)]
mod access_tests;
#[cfg(test)]
mod copy_tests;
#[cfg(test)]
mod flag_tests;
#[cfg(test)]
mod hart_tests;
#[cfg(test)]
mod page_tests;
#[cfg(test)]
mod thread_tests;
#[cfg(test)]
mod word_tests;
