//! Recordings in rounds of several epochs: by racers whose offers are good, spoilt or nonsense, by any number of
//! workers, and stopped in the middle of a round.
//!
//! This crate is its tests: they call `recorder` and `epoch_replay` as a crate above them does. Each line of a table is
//! that of a model of the machine, its schedule, the racers, the rounds and the journal, which was written apart from
//! this code. The values of recordings with marks are by the format's tables.
#![tactic(auto)]

#[cfg(test)]
mod case_text;
#[cfg(test)]
mod count_gate;
#[cfg(test)]
mod fault_tests;
#[cfg(test)]
mod guests;
#[cfg(test)]
mod input_tests;
#[cfg(test)]
mod limit_tests;
#[cfg(test)]
mod mark_fault_tests;
#[cfg(test)]
mod mark_tests;
#[cfg(test)]
mod marked;
#[cfg(test)]
mod nonsense;
#[cfg(test)]
mod nonsense_tests;
#[cfg(test)]
mod reckless;
#[cfg(test)]
mod recorded;
#[cfg(test)]
mod round_tests;
