//! Guests in machine words, what a guest's file has after its headers, from the entry on: some share words between
//! threads, some read input and call for the clock.
//!
//! They are recorded and replayed by the tests of this crate, whose values come from a model of the machine apart from
//! ours.
#![tactic(auto)]

mod readers;
mod threads;

pub use readers::{
    FILTER, READ_EDGES, READER_AND_COUNTER, READS_CLOCK, READS_TWICE, THREE_READINGS, TWO_READERS,
};
pub use threads::{ADDERS, DEADLOCKED, PRODUCER_AND_CONSUMER, RACING_ADDERS, WAITS_ALONE};

#[cfg(test)]
mod clock_tests;
#[cfg(test)]
mod fault_tests;
#[cfg(test)]
mod filter_tests;
#[cfg(test)]
mod journal_tests;
#[cfg(test)]
mod mark_tests;
#[cfg(test)]
mod racing_tests;
#[cfg(test)]
mod read_tests;
#[cfg(test)]
mod recorded;
#[cfg(test)]
mod thread_tests;
