//! The forms of the outside in memory, as a crate above calls them: files by name, an input in pieces and a clock, a
//! disk and two streams, the record of their calls, and what a crash leaves.
//!
//! This crate is its tests: tables of what each call on a form of `disk_mem` answers and what follows it, where calls
//! fail by their number, and if no memory is enough; and worked examples of `disk_mem`'s definitions. The values come
//! from the model of a disk, by hand.
#![tactic(auto)]

#[cfg(test)]
mod clock_tests;
#[cfg(test)]
mod crash_tests;
#[cfg(test)]
mod files_and_inlet_tests;
#[cfg(test)]
mod record_tests;
#[cfg(test)]
mod step;
#[cfg(test)]
mod worked_calls;
#[cfg(test)]
mod worked_crashes;
#[cfg(test)]
mod world_tests;
