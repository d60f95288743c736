//! Single turns: what each call and each turn of a guest leaves, what a turn is before it is taken, how guests start,
//! and what runs of slices come to.
//!
//! This crate is its tests: they call `guest_kernel` and `turn_peek` as a crate above them does, over guests of a few
//! pages and threads. Each value is worked out by hand from the definitions.
#![tactic(auto)]

#[cfg(test)]
mod exit_tests;
#[cfg(test)]
mod fault_tests;
#[cfg(test)]
mod futex_tests;
#[cfg(test)]
mod guests;
#[cfg(test)]
mod heap_tests;
#[cfg(test)]
mod input_tests;
#[cfg(test)]
mod mapping;
#[cfg(test)]
mod one_turn;
#[cfg(test)]
mod peek_tests;
#[cfg(test)]
mod plain_tests;
#[cfg(test)]
mod slice_tests;
#[cfg(test)]
mod start_tests;
#[cfg(test)]
mod state_tests;
#[cfg(test)]
mod thread_states;
#[cfg(test)]
mod thread_tests;
#[cfg(test)]
mod worked_arguments;
#[cfg(test)]
mod worked_chains;
#[cfg(test)]
mod write_tests;
