//! The racing run on several processors, as a crate above it uses it.
//!
//! This crate is its tests. States come from runs of slices, from the definition of the schedule by hints, and from the
//! machine's definition by hand.
#![tactic(auto)]

#[cfg(test)]
mod cases;
#[cfg(test)]
mod guests;
#[cfg(test)]
mod hint_tests;
#[cfg(test)]
mod offer_tests;
#[cfg(test)]
mod pace_tests;
#[cfg(test)]
mod trap_tests;
