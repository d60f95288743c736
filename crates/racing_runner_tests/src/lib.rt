//! Racing runs: what `ChaosRacer`, `IdleRacer` and `WildRacer` offer, to `offers_of` and to sinks.
//!
//! This crate is its tests: they call `racing_runner` as a crate above it does. Each offer of a table is that of a
//! model of the machine, its schedule and the racer, which was written apart from this code.
#![tactic(auto)]

#[cfg(test)]
mod cases;
#[cfg(test)]
mod chaos_tests;
#[cfg(test)]
mod guests;
#[cfg(test)]
mod hint_tests;
#[cfg(test)]
mod offer_text;
#[cfg(test)]
mod sink_tests;
#[cfg(test)]
mod state_hash;
#[cfg(test)]
mod wild_tests;
#[cfg(test)]
mod worked_chaos;
