//! Single epochs: which threads take which slices, what is answered, and where an epoch ends; and the windows of the
//! input that answers come from.
//!
//! This crate is its tests: they call `epoch_runner` and `supply` as a crate above them does. Each slice and each
//! window was worked out by hand. Those of epochs that follow hints, or that are taken turn by turn, were worked out by
//! a model that was written apart from this code.
#![tactic(auto)]

#[cfg(test)]
mod epoch_guests;
#[cfg(test)]
mod epoch_tests;
#[cfg(test)]
mod hint_tests;
#[cfg(test)]
mod hinted_call_tests;
#[cfg(test)]
mod hinted_guests;
#[cfg(test)]
mod input_tests;
#[cfg(test)]
mod supply_tests;
#[cfg(test)]
mod walk_tests;
#[cfg(test)]
mod worked_answers;
