//! Tests of `amo_order`: orders of AMOs, by hand.
#![tactic(auto)]

#[cfg(test)]
mod crowd_tests;
#[cfg(test)]
mod order_tests;
