//! Files and bytes by hand, for tests of the crates above: guests, bytes of which some are replaced, and bytes that
//! repeat.
#![tactic(auto)]

mod guest;
mod repeating;
mod replacing;

pub use guest::{
    EXITS, EXITS_WORDS, HEADERS_END, HEADERS_START, MOST_WORDS, WITH_ATTRIBUTES, WRITES,
    WRITES_WORDS, file_of,
};
pub use repeating::{PERIOD, repeated};
pub use replacing::replaced;

#[cfg(test)]
mod byte_tests;
#[cfg(test)]
mod guest_tests;
