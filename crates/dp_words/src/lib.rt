//! The words of a command line become a command: `record GUEST JOURNAL` and `replay JOURNAL` with their options,
//! `inspect JOURNAL`, or `selftest N`.
//!
//! Promises (the contract of `parse`): it answers `Usage` only at words that the command line doesn't take, and a
//! command only at words that it takes; the command is the one that the words say, and each number is in its range.
//! Builds on `clap` for what a command line takes (`specs/CommandLine.antt` is ours), and on `dp_base` for the limits.
//!
//! ```text
//! match parse(alloc, &words) {
//!     Ok(Command::Record { guest, journal, workers, .. }) => record(guest.as_str(), journal.as_str(), workers),
//!     Ok(Command::Replay { journal, workers }) => replay(journal.as_str(), workers),
//!     Ok(Command::Inspect { journal }) => inspect(journal.as_str()),
//!     Ok(Command::Selftest { n }) => self_test(n),
//!     Err(fault) => Err(fault),
//! }
//! ```
#![tactic(auto)]

mod command;
mod command_line;
mod found_values;
mod parsing;
mod text;

pub use command::Command;
pub use parsing::{WordsFault, parse};
pub use text::Text;
