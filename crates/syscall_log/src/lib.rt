//! The answers to an epoch's calls as a list: appended one by one while the epoch runs, and read back as a slice or one
//! by one.
//!
//! Promises: an `AnswerLog` is the list of what was put into it, in order. Builds on `dp_base`, whose `Log` it
//! is.
//!
//! ```text
//! let mut log = AnswerLog::new(alloc);
//! log.put(Answer::Clock(7))?;
//! let mut at = 0;
//! while let Some(answer) = log.next(&mut at) { .. }
//! ```
#![tactic(auto)]

use dp_base::{Answer, Log};

/// The answers that an epoch took, in order.
pub type AnswerLog = Log<Answer>;
