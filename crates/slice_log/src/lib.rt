//! The slices of an epoch as a list: appended one by one while the epoch runs, and read back as a slice or one by one.
//!
//! Promises: a `SliceLog` is the list of what was put into it, in order. Builds on `dp_base`, whose `Log` it is.
//!
//! ```text
//! let mut log = SliceLog::new(alloc);
//! log.put(Slice { tid: Tid(1), steps: 3 })?;
//! let mut at = 0;
//! while let Some(slice) = log.next(&mut at) { .. }
//! ```
#![tactic(auto)]

use dp_base::{Log, Slice};

/// The slices of an epoch, in order.
pub type SliceLog = Log<Slice>;
