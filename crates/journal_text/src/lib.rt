//! The journal's grammar, whole, marks included: what a file says, read as a journal (`specs/Records.antt`,
//! `specs/Reading.antt`).
//!
//! Promises: `header` and `next_record` answer exactly as the definitions say, and take no memory; a file reads as its
//! parts and as nothing else. In a journal without a bad record, what is appended is read after what was there, and
//! what is left of it when it is cut reads as no journal, or as its first records (`laws`). Builds on `dp_base`,
//! `guest_state` and `partial_mark`.
//!
//! ```text
//! let Head::Whole { guest_len } = header(file) else { return };
//! let first_gate = 9 + u64::from(guest_len);
//! match next_record(file, first_gate) {
//!     Rec::Epoch { body, next } => ..,
//!     Rec::Mark { body, next } => ..,
//!     Rec::Partial { body, next } => ..,
//!     Rec::End { at } => ..,
//!     Rec::Bad => ..,
//! }
//! ```
#![tactic(auto)]

mod frame;
mod journal_header;
pub mod laws;
mod read_limit;
mod record;

pub use dp_base::journal_writer::MARK_KIND;
pub use frame::Frame;
pub use journal_header::{Head, header};
pub use record::{Rec, next_record};
