//! The record of one epoch: the slices that it ran and the answers that they took, and the bytes that a journal keeps
//! of it.
//!
//! Promises: `encode` gives the one encoding of an epoch; `decode` finds an epoch exactly in the bytes that are the
//! encoding of one, with no byte left, and it is that epoch (`laws::round_trip`). A count in the bytes takes no memory
//! by itself, only what was read does, which is tested. Builds on `slice_log`, `syscall_log` and `dp_base`, which has
//! the grammar.
//!
//! ```text
//! let body = encode(alloc, &epoch)?;
//! match decode(alloc, &body)? {
//!     Some(epoch) => ..,
//!     None => ..,
//! }
//! ```
#![tactic(auto)]

mod decoding;
mod encoding;
mod epoch;
pub mod laws;

pub use decoding::decode;
pub use encoding::encode;
pub use epoch::Epoch;
