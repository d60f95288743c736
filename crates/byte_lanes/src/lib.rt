//! Whether two slices of bytes are the same, by lanes.
//!
//! Promises: `equal_bytes` is true exactly on equal slices, of every length. Builds on std alone.
//!
//! ```text
//! if !equal_bytes(page.bytes, other.bytes) {
//!     ..
//! }
//! ```
#![tactic(auto)]

mod equality;

pub use equality::equal_bytes;
