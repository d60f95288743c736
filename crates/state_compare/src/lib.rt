//! Whether two states of a guest are the same.
//!
//! Promises: `equal` is true exactly on equal states: step counts, input places, heaps, ends, threads with their harts,
//! and pages with their flags and bytes. It compares the states themselves, and no digests. Builds on `guest_kernel`,
//! `guest_state` and `byte_lanes`.
//!
//! ```text
//! if !equal(&reached, &marked) {
//!     ..
//! }
//! ```
#![tactic(auto)]

mod equality;

pub use equality::equal;
