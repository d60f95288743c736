//! A guest between two slices as bytes, and back, and its digest.
//!
//! Promises: `encode` gives the one encoding of a state (`guest_state`'s grammar); `decode` finds a state exactly in
//! the bytes that are the encoding of one, with no byte left, and it is that state; `digest` is SHA-256 of the
//! encoding, and takes no memory. `encode_partial` gives the partial mark of a state against another, its base: all of
//! the state, but the bytes of pages that are the same in the base (`partial_mark`). `decode_partial` finds that state
//! again with the same base. It finds none exactly outside the grammar, and if the base lacks a page of which the mark
//! has no bytes. A guest's start state has an encoding, and so has each state with fewer than 2^64 steps that a run of
//! slices reaches (`laws`). Builds on `guest_kernel`, `guest_state`, `partial_mark` and `sha2`, and in its proofs on
//! the laws of `rv_step`.
//!
//! ```text
//! let bytes = encode(alloc, &state)?;
//! match decode(alloc, &bytes)? {
//!     Some(state) => digest(&state),
//!     None => ..,
//! }
//! let changed = encode_partial(alloc, &state, &base)?;
//! ```
#![tactic(auto)]

mod base_page;
mod decoding;
mod encoding;
mod encoding_parts;
pub mod laws;
mod partial_decoding;
mod partial_encoding;
mod sink;
mod state_digest;

pub use decoding::decode;
pub use encoding::encode;
pub use partial_decoding::decode_partial;
pub use partial_encoding::encode_partial;
pub use state_digest::digest;
