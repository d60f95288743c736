//! A guest between two slices, as data: harts, threads, how it ended, and the one encoding in bytes of all that it is
//! (`specs/Checkpoint.antt`), which marks of a journal and digests are made of.
//!
//! Promises: a state has one encoding, and no encoding is a prefix of another; each reader takes exactly what the
//! grammar accepts. Builds on `dp_base`.
//!
//! ```text
//! let (end, rest) = read_end(bytes)?;
//! let (thread, rest) = read_thread(rest)?;
//! if is_checkpoint(body) {
//!     ..
//! }
//! ```
#![tactic(auto)]

mod checkpoint_check;
mod checkpoint_reader;
mod end;
mod hart;
pub mod laws;
mod thread;

pub use checkpoint_check::{CheckpointBounds, HEAP_END, alive_count, is_checkpoint, live_count};
pub use checkpoint_reader::{read_end, read_page, read_thread};
pub use end::End;
pub use hart::Hart;
pub use thread::Thread;
