//! What all other crates share: thread numbers, slices and answers, logs of them, the limits, a guest's memory (`Mem`,
//! `specs/Memory.antt`), the fields of the journal, and the definitions of the journal's bytes (`specs/Journal.antt`).
//!
//! Promises: what a field writer adds is what the reader of the same width takes, and no byte more; a journal
//! value has one encoding, and no encoding is a prefix of another; `journal_reader` takes from bytes what the
//! definitions accept, and no more; a `Log` is the list of what was put into it, in order. Builds on `byteorder`
//! for numbers in bytes.
//!
//! An epoch becomes the bytes that an append writes after the closed gate:
//!
//! ```text
//! let mut body = Vec::new(alloc);
//! journal_writer::write_epoch_body(&mut body, &slices, &answers)?;
//! if body.len() <= MAX_BODY_BYTES as usize {
//!     journal_writer::write_frame(&mut out, &body)?;
//! }
//! ```
#![tactic(auto)]

mod access;
mod answer;
mod answer_view;
mod bytes;
pub mod journal_reader;
pub mod journal_writer;
pub mod laws;
pub mod limits;
pub mod little_endian;
mod log;
mod mem;
mod out_of_memory;
mod page;
mod slice;
mod tid;
mod word;

pub use access::{Access, AmoOp, Width};
pub use answer::Answer;
pub use answer_view::AnswerView;
pub use bytes::Bytes;
pub use log::Log;
pub use mem::Mem;
pub use out_of_memory::OutOfMemory;
pub use page::{Page, PageView};
pub use slice::Slice;
pub use tid::Tid;
pub use word::is_below_signed;
