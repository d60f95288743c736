//! What a program does to the outside that is done whole: a write that is on the disk when it is answered `Ok`, and a
//! text that is sent to its end.
//!
//! Promises: if the history of the world is known, each call is one step of `specs/Writing.antt` or
//! `specs/Sending.antt`. At every moment of a write a crash leaves all but its range as it was; at every moment of a
//! sending a prefix of the text was sent, and the disk is left alone. After `Err` what was sent is a prefix of the
//! text, and what the last sync had left is still on the disk. A call fails only if its count of faults rises, or is at
//! its greatest value, and leaves the other count as it was. Builds on `disk_model`.
//!
//! ```text
//! write_through(&mut world, end, record)?;
//! send_all(&mut world, Stream::Out, output)?;
//! send_pieces(&mut world, Stream::Note, &[b"epochs ", digits, b"\n"])?;
//! ```
#![tactic(auto)]

mod sending;
mod writing;

pub use sending::{send_all, send_pieces};
pub use writing::write_through;
