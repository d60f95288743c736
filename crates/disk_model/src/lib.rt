//! The outside of a recorder and of a replayer, as traits: `World` is one disk and two output streams, `Files` are
//! files by name, `Inlet` is the input of a guest, in pieces, and a clock, and a `Gate` is what a worker passes before
//! it runs a job.
//!
//! Promises: a call fails only if its own count of faults rises, or is at its greatest value. If the history of a world
//! is known, a write, a cut, a sync and an emit extend it by a step of `specs/Steps.antt`, also if they fail; a call
//! that fails may leave it as it was. The other calls leave it as it was. `specs/History.antt` says what a crash may
//! leave on a disk, and `specs/Moments.antt` what holds at every moment of several calls. If an input is known, a take
//! gives exactly what `specs/Input.antt` says, and one that fails loses nothing. Builds on `dp_base`.
//!
//! ```text
//! world.attach("journal", true)?;
//! let end = world.len()?;
//! world.write_at(end, record)?;      // written, and pending
//! world.sync()?;                     // on the disk
//! let taken = world.emit(Stream::Out, output)?;
//! ```
#![tactic(auto)]

mod files;
mod gate;
mod inlet;
mod world;

pub use files::{FetchFault, Files, MAX_FETCH_BYTES};
pub use gate::{Gate, OpenGate};
pub use inlet::Inlet;
pub use world::{Failed, Stream, World};
