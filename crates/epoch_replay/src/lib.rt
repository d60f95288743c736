//! The replayer. It reads a journal whole, runs its epochs in order from the guest's start, sends their output, and
//! compares each mark with the guest's state. A partial mark is taken against the guest's state at the mark before it,
//! or at its start. With several workers the stretches between marks run side by side, each from its mark, and a
//! stretch is used only if the replay reaches its start in the same state and over the same base (`journal_stretch`,
//! `parallel_stretches`).
//!
//! Promises (the contract of `replay`): `specs/Play.antt` defines what a journal plays to. Each answer but a device's
//! fault and `OutOfMemory` is the one that the definition gives, and the output sent is then exactly the output that it
//! gives; after the others a prefix of it was sent. No call writes to the disk, so at every moment of a replay a crash
//! leaves what it would have left before, and a prefix of that output was sent (clause `moments`). At `Ok` no call of
//! the world failed, and the report's line was sent on Note. Otherwise nothing was, or a prefix of that line.
//!
//! `inspect` lists the records of a journal and runs none. Its contract goes by `specs/Inspection.antt`, which defines
//! the text, and `specs/Inspecting.antt`: at `Ok` and at a malformed record exactly that text was sent on Out, after a
//! fault of the output a prefix of it, and otherwise nothing.
//!
//! Builds on `epoch_journal`, `journal_text`, `epoch_record`, `partial_mark`, `guest_kernel`, `checkpoint`,
//! `state_compare`, `device` and `dp_report`.
//!
//! ```text
//! world.attach("journal", false)?;
//! let (world, answer) = replay(&rt, alloc, world, workers);
//! match answer {
//!     Ok(report) => ..,
//!     Err(ReplayFault::BadEpoch(number)) => ..,
//!     Err(fault) => ..,
//! }
//!
//! let (world, answer) = inspect(alloc, world);
//! ```
#![tactic(auto)]

mod counts;
mod epoch;
mod inspect_fault;
mod inspecting;
mod journal_stretch;
pub mod laws;
mod mark;
mod marks_ahead;
mod parallel_stretches;
mod progress;
mod replay_fault;
mod replaying;

pub use dp_report::Report;
pub use inspect_fault::InspectFault;
pub use inspecting::inspect;
pub use replay_fault::ReplayFault;
pub use replaying::{replay, replay_through};
