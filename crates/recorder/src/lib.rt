//! The recorder. It runs a guest in rounds: each round reads from the input, and runs epochs side by side, the first
//! from the committed state and each other one from a state that a racer offers. Those that start in the committed
//! state are committed in order: an epoch's record is written into the journal on the disk, and its output is sent once
//! the record is there. After every `options.mark` epochs a mark of the guest's state is appended.
//!
//! Promises (the contract of `record_`):
//!
//! - At `Ok` and `StepLimit` the disk holds the journal of this guest with the epochs of one run from its start state,
//!   and exactly that run's output was sent. The same holds at `JournalFull`, unless the header itself doesn't fit:
//!   then nothing is written. The clause `recorded` says what every other answer leaves.
//! - At every moment of the call, a crash leaves the journal of whole epochs that are one run of the guest, and a
//!   prefix of that run's output was sent; or it leaves no journal, and nothing was sent (clause `moments`).
//! - All memory for an epoch and for its mark is taken before its first write to the disk. From there to the end of its
//!   output only `Ok` or a device's fault is answered.
//! - A mark follows every `options.mark`-th epoch at which the guest hasn't ended, and is nowhere else. Only the one
//!   after the last epoch may be missing, if the recording stopped there (`specs/Marking.antt`).
//! - If the input is known, each round takes from it exactly if a thread waits for input, and reads the clock once. The
//!   answers in the journal are faithful to the input: reads get its bytes in order, and clock calls get its readings
//!   in order.
//! - All of this holds for any racer, whatever it offers, and for any number of workers. If the racer's offers are
//!   known, the number of workers changes nothing of a run (`laws`).
//! - At `Ok` the report's line was sent on Note. Otherwise nothing was, or a prefix of that line.
//!
//! `laws` says more of rounds of several jobs: a recording is a machine (`specs/Machine.antt`), whose every event keeps
//! the journal, the output and the input in step (`specs/MachineKept.antt`), and the calls of the program are its
//! events (`specs/CallEvents.antt`).
//!
//! Builds on `guest_kernel`, `racing_runner`, `epoch_pool`, `commit_core`, `supply`, `checkpoint`, `epoch_record`,
//! `epoch_journal`, `device` and `dp_report`.
//!
//! ```text
//! let image = load(alloc, file)?;
//! let state = start(alloc, &image)?;
//! world.attach("journal", true)?;
//! let (world, answer) = record_(
//!     &rt, alloc, world, &mut inlet, file, state, options, IdleRacer, &OpenGate,
//! );
//! match answer {
//!     Ok(report) => ..,
//!     Err(RecordFault::StepLimit(steps)) => ..,
//!     Err(fault) => ..,
//! }
//! ```
#![tactic(auto)]

mod commit;
mod committer;
mod due_mark;
mod judged_result;
pub mod laws;
mod options;
mod plan;
mod ready_epoch;
mod record_fault;
mod recording;
mod report;
mod round_input;
mod tally;

pub use commit::{CommitFault, commit_epoch};
pub use dp_report::Report;
pub use options::Options;
pub use ready_epoch::Ready;
pub use record_fault::RecordFault;
pub use recording::record_;
