//! The whole program as one call, `run`: from the arguments of a command and the world around it to a status.
//!
//! Promises (the contract of `run`): if a recording answers `Ok`, `StepLimit` or `JournalFull`, the disk reads as the
//! journal of this guest with a chain of epochs from its start state, and what was sent is exactly that chain's output.
//! At whatever moment a recording is stopped, what a crash leaves is no journal, and nothing was sent; or whole epochs
//! in order that are one execution on the guest's input, of whose output a prefix was sent (`every_moment`), and plays
//! to just that execution (`laws::a_crash_plays_to_its_run`). A replay answers what its journal plays to, sends exactly
//! that output, and doesn't write the disk. An inspection sends exactly the listing of its journal, and doesn't write
//! the disk. A self-test sends exactly the line of a recording that is made from nothing but its number, and does
//! nothing else to the world. For each other status the contract says what is left, and it is answered only for its own
//! cause. At `Ok` the report's line is sent on Note, which an inspection and a self-test don't have, and otherwise the
//! status's line: all of it, or a prefix if the stream failed. If the report's line was cut off, its prefix precedes
//! the line of that status. `laws` joins recordings and replays. Builds on `dp_words`, `recorder`, `epoch_replay`,
//! `dp_report`, `guest_kernel` and `disk_model`, and for self-tests on `guest_gen`, `racing_runner` and `disk_mem`.
//!
//! ```text
//! let (world, status) = run(
//!     &rt, alloc, &words, &mut files, &mut inlet, world, IdleRacer, &OpenGate,
//! );
//! ExitCode::from(status.number())
//! ```
#![tactic(auto)]

mod command_status;
mod commands;
mod inspecting;
pub mod laws;
mod no_input;
mod recording;
mod replay_check;
mod replaying;
mod self_test_fault;
mod self_testing;
mod tested_report;

pub use commands::run;
pub use dp_report::Status;
