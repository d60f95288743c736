//! Runs one epoch of a guest: its threads take slices on one processor, and a supply answers their reads and their
//! calls for the clock. Hints may say whose turn it is; without them, and once they can't be followed, the threads go
//! by round robin.
//!
//! Promises: `run_epoch` runs the one epoch that a state, hints, a supply and bounds determine, by the schedule of
//! `specs/Schedule.antt`. By round robin a slice goes on while its thread can step, hasn't yielded and has steps left.
//! The next slice is that of the next higher thread that can step, or else of the lowest. The rules of hints are those
//! of `specs/Hinted.antt`, and hints may be anything. The epoch ends at its bound, if no thread can step, after the
//! step at which it has written or read 65,536 bytes, and when its hints are used up. A thread can step if it runs and
//! isn't at a read whose answer isn't known (`specs/Answering.antt`). An `EpochRun` has a record, and its slices run
//! from its start to its end and use its answers up. A `Walk` takes the turns of an epoch without hints one by one,
//! each the one that is next by the same schedule. `laws` says what follows from the definitions alone: they leave no
//! choice, hints that name no steps give the round robin, a run by the schedule is the run of its slices, its answers
//! are the supply's (`specs/Supplying.antt`), and a guest that can't step has ended, or waits for input that a refill
//! gives. Builds on `guest_kernel` for turns, on `supply` for the input and the clock, on `sync_hints` for the hints,
//! and on `epoch_record` for the epoch.
//!
//! ```text
//! let bounds = Bounds { steps: 50_000, slice: 1_000, first: 1 };
//! match run_epoch(alloc, state, &Hints::none(alloc), &supply, bounds)? {
//!     Ran::Epoch(run) => .. run.epoch, run.out, run.end ..,
//!     Ran::Idle(state) => if input_due(&state, &supply) { .. },
//! }
//! ```
#![tactic(auto)]

mod bounds;
mod course;
mod epoch_run;
mod epoch_slices;
mod following;
mod hint_phase;
mod hint_rules;
mod hint_stage;
mod hint_turns;
mod kernel_laws;
pub mod laws;
mod ready_threads;
mod schedule;
mod slice;
mod steps_left;
mod sync;
mod trace;
mod walk;

pub use bounds::Bounds;
pub use epoch_run::{EpochRun, Ran};
pub use epoch_slices::run_epoch;
pub use hint_stage::HintStage;
pub use ready_threads::{can_step, input_due};
pub use walk::{NextTurn, Walk};
