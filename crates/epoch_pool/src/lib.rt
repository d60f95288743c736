//! Runs the epochs of a round side by side.
//!
//! Promises: `run_all` returns one result for each job, in order, and each is that of a run of the job's epoch
//! (`specs/Pool.antt`), whatever the number of workers and whichever ends first. Builds on `epoch_runner` for an epoch,
//! on `sync_hints` for its hints, and on `disk_model` for `Gate`.
//!
//! ```text
//! let results = run_all(&rt, alloc, jobs, &supply, 4, &OpenGate)?;
//! ```
#![tactic(auto)]

mod assignment;
mod job;
mod pool;

pub use job::Job;
pub use pool::run_all;
