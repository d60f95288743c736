//! A round whose racer, workers and taker run at once.
//!
//! Promises: `stream` hands the results of a round's epochs to a taker in the order of the jobs, each of its own job
//! and with the round's supply, whatever the number of workers and whichever ends first. However the round ends, its
//! jobs are the first ones of a round with the racer's offers, and each has the hints of its offer. After an `Ok` all
//! jobs had their results taken, or the taker had enough (`specs/Streams.antt`). Builds on `job_board` for the jobs and
//! results, on `stop_word` for the stop, on `epoch_runner` for an epoch, and on `racing_runner` for the offers.
//!
//! Not said: that it returns. A racer, a worker or the taker may wait for another.
//!
//! ```text
//! let (taker, racer, answer) =
//!     stream(&rt, alloc, start, racer, &supply, &plan, 4, &OpenGate, taker);
//! ```
#![tactic(auto)]

mod bell;
mod deposit;
mod promises;
mod racer_part;
mod round;
mod round_parts;
mod single_job;
mod streaming;
mod taker;
mod taker_part;
mod worker_part;

pub use streaming::stream;
pub use taker::Taker;
