//! A board of jobs, which workers claim, and of their results, which one collector collects.
//!
//! Promises, whatever threads do: jobs are claimed in the order published, each by one worker. A worker deposits a
//! result only for the job that it holds. Results are collected in the order of deposits, each once. `close` adds up
//! what happened (`specs/Answers.antt`): the published jobs are those that were claimed and those that are left, the
//! deposited results are those that were collected and those that are left, and a count that was collected is the
//! number of published jobs. Both queues keep one rule (`specs/Queue.antt`). No call but `new` allocates, and none
//! waits for space. Builds on `crossbeam_queue` for the queues.
//!
//! Not said: that a job or a result is ever available; that `Empty` isn't answered while the queue has items.
//!
//! ```text
//! let (board, mut publisher, mut workers, mut collector) = Board::new(alloc, 16, 4)?;
//! board.publish(&rt, &mut publisher, job);
//! let receipt = board.finish(&rt, publisher);
//! ..
//! if let Claim::Job { index: _, job } = board.claim(&rt, &mut worker) {
//!     board.deposit(&rt, &mut worker, run(job));
//! }
//! ..
//! if let Collected::Result { index, result } = board.collect(&rt, &mut collector) { .. }
//! ..
//! let left = board.close(&rt, receipt, workers, collector);
//! ```
#![tactic(auto)]

mod board;
mod closing;
mod item;
mod opening;
mod outcomes;
mod pass;
mod round_calls;
mod rule;
mod view;

pub use board::Board;
pub use item::{JobItem, ResultItem};
pub use outcomes::{Claim, Collected, Left};
pub use pass::{Collector, Publisher, Receipt, Worker};
pub use view::View;
