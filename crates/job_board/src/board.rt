// The board itself.
ghost use Rattle.std.specs.Prelude.{◌≡◌, ◌+◌, ◌*◌};
ghost use Rattle.crossbeam_queue.specs.Passes.{ruled_capacity};

use crate::item::{JobItem, ResultItem};
use crate::rule::{JobsInOrder, ResultsInOrder};
use crate::view::View;
use crossbeam_queue::RuledArrayQueue;

pub(crate) type JobQueue<J> = RuledArrayQueue<JobItem<J>, View<JobItem<J>>, JobsInOrder>;

pub(crate) type ResultQueue<R> = RuledArrayQueue<
    ResultItem<R>,
    View<ResultItem<R>>,
    ResultsInOrder,
>;

/// A queue of jobs and a queue of results.
#[derive(Drop)]
pub struct Board<J: Drop, R: Drop> {
    pub(crate) jobs: JobQueue<J>,
    pub(crate) results: ResultQueue<R>,
    // How many jobs may be published.
    pub(crate) limit: u32,
    pub(crate) workers: u32,
    // One stop for each worker.
    ghost job_capacity: { ruled_capacity jobs ≡ limit + workers },
    // Any worker may have claimed all jobs, and there is the count.
    ghost result_capacity: { ruled_capacity results ≡ limit * workers + 1 },
}
