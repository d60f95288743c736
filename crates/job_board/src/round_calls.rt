// The calls of a round.
ghost use Rattle.std.specs.Prelude.{◌≡◌, ℕ, ◌+◌, ◌<◌, ◌++◌, [], ◌∷◌, None, Some, IsSome, length};
ghost use Rattle.job_board.specs.Answers.{Claims, Collects};
ghost use Rattle.job_board.specs.Passes.{IsCollectorOf, IsPublisherOf, IsWorkerOf, claimed, deposited, number, published};

use crate::board::Board;
use crate::item::{JobItem, ResultItem};
use crate::outcomes::{Claim, Collected};
use crate::pass::{Collector, Publisher, Worker};
use crate::rule::{Puts, Takes};
use std::sync::Wait;

impl<J: Drop, R: Drop> Board<J, R> {
    /// Publishes the next job. There always is space for it.
    pub fn publish(&self, rt: &impl Wait, publisher: &mut Publisher<J, R>, job: J)
        requires pass { IsPublisherOf self.now publisher.old }
        requires few { length (published publisher.old) < self.now.limit }
        ensures pass { IsPublisherOf self.now publisher.new }
        ensures published { published publisher.new ≡ published publisher.old ++ (length (published publisher.old) + 1, job) ∷ [] }
    {
        let index = publisher.count + 1;
        let item = JobItem::Job { index, job };
        match self.jobs.push_as::<Puts, _>(rt, &mut publisher.jobs, item) {
            Ok(()) => publisher.count = index,
            Err(_) => unreachable!(),
        }
    }

    /// Claims the next job. Returns `Stop` if there are no more, and `Empty` if the board has neither now. No clause
    /// says that it doesn't answer `Empty` at other times.
    pub fn claim(&self, rt: &impl Wait, worker: &mut Worker<J, R>) -> Claim<J>
        requires pass { IsWorkerOf self.now (number worker.old) worker.old }
        requires free { worker.old.held ≡ None }
        ensures pass { IsWorkerOf self.now (number worker.old) worker.new }
        ensures claim { Claims worker.old result worker.new }
    {
        match self.jobs.pop_as::<Takes, _>(rt, &mut worker.jobs) {
            Some(JobItem::Job { index, job }) => {
                worker.held = Some(index);
                Claim::Job { index, job }
            }
            Some(JobItem::Stop) => Claim::Stop,
            None => Claim::Empty,
        }
    }

    /// Deposits the result of the job that the worker holds. There always is space for it.
    pub fn deposit(&self, rt: &impl Wait, worker: &mut Worker<J, R>, value: R)
        requires pass { IsWorkerOf self.now (number worker.old) worker.old }
        requires held { IsSome worker.old.held }
        ensures pass { IsWorkerOf self.now (number worker.old) worker.new }
        ensures deposited { (i : ℕ) → worker.old.held ≡ Some i → deposited worker.new ≡ deposited worker.old ++ (i, value) ∷ [] }
        ensures claimed { claimed worker.new ≡ claimed worker.old }
        ensures held { worker.new.held ≡ None }
    {
        if let Some(index) = worker.held {
            let item = ResultItem::Result {
                index,
                result: value,
            };
            match self
                .results
                .push_as::<Puts, _>(rt, &mut worker.results, item)
            {
                Ok(()) => worker.held = None,
                Err(_) => unreachable!(),
            }
        }
    }

    /// Collects the next result, or the count of jobs. Returns `Empty` if the board has neither now. No clause says that
    /// it doesn't answer `Empty` at other times.
    pub fn collect(&self, rt: &impl Wait, collector: &mut Collector<R>) -> Collected<R>
        requires pass { IsCollectorOf self.now collector.old }
        ensures pass { IsCollectorOf self.now collector.new }
        ensures collects { Collects collector.old result collector.new }
    {
        match self.results.pop_as::<Takes, _>(rt, &mut collector.results) {
            Some(
                ResultItem::Result {
                    index,
                    result: value,
                },
            ) => Collected::Result {
                index,
                result: value,
            },
            Some(ResultItem::Count(count)) => Collected::Count(count),
            None => Collected::Empty,
        }
    }
}
