// How a round on a board ends.
ghost use Rattle.std.specs.Prelude.{◌≡◌, ℕ, ◌+◌, ◌≤◌, ◌++◌, ◌⊎◌, [], ◌∷◌, length, map, replicate, vec_capacity};
ghost use Rattle.crossbeam_queue.specs.Passes.{view, IsPassOf};
ghost use Rattle.job_board.specs.declared.item.JobItem.TheVariants.{Stop};
ghost use Rattle.job_board.specs.declared.item.ResultItem.TheVariants.{Count};
ghost use Rattle.job_board.specs.Queue.{History};
ghost use Rattle.job_board.specs.Items.{jobs_of, results_of};
ghost use Rattle.job_board.specs.Answers.{AreDistinct, InterleavesTo, IsInterleaving, times};
ghost use Rattle.job_board.specs.Passes.{AreWorkersOf, IsCollectorOf, IsFirst, IsPublisherOf, IsReceiptOf, claimed, collected, counts, deposited, indexes, job_capacity, job_parts, published, result_capacity, result_parts, was_published};

use crate::board::Board;
use crate::item::{JobItem, ResultItem};
use crate::outcomes::Left;
use crate::pass::{Collector, JobPass, Publisher, Receipt, ResultPass, Worker};
use crate::rule::{Drains, Puts, Returns};
use std::sync::Wait;

impl<J: Drop, R: Drop> Board<J, R> {
    // Puts one stop for each worker after the jobs.
    fn put_stops(&self, rt: &impl Wait, jobs: &mut JobPass<J>)
        requires pass { IsPassOf self.now.jobs jobs.old × IsFirst (view jobs.old) (self.now.workers + 1) [] }
        requires capacity { (view jobs.old).capacity ≡ job_capacity self.now }
        requires space { self.now.workers ≤ (view jobs.old).items_left }
        ensures pass { IsPassOf self.now.jobs jobs.new × IsFirst (view jobs.new) (self.now.workers + 1) [] }
        ensures capacity { (view jobs.new).capacity ≡ job_capacity self.now }
        ensures same { jobs_of (view jobs.new).put ≡ jobs_of (view jobs.old).put }
        ensures stops { (view jobs.new).put ≡ (view jobs.old).put ++ replicate self.now.workers Stop }
    {
        'stops: for stops in 0..self.workers {
            match self.jobs.push_as::<Puts, _>(rt, jobs, JobItem::Stop) {
                Ok(()) => {}
                Err(_) => unreachable!(),
            }
        }
    }

    // Puts the count of jobs after the results so far.
    fn put_count(&self, rt: &impl Wait, results: &mut ResultPass<R>, count: u32)
        requires pass { IsPassOf self.now.results results.old × IsFirst (view results.old) (self.now.workers + 2) [] }
        requires capacity { (view results.old).capacity ≡ result_capacity self.now }
        requires space { 1 ≤ (view results.old).items_left }
        requires put { (view results.old).put ≡ [] }
        ensures pass { IsPassOf self.now.results results.new × IsFirst (view results.new) (self.now.workers + 2) [] }
        ensures capacity { (view results.new).capacity ≡ result_capacity self.now }
        ensures put { (view results.new).put ≡ Count count ∷ [] }
    {
        let item = ResultItem::Count(count);
        match self.results.push_as::<Puts, _>(rt, results, item) {
            Ok(()) => {}
            Err(_) => unreachable!(),
        }
    }

    /// Puts one stop for each worker after the jobs, and the count of jobs after the results so far. There always is
    /// space for them.
    pub fn finish(&self, rt: &impl Wait, publisher: Publisher<J, R>) -> Receipt<J, R>
        requires pass { IsPublisherOf self.now publisher }
        ensures pass { IsReceiptOf self.now result }
        ensures published { was_published result ≡ published publisher }
        ensures stops { (view result.jobs).put ≡ (view publisher.jobs).put ++ replicate self.now.workers Stop }
    {
        let Publisher {
            mut jobs,
            mut results,
            count,
            left,
        } = publisher;
        self.put_stops(rt, &mut jobs);
        self.put_count(rt, &mut results, count);
        Receipt {
            jobs,
            results,
            left,
        }
    }

    // Takes the workers' passes back, in order.
    fn take_back(
        &self,
        jobs: &mut JobPass<J>,
        results: &mut ResultPass<R>,
        mut workers: Vec<Worker<J, R>>,
    )
        requires jobs { IsPassOf self.now.jobs jobs.old × IsFirst (view jobs.old) (self.now.workers + 1) [] }
        requires results { IsPassOf self.now.results results.old × IsFirst (view results.old) (self.now.workers + 2) [] }
        requires workers { AreWorkersOf self.now 1 workers.items }
        ensures jobs { IsPassOf self.now.jobs jobs.new × IsFirst (view jobs.new) (self.now.workers + 1) (job_parts workers.items) × ((view jobs.new).put ≡ (view jobs.old).put) × ((view jobs.new).capacity ≡ (view jobs.old).capacity) }
        ensures results { IsPassOf self.now.results results.new × IsFirst (view results.new) (self.now.workers + 2) (result_parts workers.items) × ((view results.new).put ≡ (view results.old).put) × ((view results.new).capacity ≡ (view results.old).capacity) }
    {
        'workers: while !workers.is_empty() {
            let Worker {
                jobs: job_pass,
                results: result_pass,
                held: _,
            } = workers.remove(0);
            self.jobs.absorb::<Returns>(jobs, job_pass);
            self.results.absorb::<Returns>(results, result_pass);
        }
    }

    // Takes the jobs that are left.
    fn drain_jobs(&self, rt: &impl Wait, jobs: &mut JobPass<J>, left: &mut Vec<(u32, J)>)
        requires pass { IsPassOf self.now.jobs jobs.old × IsFirst (view jobs.old) (self.now.workers + 1) (view jobs.old).returned }
        requires all { length (view jobs.old).returned ≡ self.now.workers }
        requires left { (left.old.items ≡ []) × ((view jobs.old).capacity ≤ vec_capacity left.old) }
        ensures { History (((view jobs.old).put, []) ∷ (view jobs.old).returned) (view jobs.new).taken × (left.new.items ≡ jobs_of (view jobs.new).taken) }
    {
        'items: for _ in rt.forever() {
            match self.jobs.pop_as::<Drains, _>(rt, jobs) {
                Some(JobItem::Job { index, job }) => left.push_reserved((index, job)),
                Some(JobItem::Stop) => {}
                None => break,
            }
        }
    }

    // Takes the results that are left.
    fn drain_results(&self, rt: &impl Wait, results: &mut ResultPass<R>, left: &mut Vec<(u32, R)>)
        requires pass { IsPassOf self.now.results results.old × IsFirst (view results.old) (self.now.workers + 2) (view results.old).returned }
        requires all { length (view results.old).returned ≡ self.now.workers + 1 }
        requires left { (left.old.items ≡ []) × ((view results.old).capacity ≤ vec_capacity left.old) }
        ensures { History (((view results.old).put, []) ∷ (view results.old).returned) (view results.new).taken × (left.new.items ≡ results_of (view results.new).taken) }
    {
        'items: for _ in rt.forever() {
            match self.results.pop_as::<Drains, _>(rt, results) {
                Some(
                    ResultItem::Result {
                        index,
                        result: value,
                    },
                ) => { left.push_reserved((index, value)) }
                Some(ResultItem::Count(_)) => {}
                None => break,
            }
        }
    }

    /// Closes a board with all of its passes. Returns what is left on it.
    pub fn close(
        self,
        rt: &impl Wait,
        receipt: Receipt<J, R>,
        workers: Vec<Worker<J, R>>,
        collector: Collector<R>,
    ) -> Left<J, R>
        requires receipt { IsReceiptOf self receipt }
        requires workers { AreWorkersOf self 1 workers.items × (length workers.items ≡ self.workers) }
        requires collector { IsCollectorOf self collector }
        ensures jobs { InterleavesTo (was_published receipt) (map (λ w. claimed w) workers.items) result.jobs.items }
        ensures results { IsInterleaving (map (λ w. deposited w) workers.items) (collected collector ++ result.results.items) }
        ensures known { (i : ℕ) → times i (indexes (collected collector ++ result.results.items)) ≤ times i (indexes (was_published receipt)) }
        ensures distinct { AreDistinct (indexes (collected collector ++ result.results.items)) }
        ensures count { (counts collector ≡ []) ⊎ (counts collector ≡ length (was_published receipt) ∷ []) }
    {
        let Receipt {
            mut jobs,
            mut results,
            mut left,
        } = receipt;
        self.take_back(&mut jobs, &mut results, workers);
        self.results
            .absorb::<Returns>(&mut results, collector.results);
        self.drain_jobs(rt, &mut jobs, &mut left.jobs);
        self.drain_results(rt, &mut results, &mut left.results);
        left
    }
}
