// How a board is made.
ghost use Rattle.std.specs.Prelude.{◌≡◌, ◌+◌, ◌<◌, [], IfOk, length};
ghost use Rattle.crossbeam_queue.specs.Passes.{view, IsPassOf};
ghost use Rattle.job_board.specs.Queue.{root};
ghost use Rattle.job_board.specs.Opening.{job_view, result_view};
ghost use Rattle.job_board.specs.Passes.{AreIdle, AreWorkersOf, IsCollectorOf, IsPublisherOf, IsReserved, collected, counts, published};

use crate::board::{Board, JobQueue, ResultQueue};
use crate::outcomes::Left;
use crate::pass::{Collector, JobPass, Publisher, ResultPass, Worker};
use crate::rule::{Putting, Size, Taking};
use std::alloc::{AllocError, Global};
use std::marker::Brand;

// A board with the first pass of each queue.
struct Fresh<J: Drop, R: Drop> {
    board: Board<J, R>,
    jobs: JobPass<J>,
    results: ResultPass<R>,
}

fn make_fresh<J: Drop, R: Drop>(
    alloc: Global,
    limit: u32,
    workers: u32,
) -> Result<Fresh<J, R>, AllocError>
    requires { 0 < workers }
    ensures size { IfOk result (λ s. (s.board.limit ≡ limit) × (s.board.workers ≡ workers)) }
    ensures jobs { IfOk result (λ s. IsPassOf s.board.jobs s.jobs × (view s.jobs ≡ root)) }
    ensures results { IfOk result (λ s. IsPassOf s.board.results s.results × (view s.results ≡ root)) }
{
    let (job_queue, jobs) = JobQueue::<J>::ruled(alloc, limit as usize + workers as usize)?;
    let (result_queue, results) = ResultQueue::<R>::ruled(
        alloc,
        limit as usize * workers as usize + 1,
    )?;
    let board = Board {
        jobs: job_queue,
        results: result_queue,
        limit,
        workers,
    };
    Ok(Fresh {
        board,
        jobs,
        results,
    })
}

impl<J: Drop, R: Drop> Board<J, R> {
    // Memory for all that may be left.
    fn reserve(&self, alloc: Global) -> Result<Left<J, R>, AllocError>
        ensures { IfOk result (IsReserved self.now) }
    {
        let jobs = Vec::with_capacity(alloc, self.limit as usize + self.workers as usize)?;
        let results = Vec::with_capacity(alloc, self.limit as usize * self.workers as usize + 1)?;
        Ok(Left { jobs, results })
    }

    // Makes the workers' passes, in order.
    fn add_workers<S: Size>(
        &self,
        alloc: Global,
        jobs: &mut JobPass<J>,
        results: &mut ResultPass<R>,
    ) -> Result<Vec<Worker<J, R>>, AllocError>
        requires size { (self.now.limit ≡ S.jobs) × (self.now.workers ≡ S.workers) }
        requires jobs { IsPassOf self.now.jobs jobs.old × (view jobs.old ≡ root) }
        requires results { IsPassOf self.now.results results.old × (view results.old ≡ root) }
        ensures jobs { IfOk result (λ _. IsPassOf self.now.jobs jobs.new × (view jobs.new ≡ job_view self.now self.now.workers)) }
        ensures results { IfOk result (λ _. IsPassOf self.now.results results.new × (view results.new ≡ result_view self.now self.now.workers)) }
        ensures workers { IfOk result (λ v. AreWorkersOf self.now 1 v.items × AreIdle v.items × (length v.items ≡ self.now.workers)) }
    {
        let mut workers = Vec::with_capacity(alloc, self.workers as usize)?;
        'workers: for made in 0..self.workers {
            let job_pass = self.jobs.another::<Taking<S>>(jobs);
            let result_pass = self.results.another::<Putting<S>>(results);
            workers.push_reserved(Worker {
                jobs: job_pass,
                results: result_pass,
                held: None,
            });
        }
        Ok(workers)
    }

    /// Makes a board for at most `jobs` jobs, with its passes. It allocates all that the other calls need.
    ///
    /// # Errors
    ///
    /// `AllocError` if an allocation fails.
    pub fn new(
        alloc: Global,
        jobs: u32,
        workers: u32,
    ) -> Result<
        (
            Board<J, R>,
            Publisher<J, R>,
            Vec<Worker<J, R>>,
            Collector<R>,
        ),
        AllocError,
    >
        requires some { 0 < workers }
        ensures size { IfOk result (λ r. (r.0.limit ≡ jobs) × (r.0.workers ≡ workers)) }
        ensures publisher { IfOk result (λ r. IsPublisherOf r.0 r.1 × (published r.1 ≡ [])) }
        ensures workers { IfOk result (λ r. AreWorkersOf r.0 1 r.2.items × AreIdle r.2.items × (length r.2.items ≡ workers)) }
        ensures collector { IfOk result (λ r. IsCollectorOf r.0 r.3 × (collected r.3 ≡ []) × (counts r.3 ≡ [])) }
    {
        Self::sized::<Brand>(alloc, jobs, workers)
    }

    // The rules of the queues read the size from a type.
    fn sized<S: Size>(
        alloc: Global,
        limit: u32,
        workers: u32,
    ) -> Result<
        (
            Board<J, R>,
            Publisher<J, R>,
            Vec<Worker<J, R>>,
            Collector<R>,
        ),
        AllocError,
    >
        requires some { 0 < workers }
        requires size { (limit ≡ S.jobs) × (workers ≡ S.workers) }
        ensures size { IfOk result (λ r. (r.0.limit ≡ limit) × (r.0.workers ≡ workers)) }
        ensures publisher { IfOk result (λ r. IsPublisherOf r.0 r.1 × (published r.1 ≡ [])) }
        ensures workers { IfOk result (λ r. AreWorkersOf r.0 1 r.2.items × AreIdle r.2.items × (length r.2.items ≡ workers)) }
        ensures collector { IfOk result (λ r. IsCollectorOf r.0 r.3 × (collected r.3 ≡ []) × (counts r.3 ≡ [])) }
    {
        let Fresh {
            board,
            mut jobs,
            mut results,
        } = make_fresh(alloc, limit, workers)?;
        let left = board.reserve(alloc)?;
        let all = board.add_workers::<S>(alloc, &mut jobs, &mut results)?;
        let pass = board.results.another::<Taking<S>>(&mut results);
        let publisher = Publisher {
            jobs,
            results,
            count: 0,
            left,
        };
        Ok((board, publisher, all, Collector { results: pass }))
    }
}
