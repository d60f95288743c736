// A round on a board, by threads.
ghost use Rattle.std.specs.Prelude.{◌≡◌, ◌≤◌, ◌<◌, [], IfOk, length};
ghost use Rattle.job_board.specs.Passes.{AreIdle, AreWorkersOf, IsCollectorOf};
ghost use Rattle.stop_word.specs.Seats.{IsStopperOf};
ghost use Rattle.job_board_tests.specs.Crews.{ArePasses};
ghost use Rattle.job_board_tests.specs.Rounds.{IsFinished, IsReady};

use crate::joining::join_all;
use crate::publishing::{join_publisher, start_publisher};
use crate::starting::start_all;
use crate::working::{Crossing, Task};
use job_board::{Board, Collected, Collector, Left, Publisher, Receipt, Worker};
use std::alloc::{AllocError, Global};
use std::sync::Wait;
use std::thread::{self, Scope, Threads};
use stop_word::{StopWord, Stopper};

/// What a round leaves: the results that were collected, in order, with their jobs' indexes, and what was left on the
/// board.
#[derive(Drop)]
pub(crate) struct Closed<J: Drop, V: Drop> {
    pub(crate) collected: Vec<(u32, V)>,
    pub(crate) count: u32,
    pub(crate) left: Left<J, V>,
}

// What a round's threads give back.
#[derive(Drop)]
struct Finished<J: Drop, V: Drop> {
    receipt: Receipt<J, V>,
    workers: Vec<Worker<J, V>>,
    collector: Collector<V>,
    collected: Vec<(u32, V)>,
    count: u32,
}

// What goes into a round.
#[derive(Drop)]
struct Crew<J: Drop, V: Drop> {
    publisher: Publisher<J, V>,
    jobs: Vec<J>,
    passes: Vec<Crossing<Worker<J, V>>>,
    collector: Collector<V>,
    stopper: Stopper,
}

// Collects until the count is there, and as many results. Stops the word after the given number of results.
fn collect_all<R: Wait, J: Drop, V: Drop>(
    rt: &R,
    alloc: Global,
    board: &Board<J, V>,
    stop: &StopWord,
    stopper: &mut Stopper,
    collector: &mut Collector<V>,
    stop_after: u32,
) -> Result<(Vec<(u32, V)>, u32), AllocError>
    requires collector { IsCollectorOf board.now collector.old }
    requires stopper { IsStopperOf stop.now stopper.old }
    ensures collector { IsCollectorOf board.now collector.new }
    ensures stopper { IsStopperOf stop.now stopper.new }
{
    let mut collected = Vec::new(alloc);
    let mut count = u32::MAX;
    'results: for _ in rt.forever() {
        if collected.len() == count as usize {
            break;
        }
        if collected.len() == stop_after as usize {
            stop.stop(stopper);
        }
        match board.collect(rt, collector) {
            Collected::Result {
                index,
                result: value,
            } => collected.push((index, value))?,
            Collected::Count(jobs) => count = jobs,
            Collected::Empty => thread::yield_now(),
        }
    }
    Ok((collected, count))
}

fn in_scope<
    's,
    E,
    R: Threads + Wait + Sync,
    J: Drop + Send + 's,
    V: Drop + Send + 's,
    T: Task<J, V> + Sync,
>(
    scope: &Scope<'s, E>,
    rt: &'s R,
    alloc: Global,
    board: &'s Board<J, V>,
    stop: &'s StopWord,
    task: &'s T,
    crew: Crew<J, V>,
    stop_after: u32,
) -> Result<Finished<J, V>, AllocError>
    requires { IsReady board.now stop.now crew }
    ensures { IfOk result (IsFinished board.now (length crew.passes.items)) }
{
    let Crew {
        publisher,
        jobs,
        passes,
        mut collector,
        mut stopper,
    } = crew;
    let publishing = start_publisher(scope, rt, board, publisher, jobs);
    let started = start_all(scope, rt, alloc, board, stop, task, passes)?;
    let (collected, count) = collect_all(
        rt,
        alloc,
        board,
        stop,
        &mut stopper,
        &mut collector,
        stop_after,
    )?;
    let workers = join_all(rt, alloc, board, stop, &mut stopper, started)?;
    let receipt = join_publisher(rt, board, publishing);
    Ok(Finished {
        receipt,
        workers,
        collector,
        collected,
        count,
    })
}

fn run_crew<R: Threads + Wait + Sync, J: Drop + Send, V: Drop + Send, T: Task<J, V> + Sync>(
    rt: &R,
    alloc: Global,
    board: &Board<J, V>,
    stop: &StopWord,
    task: &T,
    crew: Crew<J, V>,
    stop_after: u32,
) -> Result<Finished<J, V>, AllocError>
    requires { IsReady board.now stop.now crew }
    ensures { IfOk result (IsFinished board.now (length crew.passes.items)) }
{
    thread::scope(
        thread::scope_env(),
        rt,
        move |scope| -> Result<Finished<J, V>, AllocError>
            requires { IsReady board.now stop.now crew }
            ensures { IfOk result (IsFinished board.entry.now (length crew.passes.items)) }
        { in_scope(scope, rt, alloc, board, stop, task, crew, stop_after) },
    )
}

// Gives each worker a watcher.
fn add_watchers<J: Drop, V: Drop>(
    alloc: Global,
    board: &Board<J, V>,
    stop: &StopWord,
    stopper: &mut Stopper,
    mut workers: Vec<Worker<J, V>>,
) -> Result<Vec<Crossing<Worker<J, V>>>, AllocError>
    requires workers { AreWorkersOf board.now 1 workers.items × AreIdle workers.items }
    requires stopper { IsStopperOf stop.now stopper.old }
    ensures passes { IfOk result (λ passes. ArePasses board.now stop.now 1 passes.items × (length passes.items ≡ length workers.items)) }
    ensures stopper { IfOk result (λ _. IsStopperOf stop.now stopper.new) }
{
    let mut passes = Vec::with_capacity(alloc, workers.len())?;
    'workers: while !workers.is_empty() {
        let worker = workers.remove(0);
        let watcher = stop.watcher(stopper);
        passes.push_reserved(Crossing { worker, watcher });
    }
    Ok(passes)
}

/// Runs a round: publisher and workers in threads of their own, and the collector here. Stops the word after the given
/// number of results.
pub(crate) fn run_round<
    R: Threads + Wait + Sync,
    J: Drop + Send,
    V: Drop + Send,
    T: Task<J, V> + Sync,
>(
    rt: &R,
    alloc: Global,
    jobs: Vec<J>,
    workers: u32,
    task: &T,
    stop_after: u32,
) -> Result<Closed<J, V>, AllocError>
    requires workers { (0 < workers) × (workers ≤ 64) }
    requires jobs { length jobs.items ≤ 64 }
{
    let limit = jobs.len() as u32;
    let (board, publisher, all, collector) = Board::<J, V>::new(alloc, limit, workers)?;
    let (stop, mut stopper) = StopWord::new(alloc)?;
    let passes = add_watchers(alloc, &board, &stop, &mut stopper, all)?;
    let crew = Crew {
        publisher,
        jobs,
        passes,
        collector,
        stopper,
    };
    let Finished {
        receipt,
        workers: all,
        collector,
        collected,
        count,
    } = run_crew(rt, alloc, &board, &stop, task, crew, stop_after)?;
    let left = board.close(rt, receipt, all, collector);
    Ok(Closed {
        collected,
        count,
        left,
    })
}
