// How the workers of a round are joined.
ghost use Rattle.std.specs.Prelude.{◌≡◌, ◌≤◌, IfOk, length};
ghost use Rattle.job_board.specs.Passes.{IsWorkerOf, AreWorkersOf};
ghost use Rattle.stop_word.specs.Seats.{IsStopperOf, IsWatcherOf};
ghost use Rattle.job_board_tests.specs.Crews.{AreStarted, IsStarted};

use crate::working::{Crossing, WorkerPromise};
use job_board::{Board, Worker};
use std::alloc::{AllocError, Global};
use std::thread::{PromisedHandle, Threads};
use stop_word::{StopWord, Stopper};

/// A worker that runs in its thread, or has run here.
#[derive(Drop)]
pub(crate) enum Started<J: Drop, V: Drop> {
    There(PromisedHandle<Crossing<Worker<J, V>>, WorkerPromise<J, V>>),
    Here(Crossing<Worker<J, V>>),
}

// Waits for a worker.
fn join_one<R: Threads, J: Drop, V: Drop>(
    rt: &R,
    board: &Board<J, V>,
    stop: &StopWord,
    number: u32,
    started: Started<J, V>,
) -> Crossing<Worker<J, V>>
    requires { IsStarted board.now stop.now number started }
    ensures { IsWorkerOf board.now number result.worker × IsWatcherOf stop.now result.watcher }
{
    match started {
        Started::There(handle) => handle.join(rt),
        Started::Here(crossing) => crossing,
    }
}

/// Waits for all workers, in order. Takes their watchers back.
pub(crate) fn join_all<R: Threads, J: Drop, V: Drop>(
    rt: &R,
    alloc: Global,
    board: &Board<J, V>,
    stop: &StopWord,
    stopper: &mut Stopper,
    mut started: Vec<Started<J, V>>,
) -> Result<Vec<Worker<J, V>>, AllocError>
    requires started { AreStarted board.now stop.now 1 started.items × (length started.items ≤ 64) }
    requires stopper { IsStopperOf stop.now stopper.old }
    ensures { IfOk result (λ workers. AreWorkersOf board.now 1 workers.items × (length workers.items ≡ length started.items)) }
{
    let mut workers = Vec::with_capacity(alloc, started.len())?;
    let mut number = 0u32;
    'workers: while !started.is_empty() {
        let one = started.remove(0);
        number += 1;
        let Crossing { worker, watcher } = join_one(rt, board, stop, number, one);
        stop.settle(stopper, watcher);
        workers.push_reserved(worker);
    }
    Ok(workers)
}
