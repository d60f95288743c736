// How the workers of a round are started.
ghost use Rattle.std.specs.Prelude.{◌≡◌, ◌≤◌, IfOk, length};
ghost use Rattle.job_board.specs.Passes.{IsIdle, IsWorkerOf};
ghost use Rattle.stop_word.specs.Seats.{IsWatcherOf};
ghost use Rattle.job_board_tests.specs.Crews.{ArePasses, AreStarted, IsStarted};

use crate::joining::Started;
use crate::working::{Crossing, Task, WorkerPromise, work};
use job_board::{Board, Worker};
use std::alloc::{AllocError, Global};
use std::snapshot::Snapshot;
use std::sync::Wait;
use std::thread::{Scope, Threads};
use stop_word::StopWord;

// Starts a worker. Does its work here if no thread can be made.
fn start_one<
    's,
    E,
    R: Threads + Wait + Sync,
    J: Drop + Send + 's,
    V: Drop + Send + 's,
    T: Task<J, V> + Sync,
>(
    scope: &Scope<'s, E>,
    rt: &'s R,
    board: &'s Board<J, V>,
    stop: &'s StopWord,
    task: &'s T,
    number: u32,
    pass: Crossing<Worker<J, V>>,
) -> Started<J, V>
    requires worker { IsWorkerOf board.now number pass.worker × IsIdle pass.worker }
    requires watcher { IsWatcherOf stop.now pass.watcher }
    ensures { IsStarted board.now stop.now number result }
{
    let promise = WorkerPromise {
        board: Snapshot::of(board),
        stop: Snapshot::of(stop),
        number,
    };
    match scope.spawn_with(
        promise,
        move || -> Crossing<Worker<J, V>>
            requires worker { IsWorkerOf board.now number pass.worker × IsIdle pass.worker }
            requires watcher { IsWatcherOf stop.now pass.watcher }
            ensures { IsWorkerOf board.entry.now number result.worker × IsWatcherOf stop.entry.now result.watcher }
        { work(rt, board, stop, task, number, pass) },
    ) {
        Ok(handle) => Started::There(handle),
        Err(refused) => Started::Here((refused.value)()),
    }
}

/// Starts all workers, in order.
pub(crate) fn start_all<
    's,
    E,
    R: Threads + Wait + Sync,
    J: Drop + Send + 's,
    V: Drop + Send + 's,
    T: Task<J, V> + Sync,
>(
    scope: &Scope<'s, E>,
    rt: &'s R,
    alloc: Global,
    board: &'s Board<J, V>,
    stop: &'s StopWord,
    task: &'s T,
    mut passes: Vec<Crossing<Worker<J, V>>>,
) -> Result<Vec<Started<J, V>>, AllocError>
    requires { ArePasses board.now stop.now 1 passes.items × (length passes.items ≤ 64) }
    ensures { IfOk result (λ started. AreStarted board.now stop.now 1 started.items × (length started.items ≡ length passes.items)) }
{
    let mut started = Vec::with_capacity(alloc, passes.len())?;
    let mut number = 0u32;
    'workers: while !passes.is_empty() {
        let pass = passes.remove(0);
        number += 1;
        let one = start_one(scope, rt, board, stop, task, number, pass);
        started.push_reserved(one);
    }
    Ok(started)
}
