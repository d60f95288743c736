// What a worker does in its thread.
ghost use Rattle.std.specs.Prelude.{◌≡◌};
ghost use Rattle.job_board.specs.Passes.{IsIdle, IsWorkerOf};
ghost use Rattle.stop_word.specs.Seats.{IsWatcherOf};

use job_board::{Board, Claim, Worker};
use std::snapshot::Snapshot;
use std::sync::Wait;
use std::thread::{self, Promise};
use stop_word::{StopWord, Watcher};

/// What the workers of a round do with a job.
pub(crate) trait Task<J, V> {
    /// Returns the result of a job. The worker has done this many before, and has found the stop word stopped or not.
    fn run(&self, worker: u32, done: u32, stopped: bool, job: J) -> V;
}

/// What a worker takes into its thread, and brings back. A struct that crosses is generic in the pass.
#[derive(Drop)]
pub(crate) struct Crossing<W: Drop> {
    pub(crate) worker: W,
    pub(crate) watcher: Watcher,
}

/// What a worker's thread promises.
#[derive(Drop)]
pub(crate) struct WorkerPromise<J: Drop, V: Drop> {
    pub(crate) board: Snapshot<Board<J, V>>,
    pub(crate) stop: Snapshot<StopWord>,
    pub(crate) number: u32,
}

impl<J: Drop, V: Drop> Promise<Crossing<Worker<J, V>>> for WorkerPromise<J, V> {
    ghost kept_by = { λ p r. IsWorkerOf p.board.value p.number r.worker × IsWatcherOf p.stop.value r.watcher };
}

/// Does jobs until the board says stop.
pub(crate) fn work<R: Wait, J: Drop, V: Drop, T: Task<J, V>>(
    rt: &R,
    board: &Board<J, V>,
    stop: &StopWord,
    task: &T,
    number: u32,
    pass: Crossing<Worker<J, V>>,
) -> Crossing<Worker<J, V>>
    requires worker { IsWorkerOf board.now number pass.worker × IsIdle pass.worker }
    requires watcher { IsWatcherOf stop.now pass.watcher }
    ensures worker { IsWorkerOf board.now number result.worker }
    ensures watcher { IsWatcherOf stop.now result.watcher }
{
    let Crossing {
        mut worker,
        mut watcher,
    } = pass;
    let mut done = 0u32;
    'jobs: for _ in rt.forever() {
        match board.claim(rt, &mut worker) {
            Claim::Job { index: _, job } => {
                let stopped = stop.is_stopped(&mut watcher);
                let value = task.run(number, done, stopped, job);
                board.deposit(rt, &mut worker, value);
                done = done.saturating_add(1);
            }
            Claim::Stop => break,
            Claim::Empty => thread::yield_now(),
        }
    }
    Crossing { worker, watcher }
}
