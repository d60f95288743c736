// What a round's threads need, made before any of them starts.
ghost use Rattle.std.specs.Prelude.{◌≡◌, ◌≤◌, ◌<◌, [], IfOk, None, length, vec_capacity};
ghost use Rattle.dp_base.specs.declared.limits.TheConstants.{MAX_JOBS, MAX_WORKERS};
ghost use Rattle.job_board.specs.Passes.{AreIdle, AreWorkersOf};
ghost use Rattle.stop_word.specs.Seats.{IsStopperOf, IsWatcherOf, has_stopped};
ghost use Rattle.epoch_stream.specs.Rounds.{ArePasses};
ghost use Rattle.epoch_stream.specs.Streams.{IsBlank, IsSetUp};

use crate::deposit::{Deposit, EpochBoard};
use crate::promises::Started;
use crate::taker_part::Tray;
use crate::worker_part::Pass;
use dp_base::OutOfMemory;
use epoch_pool::Job;
use guest_kernel::State;
use job_board::{Board, Collector, Publisher, Worker};
use std::alloc::Global;
use stop_word::{StopWord, Stopper, Watcher};

/// What a round's threads need.
#[derive(Drop)]
pub(crate) struct RoundParts {
    pub tray: Tray,
    pub stopper: Stopper,
    pub passes: Vec<Pass>,
    pub started: Vec<Started>,
    pub workers: Vec<Worker<Job, Deposit>>,
}

/// A round before it begins.
#[derive(Drop)]
pub(crate) struct SetUp {
    /// The state in which the first job starts.
    pub start: State,
    pub board: EpochBoard,
    pub stop: StopWord,
    pub publisher: Publisher<Job, Deposit>,
    pub watcher: Watcher,
    pub ready: RoundParts,
}

// A tray with nothing on it.
fn empty_tray(alloc: Global, jobs: u32, collector: Collector<Deposit>) -> Result<Tray, OutOfMemory>
    ensures { IfOk result (λ t. (t.collector ≡ collector) × IsBlank t.waiting.items × (length t.waiting.items ≡ jobs) × (t.count ≡ None)) }
{
    let mut waiting = Vec::new(alloc);
    'places: for made in 0..jobs {
        waiting.push(None)?;
    }
    Ok(Tray {
        collector,
        waiting,
        count: None,
    })
}

// A watcher for each worker.
fn add_watchers(
    board: &EpochBoard,
    stop: &StopWord,
    mut stopper: Stopper,
    mut workers: Vec<Worker<Job, Deposit>>,
    mut passes: Vec<Pass>,
) -> (Vec<Pass>, Stopper)
    requires stopper { IsStopperOf stop.now stopper }
    requires workers { AreWorkersOf board.now 1 workers.items × AreIdle workers.items }
    requires passes { (passes.items ≡ []) × (length workers.items ≤ vec_capacity passes) }
    ensures stopper { IsStopperOf stop.now result.1 }
    ensures said { has_stopped result.1 ≡ has_stopped stopper }
    ensures passes { ArePasses board.now stop.now 1 result.0.items × (length result.0.items ≡ length workers.items) }
{
    let _ = board;
    'workers: while !workers.is_empty() {
        let worker = workers.remove(0);
        let watcher = stop.watcher(&mut stopper);
        passes.push_reserved(Pass { worker, watcher });
    }
    (passes, stopper)
}

/// Makes all that a round needs of this many jobs that starts in this state.
pub(crate) fn set_up(
    alloc: Global,
    jobs: u32,
    workers: u32,
    first: &State,
) -> Result<SetUp, OutOfMemory>
    requires some { 0 < workers }
    requires few { workers ≤ MAX_WORKERS }
    requires few_jobs { jobs ≤ MAX_JOBS }
    ensures { IfOk result (λ s. IsSetUp first.now jobs s) }
{
    let start = first.share(alloc)?;
    let (board, publisher, all, collector) = Board::new(alloc, jobs, workers)?;
    let (stop, mut stopper) = StopWord::new(alloc)?;
    let watcher = stop.watcher(&mut stopper);
    let tray = empty_tray(alloc, jobs, collector)?;
    let count = all.len();
    let passes = Vec::with_capacity(alloc, count)?;
    let started = Vec::with_capacity(alloc, count)?;
    let done = Vec::with_capacity(alloc, count)?;
    let (passes, stopper) = add_watchers(&board, &stop, stopper, all, passes);
    Ok(SetUp {
        start,
        board,
        stop,
        publisher,
        watcher,
        ready: RoundParts {
            tray,
            stopper,
            passes,
            started,
            workers: done,
        },
    })
}
