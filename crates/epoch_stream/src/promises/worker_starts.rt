// How a round's workers are started and joined.
ghost use Rattle.std.specs.Prelude.{◌≡◌, ◌≤◌, [], length, vec_capacity};
ghost use Rattle.dp_base.specs.declared.limits.TheConstants.{MAX_WORKERS};
ghost use Rattle.epoch_stream.specs.Rounds.{AreDone, ArePasses, AreStarted, IsPass, IsReturned, IsStarted};

use super::{Started, WorkerPromise};
use crate::bell::Bells;
use crate::deposit::{Deposit, EpochBoard};
use crate::worker_part::{Pass, work};
use disk_model::Gate;
use epoch_pool::Job;
use job_board::Worker;
use std::alloc::Global;
use std::snapshot::Snapshot;
use std::sync::Wait;
use std::thread::{Scope, Threads};
use stop_word::StopWord;
use supply::Supply;

// Starts a worker, or runs it here if no thread can be made.
fn start_one<'s, E, R: Threads + Wait + Sync, G: Gate + Sync>(
    scope: &Scope<'s, E>,
    rt: &'s R,
    alloc: Global,
    board: &'s EpochBoard,
    bells: &'s Bells,
    stop: &'s StopWord,
    supply: &'s Supply,
    gate: &'s G,
    worker_number: u32,
    pass: Pass,
) -> Started
    requires { IsPass board.now stop.now worker_number pass }
    ensures { IsStarted board.now supply.now worker_number result }
{
    let promise = WorkerPromise {
        board: Snapshot::of(board),
        supply: Snapshot::of(supply),
        number: worker_number,
    };
    match scope.spawn_with(
        promise,
        move || -> Pass
            requires { IsPass board.now stop.now worker_number pass }
            ensures { IsReturned board.entry.now supply.entry.now worker_number result.worker }
        {
            work(
                rt,
                alloc,
                board,
                bells,
                stop,
                supply,
                gate,
                worker_number,
                pass,
            )
        },
    ) {
        Ok(handle) => Started::There(handle),
        Err(refused) => Started::Here((refused.value)()),
    }
}

/// Starts all workers, in order.
pub(crate) fn start_all<'s, E, R: Threads + Wait + Sync, G: Gate + Sync>(
    scope: &Scope<'s, E>,
    rt: &'s R,
    alloc: Global,
    board: &'s EpochBoard,
    bells: &'s Bells,
    stop: &'s StopWord,
    supply: &'s Supply,
    gate: &'s G,
    mut passes: Vec<Pass>,
    mut started: Vec<Started>,
) -> Vec<Started>
    requires passes { ArePasses board.now stop.now 1 passes.items × (length passes.items ≤ MAX_WORKERS) }
    requires started { (started.items ≡ []) × (length passes.items ≤ vec_capacity started) }
    ensures { AreStarted board.now supply.now 1 result.items × (length result.items ≡ length passes.items) }
{
    let mut worker_number = 0u32;
    'workers: while !passes.is_empty() {
        let pass = passes.remove(0);
        worker_number += 1;
        let one = start_one(
            scope,
            rt,
            alloc,
            board,
            bells,
            stop,
            supply,
            gate,
            worker_number,
            pass,
        );
        started.push_reserved(one);
    }
    started
}

// The worker, once it has returned.
fn join_one<R: Threads>(
    rt: &R,
    board: &EpochBoard,
    supply: &Supply,
    worker_number: u32,
    started: Started,
) -> Worker<Job, Deposit>
    requires { IsStarted board.now supply.now worker_number started }
    ensures { IsReturned board.now supply.now worker_number result }
{
    match started {
        Started::There(handle) => {
            let Pass { worker, watcher: _ } = handle.join(rt);
            worker
        }
        Started::Here(returned) => {
            let Pass { worker, watcher: _ } = returned;
            worker
        }
    }
}

/// The workers, in order, once they have returned.
pub(crate) fn join_all<R: Threads>(
    rt: &R,
    board: &EpochBoard,
    supply: &Supply,
    mut started: Vec<Started>,
    mut workers: Vec<Worker<Job, Deposit>>,
) -> Vec<Worker<Job, Deposit>>
    requires started { AreStarted board.now supply.now 1 started.items × (length started.items ≤ MAX_WORKERS) }
    requires workers { (workers.items ≡ []) × (length started.items ≤ vec_capacity workers) }
    ensures { AreDone board.now supply.now 1 result.items × (length result.items ≡ length started.items) }
{
    let mut worker_number = 0u32;
    'workers: while !started.is_empty() {
        let one = started.remove(0);
        worker_number += 1;
        let worker = join_one(rt, board, supply, worker_number, one);
        workers.push_reserved(worker);
    }
    workers
}
