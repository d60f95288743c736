// What a worker does.
ghost use Rattle.std.specs.Prelude.{◌≡◌, true};
ghost use Rattle.job_board.specs.Passes.{IsIdle, IsWorkerOf, claimed, deposited, number};
ghost use Rattle.stop_word.specs.Seats.{IsWatcherOf, has_seen};
ghost use Rattle.epoch_stream.specs.Deposits.{AreFor, IsFor, IsSkipped};
ghost use Rattle.epoch_stream.specs.Rounds.{IsPass, IsReturned};

use crate::bell::Bells;
use crate::deposit::{Deposit, EpochBoard};
use disk_model::Gate;
use epoch_pool::Job;
use epoch_runner::run_epoch;
use job_board::{Claim, Worker};
use std::alloc::Global;
use std::sync::Wait;
use stop_word::{StopWord, Watcher};
use supply::Supply;

/// What a worker starts with, and what it leaves.
#[derive(Drop)]
pub(crate) struct Pass {
    pub worker: Worker<Job, Deposit>,
    pub watcher: Watcher,
}

// The deposit for a job. Once the round is stopped, the job isn't run.
fn deposit_for<G: Gate>(
    alloc: Global,
    stop: &StopWord,
    supply: &Supply,
    gate: &G,
    number: u32,
    watcher: &mut Watcher,
    job: Job,
) -> Deposit
    requires watcher { IsWatcherOf stop.now watcher.old }
    ensures watcher { IsWatcherOf stop.now watcher.new }
    ensures deposit { IsFor supply.now job result }
    ensures skipped { IsSkipped result → has_seen watcher.new ≡ true }
{
    if stop.is_stopped(watcher) {
        return Deposit::Skipped(job);
    }
    gate.pass(number, job.index);
    let Job {
        start,
        hints,
        bounds,
        ..
    } = job;
    match run_epoch(alloc, start, &hints, supply, bounds) {
        Ok(ran) => Deposit::Ran(ran),
        Err(_) => Deposit::OutOfMemory,
    }
}

/// Runs jobs until there are no more.
pub(crate) fn work<R: Wait, G: Gate>(
    rt: &R,
    alloc: Global,
    board: &EpochBoard,
    bells: &Bells,
    stop: &StopWord,
    supply: &Supply,
    gate: &G,
    worker_number: u32,
    pass: Pass,
) -> Pass
    requires { IsPass board.now stop.now worker_number pass }
    ensures { IsReturned board.now supply.now worker_number result.worker }
{
    let Pass {
        mut worker,
        mut watcher,
    } = pass;
    let mut looks = 0u32;
    'jobs: for _ in rt.forever() {
        let rings = bells.jobs.rings(rt);
        match board.claim(rt, &mut worker) {
            Claim::Job { index: _, job } => {
                let deposit = deposit_for(
                    alloc,
                    stop,
                    supply,
                    gate,
                    worker_number,
                    &mut watcher,
                    job,
                );
                board.deposit(rt, &mut worker, deposit);
                bells.results.ring(rt);
                looks = 0;
            }
            Claim::Stop => break,
            Claim::Empty => {
                bells.jobs.wait(rt, looks, rings);
                looks = looks.saturating_add(1);
            }
        }
    }
    Pass { worker, watcher }
}
