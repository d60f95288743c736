// A whole round.
ghost use Rattle.std.specs.Prelude.{◌≡◌, ◌≤◌, ◌<◌, ◌+◌, ◌^◌};
ghost use Rattle.dp_base.specs.declared.limits.TheConstants.{MAX_WORKERS};
ghost use Rattle.epoch_stream.specs.Streams.{Streamed, and_then};

use crate::bell::Bells;
use crate::racer_part::{RaceEnd, Racing};
use crate::round::{Finished, run_round};
use crate::round_parts::{SetUp, set_up};
use crate::single_job::run_one;
use crate::taker::Taker;
use crate::taker_part::Taken;
use disk_model::Gate;
use dp_base::OutOfMemory;
use guest_kernel::State;
use racing_runner::{More, Plan, Racer};
use std::alloc::Global;
use std::sync::Wait;
use std::thread::Threads;
use supply::Supply;

/// Runs a round from a state: a racer, workers and a taker at once. The racer's offers make the jobs, workers run them,
/// and the taker takes their results in the order of the jobs, on the caller's own thread, while later ones still run.
/// Before each job its worker passes the gate. The taker and the racer are returned.
///
/// Once the taker has enough, the racer's next offer is answered so, and no further job is begun. A round of one job
/// needs no thread, and no racer races in it.
///
/// # Errors
///
/// Answers `OutOfMemory` if memory runs out for the round, in the racer, or for a job whose turn it is. What was taken
/// stays taken.
pub fn stream<R: Threads + Wait + Sync, Q: Racer + Drop + Send, G: Gate + Sync, T: Taker + Drop>(
    rt: &R,
    alloc: Global,
    start: State,
    racer: Q,
    supply: &Supply,
    plan: &Plan,
    workers: u32,
    gate: &G,
    taker: T,
) -> (T, Q, Result<(), OutOfMemory>)
    requires some { 0 < workers }
    requires few { workers ≤ MAX_WORKERS }
    requires countable { start.steps + plan.now.left < 2 ^ 63 }
    requires taker { T.ready taker × (T.taken taker ≡ 0) }
    requires expected { T.expects taker start }
    ensures { Streamed Q.tells T.takes supply.now plan.now start racer result.1 taker result.0 result.2 }
{
    if plan.jobs == 1 {
        return run_one(alloc, start, racer, supply, plan, gate, taker);
    }
    // A worker without a job needs no thread.
    let most = workers.min(plan.jobs);
    match set_up(alloc, plan.jobs, most, &start) {
        Ok(round) => {
            let SetUp {
                start: opened,
                board,
                stop,
                publisher,
                watcher,
                ready,
            } = round;
            let bells = Bells::new();
            let racing = Racing {
                racer,
                publisher,
                watcher,
                start,
                opened,
            };
            let Finished {
                taken,
                raced,
                workers: all,
            } = run_round(
                rt, alloc, &board, &bells, &stop, supply, plan, gate, racing, ready, taker,
            );
            let Taken {
                taker,
                collector,
                end,
            } = taken;
            let RaceEnd {
                racer,
                receipt,
                stopped: _,
                answer,
            } = raced;
            drop(board.close(rt, receipt, all, collector));
            (taker, racer, first_fault(end, answer))
        }
        Err(error) => (taker, racer, Err(error)),
    }
}

// `OutOfMemory` if one of the two ran out of memory.
fn first_fault(
    end: Result<More, OutOfMemory>,
    answer: Result<(), OutOfMemory>,
) -> Result<(), OutOfMemory>
    ensures { result ≡ and_then end answer }
{
    end?;
    answer
}
