// A round of one job.
ghost use Rattle.std.specs.Prelude.{◌≡◌, ◌<◌, ◌+◌, ◌^◌};
ghost use Rattle.epoch_stream.specs.Streams.{Streamed};

use crate::racer_part::job_of;
use crate::taker::Taker;
use disk_model::Gate;
use dp_base::OutOfMemory;
use epoch_pool::Job;
use epoch_runner::run_epoch;
use guest_kernel::State;
use racing_runner::{Plan, Racer};
use std::alloc::Global;
use supply::Supply;
use sync_hints::Hints;

/// Runs a round of one job. No offer of a racer is taken then, so none races, and no thread is started.
pub(crate) fn run_one<Q: Racer + Drop, G: Gate, T: Taker + Drop>(
    alloc: Global,
    start: State,
    racer: Q,
    supply: &Supply,
    plan: &Plan,
    gate: &G,
    taker: T,
) -> (T, Q, Result<(), OutOfMemory>)
    requires one { plan.now.jobs ≡ 1 }
    requires countable { start.steps + plan.now.left < 2 ^ 63 }
    requires taker { T.ready taker × (T.taken taker ≡ 0) }
    requires expected { T.expects taker start }
    ensures { Streamed Q.tells T.takes supply.now plan.now start racer result.1 taker result.0 result.2 }
{
    let mut taker = taker;
    let limit = start.steps + plan.left;
    let job = job_of(plan, limit, 1, plan.first, start, Hints::none(alloc));
    gate.pass(1, 1);
    let Job {
        index: _,
        start,
        hints,
        bounds,
    } = job;
    match run_epoch(alloc, start, &hints, supply, bounds) {
        Ok(ran) => {
            taker.take_known(ran);
            (taker, racer, Ok(()))
        }
        Err(error) => (taker, racer, Err(error)),
    }
}
