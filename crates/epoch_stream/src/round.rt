// The threads of a round.
ghost use Rattle.std.specs.Prelude.{◌≡◌, ◌≢◌, ◌≤◌, ◌<◌, ◌+◌, ◌^◌, [], Ok, true};
ghost use Rattle.job_board.specs.Passes.{IsPublisherOf, published};
ghost use Rattle.stop_word.specs.Seats.{IsStopperOf, IsWatcherOf, has_stopped};
ghost use Rattle.racing_runner.specs.declared.offer.More.TheVariants.{Yes};
ghost use Rattle.epoch_stream.specs.Finishing.{HasFinished};
ghost use Rattle.epoch_stream.specs.Streams.{AreRoundParts};

use crate::bell::Bells;
use crate::deposit::{Deposit, EpochBoard};
use crate::promises::{join_all, join_racer, start_all, start_racer};
use crate::racer_part::{RaceEndOf, Raced, RacingOf};
use crate::round_parts::RoundParts;
use crate::taker::Taker;
use crate::taker_part::{Taken, take_all};
use disk_model::Gate;
use dp_base::OutOfMemory;
use epoch_pool::Job;
use job_board::Worker;
use racing_runner::{More, Plan, Racer};
use std::alloc::Global;
use std::snapshot::Snapshot;
use std::sync::Wait;
use std::thread;
use std::thread::{Scope, Threads};
use stop_word::{StopWord, Stopper};
use supply::Supply;

/// What a round's threads leave.
#[derive(Drop)]
pub(crate) struct Finished<Q: Drop, T: Drop> {
    pub taken: Taken<T>,
    pub raced: RaceEndOf<Q>,
    pub workers: Vec<Worker<Job, Deposit>>,
}

// Stops those that still run, unless all results were taken.
fn stop_rest(stop: &StopWord, stopper: &mut Stopper, end: &Result<More, OutOfMemory>)
    requires { IsStopperOf stop.now stopper.old }
    ensures stopper { IsStopperOf stop.now stopper.new }
    ensures stopped { end.now ≢ Ok Yes → has_stopped stopper.new ≡ true }
    ensures going { end.now ≡ Ok Yes → has_stopped stopper.new ≡ has_stopped stopper.old }
{
    match end {
        Ok(More::Yes) => {}
        Ok(More::Enough) => stop.stop(stopper),
        Err(_) => stop.stop(stopper),
    }
}

// Starts racer and workers, takes, and joins them. Once the taker is done, those that still run are stopped.
fn in_scope<
    's,
    E,
    R: Threads + Wait + Sync,
    Q: Racer + Drop + Send + 's,
    G: Gate + Sync,
    T: Taker + Drop,
>(
    scope: &Scope<'s, E>,
    rt: &'s R,
    alloc: Global,
    board: &'s EpochBoard,
    bells: &'s Bells,
    stop: &'s StopWord,
    supply: &'s Supply,
    plan: &'s Plan,
    gate: &'s G,
    racing: RacingOf<Q>,
    ready: RoundParts,
    taker: T,
) -> Finished<Q, T>
    requires countable { racing.start.steps + plan.now.left < 2 ^ 63 }
    requires same { racing.opened ≡ racing.start }
    requires room { plan.now.jobs ≤ board.now.limit }
    requires publisher { IsPublisherOf board.now racing.publisher }
    requires nothing { published racing.publisher ≡ [] }
    requires watcher { IsWatcherOf stop.now racing.watcher }
    requires ready { AreRoundParts board.now stop.now ready }
    requires taker { T.ready taker × (T.taken taker ≡ 0) }
    ensures { HasFinished Q.tells T.takes board.now racing.racer racing.start supply.now plan.now taker result.taken.taker result.taken.collector result.taken.end result.raced result.workers.items }
{
    let was = Snapshot::of(&racing);
    let RoundParts {
        tray,
        mut stopper,
        passes,
        started,
        workers,
    } = ready;
    let racer = start_racer(scope, rt, alloc, board, bells, stop, supply, plan, racing);
    let started = start_all(
        scope, rt, alloc, board, bells, stop, supply, gate, passes, started,
    );
    let taken = take_all(rt, alloc, board, bells, supply, taker, tray);
    stop_rest(stop, &mut stopper, &taken.end);
    let workers = join_all(rt, board, supply, started, workers);
    let Raced { end, watcher } = join_racer(rt, board, stop, supply, plan, &was, racer);
    stop.settle(&mut stopper, watcher);
    Finished {
        taken,
        raced: end,
        workers,
    }
}

/// Runs racer, workers and taker at once.
pub(crate) fn run_round<
    R: Threads + Wait + Sync,
    Q: Racer + Drop + Send,
    G: Gate + Sync,
    T: Taker + Drop,
>(
    rt: &R,
    alloc: Global,
    board: &EpochBoard,
    bells: &Bells,
    stop: &StopWord,
    supply: &Supply,
    plan: &Plan,
    gate: &G,
    racing: RacingOf<Q>,
    ready: RoundParts,
    taker: T,
) -> Finished<Q, T>
    requires countable { racing.start.steps + plan.now.left < 2 ^ 63 }
    requires same { racing.opened ≡ racing.start }
    requires room { plan.now.jobs ≤ board.now.limit }
    requires publisher { IsPublisherOf board.now racing.publisher }
    requires nothing { published racing.publisher ≡ [] }
    requires watcher { IsWatcherOf stop.now racing.watcher }
    requires ready { AreRoundParts board.now stop.now ready }
    requires taker { T.ready taker × (T.taken taker ≡ 0) }
    ensures { HasFinished Q.tells T.takes board.now racing.racer racing.start supply.now plan.now taker result.taken.taker result.taken.collector result.taken.end result.raced result.workers.items }
{
    thread::scope(
        thread::scope_env(),
        rt,
        move |scope| -> Finished<Q, T>
            requires countable { racing.start.steps + plan.now.left < 2 ^ 63 }
            requires same { racing.opened ≡ racing.start }
            requires room { plan.now.jobs ≤ board.now.limit }
            requires publisher { IsPublisherOf board.now racing.publisher }
            requires nothing { published racing.publisher ≡ [] }
            requires watcher { IsWatcherOf stop.now racing.watcher }
            requires ready { AreRoundParts board.now stop.now ready }
            requires taker { T.ready taker × (T.taken taker ≡ 0) }
            ensures { HasFinished Q.tells T.takes board.entry.now racing.racer racing.start supply.entry.now plan.entry.now taker result.taken.taker result.taken.collector result.taken.end result.raced result.workers.items }
        {
            in_scope(
                scope, rt, alloc, board, bells, stop, supply, plan, gate, racing, ready, taker,
            )
        },
    )
}
