// How a round's racer is started and joined.
ghost use Rattle.std.specs.Prelude.{◌≡◌, ◌≤◌, ◌<◌, ◌+◌, ◌^◌, []};
ghost use Rattle.job_board.specs.Passes.{IsPublisherOf, published};
ghost use Rattle.stop_word.specs.Seats.{IsWatcherOf};
ghost use Rattle.epoch_stream.specs.Racers.{HasReturned, IsRacing};

use super::{RacerPromise, Racers};
use crate::bell::Bells;
use crate::deposit::EpochBoard;
use crate::racer_part::{RacedOf, RacingOf, run_racer};
use racing_runner::{Plan, Racer};
use std::alloc::Global;
use std::snapshot::Snapshot;
use std::sync::Wait;
use std::thread::{Scope, Threads};
use stop_word::StopWord;
use supply::Supply;

/// Starts the racer, or runs it here if no thread can be made.
pub(crate) fn start_racer<'s, E, R: Threads + Wait + Sync, Q: Racer + Drop + Send + 's>(
    scope: &Scope<'s, E>,
    rt: &'s R,
    alloc: Global,
    board: &'s EpochBoard,
    bells: &'s Bells,
    stop: &'s StopWord,
    supply: &'s Supply,
    plan: &'s Plan,
    racing: RacingOf<Q>,
) -> Racers<Q>
    requires countable { racing.start.steps + plan.now.left < 2 ^ 63 }
    requires same { racing.opened ≡ racing.start }
    requires room { plan.now.jobs ≤ board.now.limit }
    requires publisher { IsPublisherOf board.now racing.publisher }
    requires nothing { published racing.publisher ≡ [] }
    requires watcher { IsWatcherOf stop.now racing.watcher }
    ensures { IsRacing Q.tells board.now stop.now racing supply.now plan.now result }
{
    let promise = RacerPromise {
        racing: Snapshot::of(&racing),
        board: Snapshot::of(board),
        stop: Snapshot::of(stop),
        supply: Snapshot::of(supply),
        plan: Snapshot::of(plan),
    };
    match scope.spawn_with(
        promise,
        move || -> RacedOf<Q>
            requires countable { racing.start.steps + plan.now.left < 2 ^ 63 }
            requires same { racing.opened ≡ racing.start }
            requires room { plan.now.jobs ≤ board.now.limit }
            requires publisher { IsPublisherOf board.now racing.publisher }
            requires nothing { published racing.publisher ≡ [] }
            requires watcher { IsWatcherOf stop.now racing.watcher }
            ensures { HasReturned Q.tells board.entry.now stop.entry.now racing supply.entry.now plan.entry.now result }
        { run_racer(rt, alloc, board, bells, stop, supply, plan, racing) },
    ) {
        Ok(handle) => Racers::There(handle),
        Err(refused) => Racers::Here((refused.value)()),
    }
}

/// Returns what the racer leaves, once it has returned.
pub(crate) fn join_racer<R: Threads, Q: Racer + Drop>(
    rt: &R,
    board: &EpochBoard,
    stop: &StopWord,
    supply: &Supply,
    plan: &Plan,
    was: &Snapshot<RacingOf<Q>>,
    racer: Racers<Q>,
) -> RacedOf<Q>
    requires { IsRacing Q.tells board.now stop.now was.now.value supply.now plan.now racer }
    ensures { HasReturned Q.tells board.now stop.now was.now.value supply.now plan.now result }
{
    match racer {
        Racers::There(handle) => handle.join(rt),
        Racers::Here(raced) => raced,
    }
}
