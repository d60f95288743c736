// What the threads of a round promise.
use crate::deposit::EpochBoard;
use crate::racer_part::{RacedOf, RacingOf};
use crate::worker_part::Pass;
use racing_runner::{Plan, Racer};
use std::snapshot::Snapshot;
use std::thread::{Promise, PromisedHandle};
use stop_word::StopWord;
use supply::Supply;

mod racer_start;
mod worker_starts;

pub(crate) use racer_start::{join_racer, start_racer};
pub(crate) use worker_starts::{join_all, start_all};

/// What the racer's thread promises: the jobs on the board are made of its offers.
#[derive(Drop)]
pub(crate) struct RacerPromise<Q: Drop> {
    pub racing: Snapshot<RacingOf<Q>>,
    pub board: Snapshot<EpochBoard>,
    pub stop: Snapshot<StopWord>,
    pub supply: Snapshot<Supply>,
    pub plan: Snapshot<Plan>,
}

impl<Q: Racer + Drop> Promise<RacedOf<Q>> for RacerPromise<Q> {
    ghost use Rattle.epoch_stream.specs.Racers.{HasReturned};

    ghost kept_by = { λ p r. HasReturned Q.tells p.board.value p.stop.value p.racing.value p.supply.value p.plan.value r };
}

/// What a worker's thread promises: it has deposited for each job that it claimed.
#[derive(Drop)]
pub(crate) struct WorkerPromise {
    pub board: Snapshot<EpochBoard>,
    pub supply: Snapshot<Supply>,
    pub number: u32,
}

impl Promise<Pass> for WorkerPromise {
    ghost use Rattle.epoch_stream.specs.Rounds.{IsReturned};

    ghost kept_by = { λ p r. IsReturned p.board.value p.supply.value p.number r.worker };
}

/// A worker that was started, or that ran here because no thread could be made.
#[derive(Drop)]
pub(crate) enum Started {
    There(PromisedHandle<Pass, WorkerPromise>),
    Here(Pass),
}

/// The racer, started, or run here.
#[derive(Drop)]
pub(crate) enum Racers<Q: Racer + Drop> {
    There(PromisedHandle<RacedOf<Q>, RacerPromise<Q>>),
    Here(RacedOf<Q>),
}
