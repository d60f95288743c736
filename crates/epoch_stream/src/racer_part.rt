// What the racer does.
ghost use Rattle.std.specs.Prelude.{◌≡◌, ◌≤◌, ◌<◌, ◌+◌, ◌^◌, []};
ghost use Rattle.job_board.specs.Passes.{IsPublisherOf, IsReceiptOf, published, was_published};
ghost use Rattle.stop_word.specs.Seats.{IsWatcherOf};
ghost use Rattle.epoch_stream.specs.Offers.{HasClosed, IsOpen, bounds_for, whole_of};
ghost use Rattle.epoch_stream.specs.Racers.{HasReturned};

use crate::bell::Bells;
use crate::deposit::{Deposit, EpochBoard};
use dp_base::OutOfMemory;
use epoch_pool::Job;
use epoch_runner::Bounds;
use guest_kernel::State;
use job_board::{Publisher, Receipt};
use racing_runner::{JobSink, More, Plan, Racer};
use std::alloc::Global;
use std::mem;
use std::sync::Wait;
use std::thread::Threads;
use stop_word::{StopWord, Watcher};
use supply::Supply;
use sync_hints::Hints;

/// Takes offers. Each ends the job that is open, which is then published, and opens the next one.
#[derive(Drop)]
pub(crate) struct Desk<'b, R: Wait> {
    rt: &'b R,
    board: &'b EpochBoard,
    bells: &'b Bells,
    stop: &'b StopWord,
    publisher: Publisher<Job, Deposit>,
    watcher: Watcher,
    // The open job: its number, the thread that is tried first, and where it starts.
    index: u32,
    first: u16,
    start: State,
    plan: Plan,
    // No state may have more steps than this.
    limit: u64,
    // Whether the stop was seen.
    stopped: bool,
}

impl<'b, R: Wait> JobSink for Desk<'b, R> {
    ghost use Rattle.std.specs.Prelude.{◌≡◌};
    ghost use Rattle.std.proofs.Common.{refl, ◌∙◌};
    ghost use Rattle.job_board.specs.Passes.{published};
    ghost use Rattle.epoch_stream.specs.Offers.{HasEnough, IsOpen, offers_of, opening};

    ghost got = { λ d. offers_of (published d.publisher) d.start };

    ghost enough = { λ d. HasEnough d.plan d.index d.stopped };

    ghost ready = { λ d. IsOpen d.board.now d.stop.now d.publisher d.watcher d.index d.first d.plan d.limit d.stopped };

    ghost goes = { λ d e. (e.board ≡ d.board) × (e.stop ≡ d.stop) × (e.plan ≡ d.plan) × (e.limit ≡ d.limit) × (opening (published e.publisher) e.start ≡ opening (published d.publisher) d.start) };

    fn offer(&mut self, hints: Hints, next: State) -> More {
        if self.stopped || self.index >= self.plan.jobs {
            return More::Enough;
        }
        let start = mem::replace(&mut self.start, next);
        let job = job_of(&self.plan, self.limit, self.index, self.first, start, hints);
        self.board.publish(self.rt, &mut self.publisher, job);
        self.bells.jobs.ring(self.rt);
        self.index += 1;
        self.first = 1;
        if self.index >= self.plan.jobs {
            return More::Enough;
        }
        if self.stop.is_stopped(&mut self.watcher) {
            self.stopped = true;
            return More::Enough;
        }
        More::Yes
    }

    ghost goes_nowhere = { λ s. (refl, refl, refl, refl, refl) };

    ghost goes_on = { λ a b c p q. (q.0 ∙ p.0, q.1 ∙ p.1, q.2 ∙ p.2, q.3 ∙ p.3, q.4 ∙ p.4) };
}

impl<'b, R: Wait> Desk<'b, R> {
    // Ends the jobs. If the round is whole, the open job is published: it is the last one, and has no hints.
    fn close(self, alloc: Global, is_whole: bool) -> (Receipt<Job, Deposit>, Watcher)
        requires { IsOpen self.board.now self.stop.now self.publisher self.watcher self.index self.first self.plan self.limit self.stopped }
        ensures receipt { IsReceiptOf self.entry.board.now result.0 }
        ensures watcher { result.1 ≡ self.entry.watcher }
        ensures jobs { HasClosed self.entry.plan self.entry.limit self.entry.index self.entry.first self.entry.start (published self.entry.publisher) (was_published result.0) is_whole }
    {
        let Desk {
            rt,
            board,
            mut publisher,
            watcher,
            index,
            first,
            start,
            plan,
            limit,
            ..
        } = self;
        if !is_whole {
            return (board.finish(rt, publisher), watcher);
        }
        let job = job_of(&plan, limit, index, first, start, Hints::none(alloc));
        board.publish(rt, &mut publisher, job);
        (board.finish(rt, publisher), watcher)
    }
}

// Whether the open job of a race is published.
fn is_whole(answer: &Result<(), OutOfMemory>, stopped: bool) -> bool
    ensures { result ≡ whole_of answer.now stopped }
{
    match answer {
        Ok(()) => !stopped,
        Err(_) => false,
    }
}

pub(crate) fn job_of(
    plan: &Plan,
    limit: u64,
    index: u32,
    first: u16,
    start: State,
    hints: Hints,
) -> Job
    ensures start { result.start ≡ start }
    ensures hints { result.hints ≡ hints }
    ensures index { result.index ≡ index }
    ensures bounds { result.bounds ≡ bounds_for plan.now limit first start }
{
    let bounds = bounds_for(plan, limit, first, &start);
    Job {
        index,
        start,
        hints,
        bounds,
    }
}

// How far an epoch that starts here may go, and which thread is tried first.
fn bounds_for(plan: &Plan, limit: u64, first: u16, start: &State) -> Bounds
    ensures { result ≡ bounds_for plan.now limit first start.now }
{
    let left = limit.saturating_sub(start.steps);
    Bounds {
        steps: left.min(u64::from(plan.epoch)) as u32,
        slice: plan.slice,
        first,
    }
}

/// What the racer's thread needs.
#[derive(Drop)]
pub(crate) struct Racing<Q: Drop, P: Drop> {
    pub racer: Q,
    pub publisher: P,
    pub watcher: Watcher,
    /// The state in which the first job starts, twice: the racer's own, and the job's.
    pub start: State,
    pub opened: State,
}

/// What a race leaves.
#[derive(Drop)]
pub(crate) struct RaceEnd<Q: Drop, P: Drop> {
    pub racer: Q,
    pub receipt: P,
    /// Whether the racer saw the stop.
    pub stopped: bool,
    pub answer: Result<(), OutOfMemory>,
}

/// What the racer's thread leaves.
#[derive(Drop)]
pub(crate) struct Raced<Q: Drop, P: Drop> {
    pub end: RaceEnd<Q, P>,
    pub watcher: Watcher,
}

pub(crate) type RacingOf<Q> = Racing<Q, Publisher<Job, Deposit>>;

pub(crate) type RacedOf<Q> = Raced<Q, Receipt<Job, Deposit>>;

pub(crate) type RaceEndOf<Q> = RaceEnd<Q, Receipt<Job, Deposit>>;

/// Races, and publishes each job once an offer ends it. After an `Ok` the open job is the last one, and has no hints.
/// It is published unless the racer saw the stop: its hints would not be those of an offer then, and no worker would
/// run it.
pub(crate) fn run_racer<R: Threads + Wait + Sync, Q: Racer + Drop>(
    rt: &R,
    alloc: Global,
    board: &EpochBoard,
    bells: &Bells,
    stop: &StopWord,
    supply: &Supply,
    plan: &Plan,
    racing: RacingOf<Q>,
) -> RacedOf<Q>
    requires countable { racing.start.steps + plan.now.left < 2 ^ 63 }
    requires same { racing.opened ≡ racing.start }
    requires room { plan.now.jobs ≤ board.now.limit }
    requires publisher { IsPublisherOf board.now racing.publisher }
    requires nothing { published racing.publisher ≡ [] }
    requires watcher { IsWatcherOf stop.now racing.watcher }
    ensures { HasReturned Q.tells board.now stop.now racing supply.now plan.now result }
{
    let limit = racing.start.steps + plan.left;
    let Racing {
        mut racer,
        publisher,
        watcher,
        start,
        opened,
    } = racing;
    let mut desk = Desk {
        rt,
        board,
        bells,
        stop,
        publisher,
        watcher,
        index: 1,
        first: plan.first,
        start: opened,
        plan: *plan,
        limit,
        stopped: false,
    };
    let answer = racer.race(rt, alloc, &start, supply, plan, &mut desk);
    let stopped = desk.stopped;
    let (receipt, watcher) = desk.close(alloc, is_whole(&answer, stopped));
    bells.jobs.ring(rt);
    bells.results.ring(rt);
    Raced {
        end: RaceEnd {
            racer,
            receipt,
            stopped,
            answer,
        },
        watcher,
    }
}
