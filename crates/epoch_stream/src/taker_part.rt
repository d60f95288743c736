// What the taker's part does, on the caller's own thread.
ghost use Rattle.std.specs.Prelude.{◌≡◌, ◌⊎◌, ◌<◌, ◌≤◌, ℕ, suc, List, None, Some, IfOk, IfSome, IsNone, OnOk, Ok, length, slice_get};
ghost use Rattle.dp_base.specs.declared.limits.TheConstants.{MAX_JOBS};
ghost use Rattle.job_board.specs.Passes.{IsCollectorOf, collected, counts};
ghost use Rattle.epoch_stream.specs.Deposits.{AreOf, In, IsResultIn};
ghost use Rattle.epoch_stream.specs.Takes.{AreWaiting, IsAfterAll, IsCount, Longer, Took};
ghost use Rattle.epoch_runner.specs.declared.epoch_run.Ran.{Ran};
ghost use Rattle.racing_runner.specs.declared.offer.More.TheVariants.{Yes};

use crate::bell::Bells;
use crate::deposit::{Deposit, EpochBoard};
use crate::taker::Taker;
use dp_base::OutOfMemory;
use epoch_pool::Job;
use epoch_runner::{Ran, run_epoch};
use job_board::{Collected, Collector};
use racing_runner::More;
use std::alloc::Global;
use std::sync::Wait;
use supply::Supply;

/// What the taker's part leaves.
#[derive(Drop)]
pub(crate) struct Taken<T: Drop> {
    pub taker: T,
    pub collector: Collector<Deposit>,
    /// `Yes` if all results were taken.
    pub end: Result<More, OutOfMemory>,
}

// The result of a deposit.
fn result_of(alloc: Global, supply: &Supply, deposit: Deposit) -> Result<Ran, OutOfMemory>
    ensures { IfOk result (IsResultIn supply.now deposit) }
{
    match deposit {
        Deposit::Ran(ran) => Ok(ran),
        Deposit::Skipped(job) => {
            let Job {
                index: _,
                start,
                hints,
                bounds,
            } = job;
            run_epoch(alloc, start, &hints, supply, bounds)
        }
        Deposit::OutOfMemory => Err(OutOfMemory),
    }
}

// Keeps a result until it is its turn.
fn put(waiting: &mut Vec<Option<Deposit>>, index: u32, deposit: Deposit)
    ensures put { (i : ℕ) (d : _) → slice_get waiting.new.items i ≡ Some (Some d) → (slice_get waiting.old.items i ≡ Some (Some d)) ⊎ ((index ≡ suc i) × (d ≡ deposit)) }
    ensures places { length waiting.new.items ≡ length waiting.old.items }
{
    let place = index as usize;
    if place >= 1 && place <= waiting.len() {
        waiting[place - 1] = Some(deposit);
    }
}

// Takes the deposit at this place out.
fn pick(waiting: &mut Vec<Option<Deposit>>, place: usize) -> Option<Deposit>
    ensures found { IfSome result (λ d. slice_get waiting.old.items place ≡ Some (Some d)) }
    ensures within { IfSome result (λ d. place < length waiting.old.items) }
    ensures rest { (i : ℕ) (d : _) → slice_get waiting.new.items i ≡ Some (Some d) → slice_get waiting.old.items i ≡ Some (Some d) }
    ensures places { length waiting.new.items ≡ length waiting.old.items }
{
    if place >= waiting.len() {
        return None;
    }
    waiting[place].take()
}

/// What was collected and waits for its turn.
#[derive(Drop)]
pub(crate) struct Tray {
    pub collector: Collector<Deposit>,
    /// The deposit of each job, by the job's number less one.
    pub waiting: Vec<Option<Deposit>>,
    /// How many jobs there are, once that is known.
    pub count: Option<u32>,
}

// Waits for the deposit whose turn it is. Returns `None` if all have had it.
//
// While nothing is ready, it looks at the board again and again, and yields its processor before each further look.
// After 64 looks it sleeps until a worker rings.
fn wait_for<R: Wait>(
    rt: &R,
    board: &EpochBoard,
    bells: &Bells,
    tray: &mut Tray,
    place: usize,
) -> Option<Deposit>
    requires collector { IsCollectorOf board.now tray.old.collector }
    requires waiting { AreWaiting tray.old.waiting.items (collected tray.old.collector) }
    requires count { IsCount tray.old.count (counts tray.old.collector) }
    ensures collector { IsCollectorOf board.now tray.new.collector }
    ensures waiting { AreWaiting tray.new.waiting.items (collected tray.new.collector) }
    ensures count { IsCount tray.new.count (counts tray.new.collector) }
    ensures longer { Longer (collected tray.old.collector) (collected tray.new.collector) }
    ensures places { length tray.new.waiting.items ≡ length tray.old.waiting.items }
    ensures found { IfSome result (λ d. In (suc place, d) (collected tray.new.collector)) }
    ensures within { IfSome result (λ d. place < length tray.old.waiting.items) }
    ensures all { IsNone result → IsAfterAll place (counts tray.new.collector) }
{
    let mut looks = 0u32;
    'turns: for _ in rt.forever() {
        if let Some(deposit) = pick(&mut tray.waiting, place) {
            return Some(deposit);
        }
        if let Some(n) = tray.count {
            if place >= n as usize {
                return None;
            }
        }
        let rings = bells.results.rings(rt);
        match board.collect(rt, &mut tray.collector) {
            Collected::Result {
                index,
                result: deposit,
            } => put(&mut tray.waiting, index, deposit),
            Collected::Count(n) => tray.count = Some(n),
            Collected::Empty => {
                bells.results.wait(rt, looks, rings);
                looks = looks.saturating_add(1);
            }
        }
    }
    unreachable!()
}

/// Takes the results in the order of the jobs, up to the last one, or until the taker has enough.
pub(crate) fn take_all<R: Wait, T: Taker + Drop>(
    rt: &R,
    alloc: Global,
    board: &EpochBoard,
    bells: &Bells,
    supply: &Supply,
    mut taker: T,
    mut tray: Tray,
) -> Taken<T>
    requires collector { IsCollectorOf board.now tray.collector }
    requires waiting { AreWaiting tray.waiting.items (collected tray.collector) }
    requires count { IsCount tray.count (counts tray.collector) }
    requires few { length tray.waiting.items ≤ MAX_JOBS }
    requires taker { T.ready taker × (T.taken taker ≡ 0) }
    ensures collector { IsCollectorOf board.now result.collector }
    ensures taken { (results : List Ran) × Took T.takes taker results result.taker result.end × AreOf supply.now (collected result.collector) results
        × (result.end ≡ Ok Yes → IsAfterAll (length results) (counts result.collector)) }
{
    let mut next = 0;
    'takes: for _ in rt.forever() {
        let Some(deposit) = wait_for(rt, board, bells, &mut tray, next) else {
            return ended(taker, tray, Ok(More::Yes));
        };
        match result_of(alloc, supply, deposit) {
            Ok(ran) => match taker.take(ran) {
                More::Yes => next += 1,
                More::Enough => return ended(taker, tray, Ok(More::Enough)),
            },
            Err(error) => return ended(taker, tray, Err(error)),
        }
    }
    unreachable!()
}

fn ended<T: Drop>(taker: T, tray: Tray, end: Result<More, OutOfMemory>) -> Taken<T>
    ensures taker { result.taker ≡ taker }
    ensures collector { result.collector ≡ tray.collector }
    ensures end { result.end ≡ end }
{
    Taken {
        taker,
        collector: tray.collector,
        end,
    }
}
