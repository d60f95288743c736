// A racing run, and what it offers.
use dp_base::limits::{MAX_EPOCH_STEPS, MAX_JOBS};
use dp_base::{Slice, Tid};
use epoch_runner::{Bounds, Ran, run_epoch};
use guest_kernel::{SliceRun, State, start_from_file};
use racing_runner::{Offer, Plan, Racer, offers_of};
use state_compare::equal;
use std::alloc::Global;
use std::test::Fail;
use std::thread::Threads;
use supply::{MAX_ROOM, Supply};
use sync_hints::Hints;
use test_files::file_of;
use test_worlds::{Failing, inlet_of};
use thread_racer::ThreadRacer;

// The steps of a slice in every plan.
const SLICE: u32 = 1000;

// A case: thread 1 runs alone for some steps. Then a racer with this many workers goes on from there.
#[derive(Clone, Copy)]
pub(crate) struct Case {
    pub(crate) alone: u32,
    pub(crate) workers: u32,
    pub(crate) epoch: u32,
    pub(crate) jobs: u32,
    pub(crate) left: u64,
}

impl Case {
    // With two workers, and many steps left.
    pub(crate) fn of_two(alone: u32, epoch: u32, jobs: u32) -> Case {
        Case {
            alone,
            workers: 2,
            epoch,
            jobs,
            left: 1_000_000,
        }
    }
}

// The plan of a case, moved into the bounds of a plan.
pub(crate) fn plan_of(case: Case) -> Plan {
    Plan {
        epoch: case.epoch.min(MAX_EPOCH_STEPS).max(1),
        slice: SLICE,
        jobs: case.jobs.min(MAX_JOBS).max(1),
        left: case.left.min(1_000_000),
        first: 1,
    }
}

// An input that has no bytes yet, and the stamp 7.
pub(crate) fn no_input(alloc: Global) -> Result<Supply, Fail> {
    let mut supply = Supply::new(alloc, MAX_ROOM)?;
    supply.set_stamp(7);
    Ok(supply)
}

// The window after a refill from an input of these bytes, and the stamp 7.
pub(crate) fn supply_of(alloc: Global, bytes: &[u8]) -> Result<Supply, Fail> {
    let mut inlet = inlet_of(alloc, &[bytes], &[], Failing::Never)?;
    let mut supply = Supply::new(alloc, MAX_ROOM)?;
    let _ = supply.refill(&mut inlet);
    supply.set_stamp(7);
    Ok(supply)
}

// Lets a thread take steps, as a slice.
pub(crate) fn run(alloc: Global, state: &mut State, thread: u16, steps: u32) -> Result<(), Fail> {
    if state.steps > 1_000_000 || state.input > 1_000_000 {
        return Err("few steps".into());
    }
    let mut out = Vec::new(alloc);
    match state.run_slices(
        alloc,
        &[Slice {
            tid: Tid(thread),
            steps,
        }],
        &[],
        &mut out,
    )? {
        SliceRun::Whole => Ok(()),
        SliceRun::Stops { .. } => Err("a slice that stops".into()),
    }
}

// The state of a guest of these words after thread 1 has taken some steps alone.
pub(crate) fn start(alloc: Global, words: &[u32], alone: u32) -> Result<State, Fail> {
    let mut state = start_from_file(alloc, &file_of(alloc, words)?)?;
    if alone > 0 {
        run(alloc, &mut state, 1, alone)?;
    }
    Ok(state)
}

// What a racer offers from a state.
pub(crate) fn offers_by<R: Threads + Sync, Q: Racer>(
    rt: &R,
    alloc: Global,
    racer: &mut Q,
    start: &State,
    supply: &Supply,
    case: Case,
) -> Result<Vec<Offer>, Fail> {
    let plan = plan_of(case);
    if start.steps > 1_000_000 || plan.left > 1_000_000 {
        return Err("few steps".into());
    }
    Ok(offers_of(rt, alloc, racer, start, supply, &plan)?)
}

// What a new racer on several processors offers from a state.
pub(crate) fn offers_from<R: Threads + Sync>(
    rt: &R,
    alloc: Global,
    start: &State,
    supply: &Supply,
    case: Case,
) -> Result<Vec<Offer>, Fail> {
    let mut racer = ThreadRacer::new(case.workers.min(64).max(1));
    offers_by(rt, alloc, &mut racer, start, supply, case)
}

// The state at the end of an epoch by these hints.
pub(crate) fn end_of(
    alloc: Global,
    before: State,
    hints: &Hints,
    supply: &Supply,
    case: Case,
) -> Result<State, Fail> {
    if before.steps > 1_000_000 {
        return Err("few steps".into());
    }
    let plan = plan_of(case);
    let bounds = Bounds {
        steps: plan.epoch,
        slice: plan.slice,
        first: plan.first,
    };
    match run_epoch(alloc, before, hints, supply, bounds)? {
        Ran::Epoch(run) => Ok(run.end),
        Ran::Idle(state) => Ok(state),
    }
}

// What is offered in a case: how many states, how many of them have just an epoch's steps more than the one before, and
// how many are reached from the one before by the hints.
pub(crate) fn followed<R: Threads + Sync>(
    rt: &R,
    alloc: Global,
    words: &[u32],
    case: Case,
) -> Result<(u32, u32, u32), Fail> {
    let supply = no_input(alloc)?;
    let mut before = start(alloc, words, case.alone)?;
    let offers = offers_from(rt, alloc, &before, &supply, case)?;
    let (mut count, mut whole, mut same) = (0u32, 0u32, 0u32);
    for offer in offers {
        count = count.saturating_add(1);
        if offer.next.steps == before.steps.saturating_add(u64::from(case.epoch)) {
            whole = whole.saturating_add(1);
        }
        let end = end_of(alloc, before, &offer.hints, &supply, case)?;
        if equal(&end, &offer.next) {
            same = same.saturating_add(1);
        }
        before = offer.next;
    }
    Ok((count, whole, same))
}

// How many states are offered in a case.
pub(crate) fn count_of<R: Threads + Sync>(
    rt: &R,
    alloc: Global,
    words: &[u32],
    case: Case,
) -> Result<usize, Fail> {
    let supply = no_input(alloc)?;
    let start = start(alloc, words, case.alone)?;
    Ok(offers_from(rt, alloc, &start, &supply, case)?.len())
}
