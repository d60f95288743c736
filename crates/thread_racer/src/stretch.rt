// A stretch: passes while they pay, and then the threads one after another.
ghost use Rattle.std.specs.Prelude.{◌<◌};

use crate::kept_words::{KeptWords, blocks_of};
use crate::pace::{Pace, cost_of_pass};
use crate::pass::race_pass;
use crate::round_robin::{run_to_end, use_quotas};
use crate::stopped_turns::take_turns;
use crate::stretch_course::Course;
use crate::thread_run::{
    Share, ThreadRun, add_threads, grant, logs_of, ready_count, running_count,
};
use disk_model::Gate;
use dp_base::OutOfMemory;
use guest_kernel::State;
use std::alloc::Global;
use std::thread::Threads;
use supply::Supply;
use sync_hints::{Hints, merge};

// How many passes a stretch has at most.
const MAX_PASSES: u32 = 64;

// What racing came to in a stretch: the passes, their steps, and how many steps they cost.
#[derive(Clone, Copy)]
struct Raced {
    passes: u32,
    steps: u64,
    cost: u64,
}

// Runs a guest's threads for this many steps. Returns hints of what they did, or `None` if no epoch ends there: the
// guest has ended, or none of its threads can go on.
pub(crate) fn race_stretch<R: Threads + Sync, G: Gate + Sync>(
    rt: &R,
    alloc: Global,
    gate: &G,
    workers: u32,
    pace: &mut Pace,
    kept: &mut Option<KeptWords>,
    state: &mut State,
    supply: &Supply,
    steps: u32,
) -> Result<Option<Hints>, OutOfMemory>
    requires { 0 < workers }
{
    let mut course = Course::new(alloc, state, steps);
    let mut threads = Vec::new(alloc);
    add_threads(alloc, state, &mut threads)?;
    let running = running_count(state);
    if workers > 1
        && running > 1
        && running <= steps
        && pace.races(
            u64::from(steps),
            cost_of_pass(state.pages.pages(), blocks_of(kept)),
        )
    {
        let raced = race(
            rt,
            alloc,
            gate,
            workers,
            state,
            supply,
            &mut threads,
            &mut course,
            kept,
        )?;
        pace.raced(raced.steps >= raced.cost);
    }
    run_to_end(alloc, state, supply, &mut threads, &mut course)?;
    if state.ended() || !course.is_whole(state) {
        return Ok(None);
    }
    let logs = logs_of(alloc, threads)?;
    let hints = merge(alloc, &logs)?;
    Ok(Some(hints))
}

// Runs passes while they pay.
fn race<R: Threads + Sync, G: Gate + Sync>(
    rt: &R,
    alloc: Global,
    gate: &G,
    workers: u32,
    state: &mut State,
    supply: &Supply,
    threads: &mut Vec<ThreadRun>,
    course: &mut Course,
    kept: &mut Option<KeptWords>,
) -> Result<Raced, OutOfMemory>
    requires { 0 < workers }
{
    let mut raced = Raced {
        passes: 0,
        steps: 0,
        cost: 0,
    };
    for _ in 0..MAX_PASSES {
        if !can_race(alloc, state, supply, threads, course)? {
            return Ok(raced);
        }
        let cost = cost_of_pass(state.pages.pages(), blocks_of(kept));
        if raced.passes > 0 && course.left(state) < cost {
            return Ok(raced);
        }
        let before = state.steps;
        race_pass(rt, alloc, gate, workers, state, threads, course, kept)?;
        take_turns(alloc, state, supply, threads, course)?;
        let steps = state.steps.saturating_sub(before);
        raced = Raced {
            passes: raced.passes.saturating_add(1),
            steps: raced.steps.saturating_add(steps),
            cost: raced.cost.saturating_add(cost),
        };
        if steps < cost {
            return Ok(raced);
        }
    }
    Ok(raced)
}

// Sees to it that at least two threads can go on, if they can. Threads whose quotas are used get new ones once all
// others are used too.
fn can_race(
    alloc: Global,
    state: &mut State,
    supply: &Supply,
    threads: &mut Vec<ThreadRun>,
    course: &mut Course,
) -> Result<bool, OutOfMemory> {
    if course.left(state) == 0 {
        return Ok(false);
    }
    if ready_count(state, threads) > 1 {
        return Ok(true);
    }
    use_quotas(alloc, state, supply, threads, course)?;
    add_threads(alloc, state, threads)?;
    let left = course.left(state);
    if left < u64::from(running_count(state)) {
        return Ok(false);
    }
    Ok(grant(state, threads, left, Share::Running) && ready_count(state, threads) > 1)
}
