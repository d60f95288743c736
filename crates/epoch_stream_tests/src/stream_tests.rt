// Rounds of a guest that writes `hi` and a newline in the sixth of its nine steps.
ghost use Rattle.std.specs.Prelude.{◌≡◌, ◌≤◌, ◌<◌, ◌+◌, ◌^◌};
ghost use Rattle.dp_base.specs.declared.limits.TheConstants.{MAX_WORKERS};

use crate::counting::Counting;
use crate::holding::Holding;
use crate::nonsense::Nonsense;
use disk_model::{Gate, OpenGate};
use epoch_stream::stream;
use guest_kernel::start_from_file;
use racing_runner::{ChaosRacer, IdleRacer, Plan, Racer};
use std::alloc::Global;
use std::sync::Wait;
use std::sync::atomic::AtomicU32;
use std::test::Fail;
use std::thread::Threads;
use supply::Supply;
use test_files::WRITES;

// Epochs of two steps.
fn plan_of(jobs: u32) -> Plan
    ensures { result.left ≡ 1000000 }
{
    Plan {
        epoch: 2,
        slice: 1000,
        jobs: jobs.max(1).min(64),
        left: 1_000_000,
        first: 1,
    }
}

// What a round left, unless there was no memory to begin it: whether it went well, how many results were taken, how
// many of them were idle, the steps at which they ended, and how much they wrote.
type Left = (bool, u32, u32, u64, u64);

fn streamed<R: Threads + Wait + Sync, Q: Racer + Drop + Send, G: Gate + Sync>(
    rt: &R,
    alloc: Global,
    racer: Q,
    jobs: u32,
    workers: u32,
    gate: &G,
    taker: Counting<'_>,
) -> Option<Left>
    requires workers { (0 < workers) × (workers ≤ MAX_WORKERS) }
    requires taker { taker.taken ≡ 0 }
{
    let Ok(start) = start_from_file(alloc, &WRITES) else {
        return None;
    };
    let Ok(supply) = Supply::new(alloc, 1) else {
        return None;
    };
    if start.steps > 1000 {
        return None;
    }
    let (taker, _, answer) = stream(
        rt,
        alloc,
        start,
        racer,
        &supply,
        &plan_of(jobs),
        workers,
        gate,
        taker,
    );
    Some((
        answer.is_ok(),
        taker.taken,
        taker.idle,
        taker.steps,
        taker.written,
    ))
}

// The whole round: epochs of 2, 2, 2, 2 and 1 steps, of which the third writes three bytes.
const ALL: Left = (true, 5, 0, 204_060_809, 300);

// Result 1 is taken while job 2 is held.
#[test]
fn a_result_is_taken_while_a_later_job_is_held(rt: HostRuntime) -> Result<(), Fail> {
    let alloc = rt.alloc();
    let seen = AtomicU32::new(0);
    let gate = Holding::new(&seen);
    let taker = Counting::new(&seen, 100);
    let left = streamed(&rt, alloc, ChaosRacer::new(0), 16, 2, &gate, taker);
    assert_eq!(rt; left, Some(ALL));
    assert_eq!(rt; gate.ran_out(), false);
    Ok(())
}

#[test]
fn any_number_of_workers_gives_the_same_results(rt: HostRuntime) -> Result<(), Fail> {
    let alloc = rt.alloc();
    let seen = AtomicU32::new(0);
    for workers in [1u32, 2, 8, 64] {
        for jobs in [5u32, 16, 64] {
            let taker = Counting::new(&seen, 100);
            let left = streamed(
                &rt,
                alloc,
                ChaosRacer::new(0),
                jobs,
                workers,
                &OpenGate,
                taker,
            );
            assert_eq!(rt; left, Some(ALL));
        }
    }
    Ok(())
}

// The round has fewer jobs than there are offers, or a racer that offers nothing.
#[test]
fn a_round_ends_with_its_last_job(rt: HostRuntime) -> Result<(), Fail> {
    let alloc = rt.alloc();
    let seen = AtomicU32::new(0);
    for (jobs, steps) in [(1u32, 2u64), (2, 204), (3, 20406)] {
        let taker = Counting::new(&seen, 100);
        let left = streamed(&rt, alloc, ChaosRacer::new(0), jobs, 2, &OpenGate, taker);
        assert_eq!(rt;
            left.map(|left| (left.0, left.1, left.3)),
            Some((true, jobs, steps))
        );
    }
    let taker = Counting::new(&seen, 100);
    let left = streamed(&rt, alloc, IdleRacer, 16, 2, &OpenGate, taker);
    assert_eq!(rt; left, Some((true, 1, 0, 2, 0)));
    Ok(())
}

// The taker has enough after each of the results.
#[test]
fn a_taker_stops_at_each_result(rt: HostRuntime) -> Result<(), Fail> {
    let alloc = rt.alloc();
    let seen = AtomicU32::new(0);
    for workers in [1u32, 2, 64] {
        for (most, steps) in [
            (1u32, 2u64),
            (2, 204),
            (3, 20_406),
            (4, 2_040_608),
            (5, 204_060_809),
        ] {
            let taker = Counting::new(&seen, most);
            let left = streamed(
                &rt,
                alloc,
                ChaosRacer::new(0),
                16,
                workers,
                &OpenGate,
                taker,
            );
            assert_eq!(rt;
                left.map(|left| (left.0, left.1, left.3)),
                Some((true, most, steps))
            );
        }
    }
    Ok(())
}

// Of nonsense each result is one of its job, up to the plan's jobs. Job 1 is an epoch; jobs 2, 3, 5, 6 and so on can't
// take a step.
#[test]
fn nonsense_is_run_and_handed_over(rt: HostRuntime) -> Result<(), Fail> {
    let alloc = rt.alloc();
    let seen = AtomicU32::new(0);
    for workers in [1u32, 2, 8, 64] {
        for (count, jobs, taken, idle) in [
            (0u32, 16u32, 1u32, 0u32),
            (2, 16, 3, 2),
            (100, 16, 16, 10),
            (100, 64, 64, 42),
        ] {
            let taker = Counting::new(&seen, 100);
            let racer = Nonsense { count };
            let left = streamed(&rt, alloc, racer, jobs, workers, &OpenGate, taker);
            assert_eq!(rt;
                left.map(|left| (left.0, left.1, left.2)),
                Some((true, taken, idle))
            );
        }
    }
    Ok(())
}

// Whether these are the first results of the round.
fn are_first(left: Left) -> bool {
    match left.1 {
        0 => left.3 == 0,
        1 => left.3 == 2,
        2 => left.3 == 204,
        3 => left.3 == 20_406,
        4 => left.3 == 2_040_608,
        _ => left.3 == 204_060_809,
    }
}

// Whichever allocation fails, the round says so, and what was taken is the first of the results. This test is run with
// each allocation failing in turn.
#[test]
fn a_round_out_of_memory_leaves_its_first_results(rt: HostRuntime) -> Result<(), Fail> {
    let alloc = rt.alloc();
    let seen = AtomicU32::new(0);
    let taker = Counting::new(&seen, 100);
    let left = streamed(&rt, alloc, ChaosRacer::new(0), 16, 2, &OpenGate, taker);
    if let Some(left) = left {
        assert!(rt; left == ALL || !left.0 && are_first(left));
    }
    Ok(())
}
