// Jobs of a guest that counts in a loop, with other bounds, hints and starts each.
use disk_mem::HoldGate;
use disk_model::OpenGate;
use dp_base::{Log, OutOfMemory, Tid};
use epoch_pool::{Job, run_all};
use epoch_runner::{Bounds, Ran};
use guest_kernel::{State, start_from_file};
use std::alloc::Global;
use std::test::Fail;
use supply::Supply;
use sync_hints::Hints;
use test_files::file_of;

// addi x10, x10, 1, and a jump back to it, over and over
const COUNTS: [u32; 2] = [0x0015_0513, 0xffdf_f06f];

// A start of the guest, or its state after a number of steps.
fn start(alloc: Global) -> Result<State, Fail> {
    Ok(start_from_file(alloc, &file_of(alloc, &COUNTS)?)?)
}

// Hints by which thread 1 takes this many steps, or none.
fn hints_of(alloc: Global, steps: u32) -> Result<Hints, OutOfMemory> {
    let mut counts = Log::new(alloc);
    counts.put((Tid(1), steps))?;
    Ok(Hints {
        counts,
        order: Log::new(alloc),
    })
}

// Jobs of 100, 101 and so on steps. Each third one has hints of 7, 8 and so on steps, each fifth one no step to take.
fn jobs_of(alloc: Global, count: u32) -> Result<Vec<Job>, Fail> {
    let mut jobs = Vec::new(alloc);
    for index in 0..count.min(64) {
        let start = start(alloc)?;
        if start.steps > 1000 {
            return Err("a start".into());
        }
        jobs.push(Job {
            index: index + 1,
            start,
            hints: hints_of(alloc, if index % 3 == 2 { 5 + index } else { 0 })?,
            bounds: Bounds {
                steps: if index % 5 == 4 { 0 } else { 100 + index },
                slice: 1000,
                first: 1,
            },
        })?;
    }
    Ok(jobs)
}

// How many steps a result has, or 0 if it is idle.
fn steps_of(ran: &Ran) -> u64 {
    match ran {
        Ran::Epoch(run) => run.end.steps,
        Ran::Idle(_) => 0,
    }
}

// The place of the first result that isn't its job's, or how many there are.
fn first_other(results: &[Ran]) -> usize {
    for index in 0..results.len() {
        let expected = match (index % 5, index % 3) {
            (4, _) => 0,
            (_, 2) => 5 + index,
            _ => 100 + index,
        };
        if steps_of(&results[index]) != expected as u64 {
            return index;
        }
    }
    results.len()
}

// Any number of workers gives the same results, also more workers than jobs, and no jobs.
#[test]
fn results_are_in_the_order_of_jobs(rt: HostRuntime) -> Result<(), Fail> {
    let alloc = rt.alloc();
    let supply = Supply::new(alloc, 1)?;
    for workers in [1u32, 2, 3, 64] {
        for count in [0u32, 1, 2, 5, 16, 64] {
            let jobs = jobs_of(alloc, count)?;
            let results = run_all(&rt, alloc, jobs, &supply, workers, &OpenGate)?;
            assert_eq!(rt;
                (results.len(), first_other(&results)),
                (count as usize, count as usize)
            );
        }
    }
    Ok(())
}

// With two workers job 2 passes the gate while job 1 is held. With one it can't.
#[test]
fn jobs_run_side_by_side(rt: HostRuntime) -> Result<(), Fail> {
    let alloc = rt.alloc();
    let supply = Supply::new(alloc, 1)?;
    for (workers, runs_out) in [(2u32, false), (1, true)] {
        let jobs = jobs_of(alloc, 5)?;
        let gate = HoldGate::new();
        let results = run_all(&rt, alloc, jobs, &supply, workers, &gate)?;
        assert_eq!(rt; first_other(&results), 5usize);
        assert_eq!(rt; gate.ran_out(), runs_out);
    }
    Ok(())
}
