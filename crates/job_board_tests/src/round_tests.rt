// Rounds of 64 jobs by 1, 2, 8 and 64 workers.
ghost use Rattle.std.specs.Prelude.{◌<◌, ◌≤◌, IfOk, length};

use crate::crew::{Closed, run_round};
use crate::working::Task;
use std::alloc::{AllocError, Global};
use std::sync::Wait;
use std::test::Fail;
use std::thread::Threads;

const JOBS: u32 = 64;

// What a worker says of a job that it did.
#[derive(Clone, Copy)]
struct Entry {
    worker: u32,
    done: u32,
    stopped: bool,
    job: u32,
}

struct Writing;

impl Task<u32, Entry> for Writing {
    fn run(&self, worker: u32, done: u32, stopped: bool, job: u32) -> Entry {
        Entry {
            worker,
            done,
            stopped,
            job,
        }
    }
}

// Jobs 1001, 1002 and so on.
fn jobs_of(alloc: Global) -> Result<Vec<u32>, AllocError>
    ensures { IfOk result (λ jobs. length jobs.items ≤ 64) }
{
    let mut jobs = Vec::new(alloc);
    for index in 0..JOBS {
        jobs.push(1001 + index)?;
    }
    Ok(jobs)
}

// What is known of the jobs and of the workers.
#[derive(Drop)]
struct Seen {
    jobs: [bool; 64],
    done: [u32; 64],
    last: [u32; 64],
    stopped: [bool; 64],
}

// Whether a job is done once, by a worker that did others before it in order, and that saw no stop earlier if it sees
// none now.
fn note(seen: &mut Seen, index: u32, entry: &Entry) -> bool {
    let at = index.wrapping_sub(1) as usize;
    let by = entry.worker.wrapping_sub(1) as usize;
    if at >= 64 || by >= 64 || entry.job != index.wrapping_add(1000) {
        return false;
    }
    let first = !seen.jobs[at];
    let next = seen.done[by] == entry.done;
    let later = seen.last[by] < entry.job;
    let still = entry.stopped || !seen.stopped[by];
    seen.jobs[at] = true;
    seen.done[by] = entry.done.wrapping_add(1);
    seen.last[by] = entry.job;
    seen.stopped[by] = entry.stopped;
    first && next && later && still
}

// Whether each job was done once and its result collected once, each worker's in its order, and nothing is left.
fn is_whole(closed: &Closed<u32, Entry>) -> bool {
    let mut seen = Seen {
        jobs: [false; 64],
        done: [0; 64],
        last: [0; 64],
        stopped: [false; 64],
    };
    for (index, entry) in closed.collected.iter() {
        if !note(&mut seen, *index, entry) {
            return false;
        }
    }
    closed.collected.len() == JOBS as usize
        && closed.count == JOBS
        && closed.left.jobs.is_empty()
        && closed.left.results.is_empty()
}

// Whether none of the first results saw a stop.
fn begin_unstopped(closed: &Closed<u32, Entry>, count: usize) -> bool {
    closed
        .collected
        .iter()
        .take(count)
        .all(|(_, entry)| !entry.stopped)
}

// Whether this many rounds are whole, and the first results of each saw no stop.
fn are_whole<R: Threads + Wait + Sync>(
    rt: &R,
    alloc: Global,
    workers: u32,
    rounds: u32,
    stop_after: u32,
) -> Result<bool, AllocError>
    requires { (0 < workers) × (workers ≤ 64) }
{
    for _ in 0..rounds {
        let closed = run_round(rt, alloc, jobs_of(alloc)?, workers, &Writing, stop_after)?;
        if !is_whole(&closed) || !begin_unstopped(&closed, stop_after as usize) {
            return Ok(false);
        }
    }
    Ok(true)
}

#[test]
fn one_worker(rt: HostRuntime) -> Result<(), Fail> {
    assert!(rt; are_whole(&rt, rt.alloc(), 1, 1000, u32::MAX)?);
    Ok(())
}

#[test]
fn two_workers(rt: HostRuntime) -> Result<(), Fail> {
    assert!(rt; are_whole(&rt, rt.alloc(), 2, 1000, u32::MAX)?);
    Ok(())
}

#[test]
fn eight_workers(rt: HostRuntime) -> Result<(), Fail> {
    assert!(rt; are_whole(&rt, rt.alloc(), 8, 1000, u32::MAX)?);
    Ok(())
}

#[test]
fn as_many_workers_as_jobs(rt: HostRuntime) -> Result<(), Fail> {
    assert!(rt; are_whole(&rt, rt.alloc(), 64, 1000, u32::MAX)?);
    Ok(())
}

// The word is stopped when ten results are collected. All jobs come back, and the first ten saw no stop.
#[test]
fn stopped_rounds(rt: HostRuntime) -> Result<(), Fail> {
    for workers in [1u32, 2, 8, 64] {
        assert!(rt; are_whole(&rt, rt.alloc(), workers, 25, 10)?);
    }
    Ok(())
}
