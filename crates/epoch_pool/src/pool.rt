// All jobs of a round, side by side.
ghost use Rattle.std.specs.Prelude.{◌≡◌, ◌<◌, ℕ, IfOk, Ok, length, map, slice_index_or};
ghost use Rattle.epoch_pool.specs.Pool.{HaveRun};

use crate::assignment::{WorkerJobs, assign, run_jobs};
use crate::job::Job;
use disk_model::Gate;
use dp_base::OutOfMemory;
use epoch_runner::Ran;
use std::alloc::{AllocError, Global};
use std::thread::{self, Threads};
use supply::Supply;

// All of the results, or the first fault.
fn all_of(
    alloc: Global,
    mut results: Vec<Result<Vec<Ran>, OutOfMemory>>,
) -> Result<Vec<Vec<Ran>>, OutOfMemory>
    ensures { IfOk result (λ all. map Ok all.items ≡ results.items) }
{
    let mut all = Vec::new(alloc);
    'results: while !results.is_empty() {
        let result = results.remove(0)?;
        all.push(result)?;
    }
    Ok(all)
}

// Runs each queue's jobs in a thread of its own.
fn run_workers<R: Threads + Sync, G: Gate + Sync>(
    rt: &R,
    alloc: Global,
    queues: Vec<WorkerJobs>,
    supply: &Supply,
    gate: &G,
) -> Result<Vec<Result<Vec<Ran>, OutOfMemory>>, AllocError>
    ensures len { IfOk result (λ all. length all.items ≡ length queues.items) }
    ensures each { IfOk result (λ all. (i : ℕ) (d : _) (e : _) → i < length queues.items
        → IfOk (slice_index_or all.items i e) (λ results. HaveRun (slice_index_or queues.items i d).jobs.items supply.now results.items)) }
{
    thread::map_vec(rt, queues, &|queue| run_jobs(alloc, queue, supply, gate))
}

/// Runs the epochs of jobs side by side, in at most this many threads: worker 1 runs the first job, worker 2 the
/// second, and so on in turn. Before each job its worker passes the gate. The results are in the order of the jobs.
///
/// # Errors
///
/// Answers `OutOfMemory` if any job does. The results of the others are dropped.
pub fn run_all<R: Threads + Sync, G: Gate + Sync>(
    rt: &R,
    alloc: Global,
    jobs: Vec<Job>,
    supply: &Supply,
    workers: u32,
    gate: &G,
) -> Result<Vec<Ran>, OutOfMemory>
    requires { 0 < workers }
    ensures { IfOk result (λ results. HaveRun jobs.items supply.now results.items) }
{
    // A worker without a job needs no thread.
    let most = (workers as usize).min(jobs.len()).max(1) as u32;
    run_in(rt, alloc, jobs, supply, most, gate)
}

// Runs the epochs of jobs in this many threads.
fn run_in<R: Threads + Sync, G: Gate + Sync>(
    rt: &R,
    alloc: Global,
    jobs: Vec<Job>,
    supply: &Supply,
    workers: u32,
    gate: &G,
) -> Result<Vec<Ran>, OutOfMemory>
    requires { 0 < workers }
    ensures { IfOk result (λ results. HaveRun jobs.items supply.now results.items) }
{
    let count = jobs.len();
    let queues = assign(alloc, jobs, workers)?;
    let results = run_workers(rt, alloc, queues, supply, gate)?;
    let mut all = all_of(alloc, results)?;
    let mut ordered = Vec::with_capacity(alloc, count)?;
    let mut left = count;
    'left: while left > 0 {
        let Some(mut last) = all.pop() else {
            unreachable!();
        };
        let Some(result) = last.pop() else {
            unreachable!();
        };
        ordered.push(result)?;
        all.insert(0, last)?;
        left -= 1;
    }
    ordered.reverse();
    Ok(ordered)
}
