// Jobs, assigned to workers in turn, and run by each worker in order.
ghost use Rattle.std.specs.Prelude.{◌≡◌, ◌<◌, IfOk, map};
ghost use Rattle.epoch_pool.specs.Assigning.{assigned, no_jobs};
ghost use Rattle.epoch_pool.specs.Pool.{HaveRun};
ghost use Rattle.epoch_runner.specs.Running.{HasRun};

use crate::job::Job;
use disk_model::Gate;
use dp_base::OutOfMemory;
use epoch_runner::{Ran, run_epoch};
use std::alloc::Global;
use supply::Supply;

// The jobs of one worker, in order.
#[derive(Drop)]
pub(crate) struct WorkerJobs {
    pub(crate) worker: u32,
    pub(crate) jobs: Vec<Job>,
}

// Empty queues of workers 1, 2 and so on.
fn no_jobs(alloc: Global, workers: u32) -> Result<Vec<WorkerJobs>, OutOfMemory>
    ensures { IfOk result (λ queues. map (λ h. h.jobs.items) queues.items ≡ no_jobs workers) }
{
    let mut queues = Vec::new(alloc);
    'workers: for worker in 0..workers {
        queues.push(WorkerJobs {
            worker: worker + 1,
            jobs: Vec::new(alloc),
        })?;
    }
    Ok(queues)
}

// Assigns each job to the next worker in turn.
pub(crate) fn assign(
    alloc: Global,
    mut jobs: Vec<Job>,
    workers: u32,
) -> Result<Vec<WorkerJobs>, OutOfMemory>
    requires { 0 < workers }
    ensures { IfOk result (λ queues. map (λ h. h.jobs.items) queues.items ≡ assigned jobs.items (no_jobs workers)) }
{
    let mut queues = no_jobs(alloc, workers)?;
    'jobs: while !jobs.is_empty() {
        let job = jobs.remove(0);
        let mut queue = queues.remove(0);
        queue.jobs.push(job)?;
        queues.push(queue)?;
    }
    Ok(queues)
}

// Runs the jobs of one worker, in order. Before each the worker passes the gate.
pub(crate) fn run_jobs<G: Gate>(
    alloc: Global,
    queue: WorkerJobs,
    supply: &Supply,
    gate: &G,
) -> Result<Vec<Ran>, OutOfMemory>
    ensures { IfOk result (λ results. HaveRun queue.jobs.items supply.now results.items) }
{
    let worker = queue.worker;
    let mut jobs = queue.jobs;
    let mut results = Vec::new(alloc);
    'jobs: while !jobs.is_empty() {
        let job = jobs.remove(0);
        gate.pass(worker, job.index);
        results.push(run_job(alloc, job, supply)?)?;
    }
    Ok(results)
}

fn run_job(alloc: Global, job: Job, supply: &Supply) -> Result<Ran, OutOfMemory>
    ensures { IfOk result (λ ran. HasRun job.start job.hints supply.now job.bounds ran) }
{
    let Job {
        start,
        hints,
        bounds,
        ..
    } = job;
    run_epoch(alloc, start, &hints, supply, bounds)
}
