// What a worker passes before it runs a job.

/// A point that each worker passes before it runs a job. A test can hold a worker there.
pub trait Gate {
    /// Returns once this worker may run this job. Workers and jobs are counted from 1.
    fn pass(&self, worker: u32, job: u32);
}

/// Lets every worker pass at once.
#[derive(Clone, Copy, Debug)]
pub struct OpenGate;

impl Gate for OpenGate {
    fn pass(&self, _worker: u32, _job: u32) {}
}
