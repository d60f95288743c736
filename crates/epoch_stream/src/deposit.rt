// What a worker deposits.
use epoch_pool::Job;
use epoch_runner::Ran;
use job_board::Board;

/// What a worker deposits for a job.
#[derive(Drop)]
pub(crate) enum Deposit {
    /// The result of its epoch.
    Ran(Ran),
    /// The round was stopped, and the job wasn't run.
    Skipped(Job),
    OutOfMemory,
}

pub(crate) type EpochBoard = Board<Job, Deposit>;
