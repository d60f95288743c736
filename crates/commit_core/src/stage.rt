use epoch_runner::Ran;

/// The last event of a job.
#[derive(Drop)]
pub enum Stage {
    Offered,
    Claimed,
    Done,
    Taken(Ran),
    /// Its epoch was committed.
    Judged,
}
