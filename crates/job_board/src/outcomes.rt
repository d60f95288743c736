// What a board answers.

/// What a worker claims.
#[derive(Drop)]
pub enum Claim<J> {
    /// The next job. Indexes count from 1.
    Job { index: u32, job: J },
    /// There are no more jobs: the publisher has finished.
    Stop,
    /// At a moment of the call there was no job and no stop.
    Empty,
}

/// What a collector collects.
#[derive(Drop)]
pub enum Collected<R> {
    /// The next result, with the index of its job.
    Result { index: u32, result: R },
    /// How many jobs were published.
    Count(u32),
    /// At a moment of the call there was no result and no count.
    Empty,
}

/// What is left on a board that was closed, each with its index.
#[derive(Drop)]
pub struct Left<J: Drop, R: Drop> {
    /// The jobs that no worker claimed.
    pub jobs: Vec<(u32, J)>,
    /// The results that weren't collected.
    pub results: Vec<(u32, R)>,
}
