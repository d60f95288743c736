// What the two queues hold.

/// An item of the job queue.
#[derive(Drop)]
pub enum JobItem<J> {
    Job { index: u32, job: J },
    Stop,
}

/// An item of the result queue.
#[derive(Drop)]
pub enum ResultItem<R> {
    Result { index: u32, result: R },
    /// How many jobs were published.
    Count(u32),
}
