use epoch_runner::Ran;

/// What happens in a round. The events of a job are in this order. Jobs are counted from 1.
#[derive(Drop)]
pub enum Event {
    /// The job is in the round.
    Offer(u32),
    /// A worker has the job.
    Claim(u32),
    /// The job was run.
    Done(u32),
    /// This is the result of the job.
    Take(u32, Ran),
    /// The next result is to be judged.
    Judge,
}
