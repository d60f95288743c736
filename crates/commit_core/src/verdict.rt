use dp_base::Bytes;
use epoch_record::Epoch;

/// The answer to an event. `Double`, `Stranger`, `NotYet` and `Closed` refuse it, and leave the round as it was.
#[derive(Drop)]
pub enum Verdict {
    /// It was noted.
    Noted,
    /// It was noted for this job before.
    Double { i: u32 },
    /// The job wasn't offered, or can't be; or the event before this one wasn't noted for it.
    Stranger { i: u32 },
    /// The next result wasn't taken yet.
    NotYet { i: u32 },
    /// The epoch starts in the committed state, and is committed: its end is the committed state now.
    Commit { epoch: Epoch, out: Bytes },
    /// The result starts in another state than the committed one. The round is closed.
    Squash { i: u32 },
    /// There was nothing to run from the committed state. The round is closed.
    Over { i: u32 },
    /// The round was closed before.
    Closed,
}
