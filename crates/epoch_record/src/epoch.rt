use slice_log::SliceLog;
use syscall_log::AnswerLog;

/// What an epoch did: the slices that it ran, and the answers that they took.
#[derive(Drop)]
pub struct Epoch {
    pub slices: SliceLog,
    pub answers: AnswerLog,
}
