// What a self-test's line is made of.
use crate::replay_check::Agreed;
use dp_report::Report;

/// The report of a recording, and the replays that agreed with it.
#[derive(Drop)]
pub(crate) struct TestedReport {
    pub report: Report,
    /// With one worker.
    pub by_one: Agreed,
    /// With four.
    pub by_four: Agreed,
}
