// What one thread did in a racing run.
use crate::hints::Sc;
use dp_base::{Log, Tid};

/// What one thread did in a racing run: its steps, and those that synchronise.
#[derive(Drop)]
pub struct ThreadLog {
    pub tid: Tid,
    pub steps: u32,
    /// The ticket of each step that synchronises, and what the step is.
    pub entries: Log<(u64, Sc)>,
}
