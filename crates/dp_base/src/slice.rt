use crate::Tid;

/// A time slice: a number of turns of one thread, one after another.
#[derive(Clone, Copy, Debug, PartialEq, Eq)]
pub struct Slice {
    /// Whose turns.
    pub tid: Tid,
    /// How many turns, at least 1 in a journal.
    pub steps: u32,
}
