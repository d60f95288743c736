// How far the hints of an epoch have been followed.
use dp_base::Tid;
use sync_hints::SyncHint;

/// The rule by which the turns of an epoch are named by hints.
#[derive(Clone, Copy)]
pub enum HintStage {
    /// Threads other than an entry's take their plain turns. Those below a number have been passed.
    Others { entry: SyncHint, from: u16 },
    /// An entry's thread takes its plain turns, and then the entry's.
    Own { entry: SyncHint },
    /// The last entry is done, and every thread takes its plain turns. Those below a number have been passed.
    Last { from: u16 },
}

/// The turn that is next by hints.
#[derive(Clone, Copy)]
pub(crate) struct HintTurn {
    pub(crate) tid: Tid,
    // Whether a slice begins with it, whoever ran last.
    pub(crate) fresh: bool,
    // Whether it is a plain turn, and not an entry's.
    pub(crate) is_plain: bool,
}
