// Hints for the schedule of an epoch.
ghost use Rattle.std.specs.Prelude.{◌≡◌};
ghost use Rattle.sync_hints.specs.NoHints.{no_hints};

use dp_base::{Log, Tid};
use std::alloc::Global;

/// What a step that synchronises is: no SC, one that stored, or one that didn't.
#[derive(Clone, Copy, Debug, PartialEq, Eq)]
pub enum Sc {
    NotSc,
    Won,
    Lost,
}

/// A step that synchronises, and the thread that takes it.
#[derive(Clone, Copy, Debug, PartialEq, Eq)]
pub struct SyncHint {
    pub tid: Tid,
    pub sc: Sc,
}

/// How many steps each thread takes, and the order of the steps that synchronise.
#[derive(Drop)]
pub struct Hints {
    /// A thread and its steps. The first item of a thread counts.
    pub counts: Log<(Tid, u32)>,
    pub order: Log<SyncHint>,
}

impl Hints {
    /// Makes hints that name no steps.
    pub fn none(alloc: Global) -> Hints
        ensures { result ≡ no_hints }
    {
        Hints {
            counts: Log::new(alloc),
            order: Log::new(alloc),
        }
    }
}
