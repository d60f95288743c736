// An epoch that is to be run.
ghost use Rattle.std.specs.Prelude.{◌+◌, ◌<◌, ◌^◌};

use epoch_runner::Bounds;
use guest_kernel::State;
use sync_hints::Hints;

/// An epoch of a round that is to be run.
#[derive(Drop)]
pub struct Job {
    /// Its number in the round, from 1.
    pub index: u32,
    pub start: State,
    pub hints: Hints,
    pub bounds: Bounds,
    ghost countable: { start.steps + bounds.steps < 2 ^ 64 },
}
