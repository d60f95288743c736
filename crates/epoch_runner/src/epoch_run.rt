// An epoch that was run.
ghost use Rattle.std.specs.Prelude.{◌≡◌, [], Ok};
ghost use Rattle.dp_base.specs.Journal.{IsBody, IsEpoch, epoch_body};
ghost use Rattle.epoch_record.specs.Epoch.{epoch_of};
ghost use Rattle.guest_kernel.specs.Slices.{new_after, run};

use dp_base::Bytes;
use epoch_record::Epoch;
use guest_kernel::State;

/// An epoch that was run: where it started, what it did, what it wrote, and where it ended.
#[derive(Drop)]
pub struct EpochRun {
    pub start: State,
    pub epoch: Epoch,
    pub out: Bytes,
    pub end: State,
    ghost runs: { ∥ run (epoch_of epoch).slices (new_after start [] (epoch_of epoch).answers) ≡ Ok (new_after end out []) ∥₁ },
    ghost is_epoch: { ∥ IsEpoch (epoch_of epoch) ∥₁ },
    ghost fits: { ∥ IsBody (epoch_body (epoch_of epoch)) ∥₁ },
}

/// What became of an epoch.
#[derive(Drop)]
pub enum Ran {
    /// It was run, and has at least one step.
    Epoch(EpochRun),
    /// There is no step to take, by the bounds or by the guest: the state, as it was.
    Idle(State),
}
