// How far a racing run goes.
ghost use Rattle.std.specs.Prelude.{◌<◌, ◌≤◌};
ghost use Rattle.dp_base.specs.declared.limits.TheConstants.{MAX_EPOCH_STEPS, MAX_JOBS};

/// How far a racing run goes, and in what pieces.
#[derive(Clone, Copy)]
pub struct Plan {
    /// Steps between two offers, 1 to 1,000,000.
    pub epoch: u32,
    /// Steps of a slice at most, at least 1.
    pub slice: u32,
    /// Jobs of the round at most, 1 to 64. An offer is made for each but the first.
    pub jobs: u32,
    /// Steps that the run may take in all.
    pub left: u64,
    /// The number from which the thread of an epoch's first slice is sought, after the round's first epoch.
    pub first: u16,
    ghost some_steps: { 0 < epoch },
    ghost few_steps: { epoch ≤ MAX_EPOCH_STEPS },
    ghost some_slice: { 0 < slice },
    ghost some_jobs: { 0 < jobs },
    ghost few_jobs: { jobs ≤ MAX_JOBS },
}
