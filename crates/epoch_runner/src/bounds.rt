ghost use Rattle.std.specs.Prelude.{◌<◌, ◌≤◌};
ghost use Rattle.dp_base.specs.declared.limits.TheConstants.{MAX_EPOCH_STEPS};

/// How far an epoch may go, and with which thread it begins.
#[derive(Clone, Copy)]
pub struct Bounds {
    /// How many steps it may have, up to 1,000,000.
    pub steps: u32,
    /// How many steps each of its slices may have, at least 1.
    pub slice: u32,
    /// It begins with the lowest thread that can step from this number on, or else with the lowest of all that can.
    pub first: u16,
    ghost few_steps: { steps ≤ MAX_EPOCH_STEPS },
    ghost some_slice: { 0 < slice },
}
