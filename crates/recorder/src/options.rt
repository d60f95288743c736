// How a guest is recorded.
ghost use Rattle.std.specs.Prelude.{◌≡◌, ◌≤◌, ◌<◌, ◌^◌};
ghost use Rattle.dp_base.specs.declared.limits.TheConstants.{MAX_EPOCH_STEPS, MAX_JOBS, MAX_JOURNAL_BYTES, MAX_MARK_EPOCHS, MAX_RECORDING_STEPS, MAX_SLICE_STEPS, MAX_WORKERS};

/// How a guest is recorded. Each field is in the range that its type keeps.
#[derive(Clone, Copy)]
pub struct Options {
    /// Workers that run epochs side by side, 1 to 64.
    pub workers: u32,
    /// Steps of an epoch at most, 1 to 1,000,000.
    pub epoch: u32,
    /// Steps of a slice at most, 1 to 100,000.
    pub slice: u32,
    /// Epochs of a round at most, 1 to 64.
    pub ahead: u32,
    /// Epochs from one mark to the next, up to 1,000; 0 for no marks.
    pub mark: u32,
    /// Steps of the recording at most, 1 to 10^12.
    pub limit: u64,
    /// Bytes of the journal at most, up to 2^30.
    pub room: u64,
    ghost workers_range: { (0 < workers) × (workers ≤ MAX_WORKERS) },
    ghost epoch_range: { (0 < epoch) × (epoch ≤ MAX_EPOCH_STEPS) },
    ghost slice_range: { (0 < slice) × (slice ≤ MAX_SLICE_STEPS) },
    ghost ahead_range: { (0 < ahead) × (ahead ≤ MAX_JOBS) },
    ghost mark_range: { mark ≤ MAX_MARK_EPOCHS },
    ghost limit_range: { (0 < limit) × (limit ≤ MAX_RECORDING_STEPS) },
    ghost room_range: { room ≤ MAX_JOURNAL_BYTES },
}
