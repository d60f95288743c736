// Why a self-test has no line.
ghost use Rattle.std.specs.Prelude.{◌≡◌};
ghost use Rattle.dp_top.specs.declared.self_test_fault.SelfTestFault.TheVariants as tests;

use dp_base::OutOfMemory;

/// Why a self-test ended without the line of its guest.
#[derive(Clone, Copy, Debug, PartialEq, Eq)]
pub(crate) enum SelfTestFault {
    /// The guest took this many steps, as many as it may, and hasn't ended.
    StepLimit(u64),
    /// The next record doesn't fit: the journal's end, and how many bytes are needed from there on.
    JournalFull { end: u64, need: u64 },
    /// An allocation failed.
    OutOfMemory,
    /// A replay sent or reported something else than the recording. It is proved that none does. So the program was
    /// built wrong, or the machine is broken.
    Differs,
}

impl From<OutOfMemory> for SelfTestFault {
    ghost from_gives = { λ _ fault. fault ≡ tests.OutOfMemory };

    fn from(_: OutOfMemory) -> Self {
        SelfTestFault::OutOfMemory
    }
}
