// Why an inspection isn't whole.
ghost use Rattle.std.specs.Prelude.{◌≡◌};
ghost use Rattle.epoch_replay.specs.Inspecting.{inspect_fault_of};
ghost use Rattle.epoch_replay.specs.declared.inspect_fault.InspectFault.TheVariants as faults;

use disk_model::Failed;
use epoch_journal::ReadFault;

/// Why an inspection stopped before the journal's end. The disk is as it was. Records count from 1, epochs and marks
/// together.
#[derive(Clone, Copy, Debug, PartialEq, Eq)]
pub enum InspectFault {
    /// The disk has no journal. Nothing was sent.
    NoJournal,
    /// The body of this record is malformed. The lines of the records before it were sent.
    BadJournal(u32),
    /// The disk failed. Nothing was sent.
    DiskFault,
    /// The output failed. A prefix of the lines was sent.
    OutputFault,
    /// An allocation failed. Nothing was sent.
    OutOfMemory,
}

impl From<ReadFault> for InspectFault {
    ghost from_gives = { λ fault e. e ≡ inspect_fault_of fault };

    fn from(fault: ReadFault) -> Self {
        match fault {
            ReadFault::DiskFault => InspectFault::DiskFault,
            ReadFault::OutOfMemory => InspectFault::OutOfMemory,
        }
    }
}

// Of the world's calls only emits are answered so: the disk's are within `read_whole`.
impl From<Failed> for InspectFault {
    ghost from_gives = { λ _ e. e ≡ faults.OutputFault };

    fn from(_: Failed) -> Self {
        InspectFault::OutputFault
    }
}
