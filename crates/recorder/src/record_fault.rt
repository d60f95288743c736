// Why a recording stopped before the guest's end.
ghost use Rattle.std.specs.Prelude.{◌≡◌};
ghost use Rattle.recorder.specs.Faults.{of_begin, of_commit};
ghost use Rattle.recorder.specs.declared.record_fault.RecordFault.TheVariants as faults;

use crate::commit::CommitFault;
use dp_base::OutOfMemory;
use epoch_journal::BeginFault;
use supply::InputFault;

/// Why a recording stopped before the guest's end. What is committed stays committed.
#[derive(Clone, Copy, Debug, PartialEq, Eq)]
pub enum RecordFault {
    /// The disk failed. A crash leaves the journal of the epochs whose output was sent, or the one that also has the
    /// record that was being appended: an epoch, none of whose output was sent, or the mark that is due. If the disk
    /// failed before the first epoch, a crash leaves no journal or one without an epoch.
    DiskFault,
    /// The output failed. The journal has the epoch whose output was being sent, and a prefix of that output was sent;
    /// or the guest has ended, its whole output was sent, and a prefix of the report's line was.
    OutputFault,
    /// The input could not be read. The journal has the epochs whose output was sent, whole, and nothing of it is lost.
    InputFault,
    /// The disk has this many bytes already. Nothing was written.
    JournalInUse(u64),
    /// The guest took this many steps, as many as it may, and hasn't ended.
    StepLimit(u64),
    /// The next record ends past the journal's maximum length: the journal's end, and how many bytes are needed from
    /// there on. It wasn't written. The end is 0 if the header itself doesn't fit.
    JournalFull { end: u64, need: u64 },
    OutOfMemory,
}

impl From<BeginFault> for RecordFault {
    ghost from_gives = { λ fault e. e ≡ of_begin fault };

    fn from(fault: BeginFault) -> Self {
        match fault {
            BeginFault::InUse { len } => RecordFault::JournalInUse(len),
            BeginFault::DiskFault => RecordFault::DiskFault,
            BeginFault::Full { end, need } => RecordFault::JournalFull { end, need },
            BeginFault::OutOfMemory => RecordFault::OutOfMemory,
        }
    }
}

impl From<CommitFault> for RecordFault {
    ghost from_gives = { λ fault e. e ≡ of_commit fault };

    fn from(fault: CommitFault) -> Self {
        match fault {
            CommitFault::DiskFault => RecordFault::DiskFault,
            CommitFault::Full { end, need } => RecordFault::JournalFull { end, need },
            // A journal that takes nothing more, since the disk has failed.
            CommitFault::Failed { .. } => RecordFault::DiskFault,
            CommitFault::OutputFault => RecordFault::OutputFault,
        }
    }
}

impl From<InputFault> for RecordFault {
    ghost from_gives = { λ _ e. e ≡ faults.InputFault };

    fn from(_: InputFault) -> Self {
        RecordFault::InputFault
    }
}

impl From<OutOfMemory> for RecordFault {
    ghost from_gives = { λ _ e. e ≡ faults.OutOfMemory };

    fn from(_: OutOfMemory) -> Self {
        RecordFault::OutOfMemory
    }
}
