// An epoch is committed: its record is appended, and then its output is sent.
ghost use Rattle.std.specs.Prelude.{◌≡◌, ◌≤◌, IsErrOf, length};
ghost use Rattle.dp_base.specs.Counts.{Rose};
ghost use Rattle.disk_model.specs.Known.{IfKnown};
ghost use Rattle.recorder.specs.Committing.{CommitCalls, Committed, HasCommitted, CommitMetNoOther};

use crate::ready_epoch::Ready;
use device::send_all;
use disk_model::{Stream, World};
use epoch_journal::{AppendFault, Journal};

/// Why an epoch was not committed, or not sent whole.
#[derive(Clone, Copy, Debug, PartialEq, Eq)]
pub enum CommitFault {
    DiskFault,
    /// The record ends past the journal's maximum length, and nothing was written or sent: the journal's end, and the
    /// frame's length.
    Full { end: u64, need: u64 },
    /// An append before this one failed, and nothing was written or sent: how many records were
    /// acknowledged.
    Failed { last: u32 },
    /// The record is in the journal, and a prefix of the output was sent.
    OutputFault,
}

/// Appends an epoch's record, and sends its output once the record is on the disk. Takes no memory.
///
/// At every moment of the call a crash leaves the journal as it was, and nothing of this output was sent; or the
/// journal with this record, and a prefix of the output was sent.
pub fn commit_epoch<W: World>(
    journal: &mut Journal,
    world: &mut W,
    ready: &Ready,
) -> Result<(), CommitFault>
    ensures history { IfKnown (Committed journal.old ready.now.frame ready.now.out result)
        (W.history world.old) (W.history world.new) }
    ensures calls { IfKnown (CommitCalls journal.old ready.now.frame ready.now.out result)
        (W.history world.old) (W.history world.new) }
    ensures numbers { HasCommitted journal.old (length ready.now.frame) journal.new result }
    ensures others { CommitMetNoOther result (W.disk_faults world.old) (W.disk_faults world.new)
        (W.sink_faults world.old) (W.sink_faults world.new) }
    ensures disk_cause { IsErrOf result CommitFault.DiskFault →
        Rose (W.disk_faults world.old) (W.disk_faults world.new) }
    ensures sink_cause { IsErrOf result CommitFault.OutputFault →
        Rose (W.sink_faults world.old) (W.sink_faults world.new) }
    ensures disk_count { W.disk_faults world.old ≤ W.disk_faults world.new }
    ensures sink_count { W.sink_faults world.old ≤ W.sink_faults world.new }
{
    match journal.append(world, &ready.frame) {
        Ok(()) => {}
        Err(AppendFault::DiskFault) => return Err(CommitFault::DiskFault),
        Err(AppendFault::Full { end, need }) => return Err(CommitFault::Full { end, need }),
        Err(AppendFault::Failed { last }) => return Err(CommitFault::Failed { last }),
    }
    match send_all(world, Stream::Out, ready.out.as_slice()) {
        Ok(()) => Ok(()),
        Err(_) => Err(CommitFault::OutputFault),
    }
}
