// A record is appended to a journal.
ghost use Rattle.std.specs.Prelude.{◌≡◌, ◌+◌, ◌<◌, ◌≤◌, IsErr, IsErrOf, OnOk, is_ok, length};
ghost use Rattle.dp_base.specs.declared.limits.TheConstants.{MAX_JOURNAL_BYTES};
ghost use Rattle.dp_base.specs.Counts.{Rose};
ghost use Rattle.disk_model.specs.Known.{IfKnown};
ghost use Rattle.epoch_journal.specs.Appending.{AppendCalls, Appended, HasAppended, MakesNoCall, RecordCalls, RecordWritten};

use crate::journal::Journal;
use device::write_through;
use disk_model::{Failed, World};
use dp_base::journal_writer::OPEN_GATE;
use journal_text::Frame;

/// Why a record was not appended.
#[derive(Clone, Copy, Debug, PartialEq, Eq)]
pub enum AppendFault {
    /// The disk failed. What was synced begins with the journal as it was, and the record may follow it or not. Each
    /// further append answers `Failed`.
    DiskFault,
    /// The record ends past the journal's maximum length, and nothing was written: the journal's end, and the frame's
    /// length.
    Full { end: u64, need: u64 },
    /// An append before this one failed, and nothing was written: how many records were acknowledged.
    Failed { last: u32 },
}

impl Journal {
    /// Appends a record, which is acknowledged by `Ok`. Takes no memory.
    ///
    /// At every moment of the call, also of one that fails, a crash leaves a disk that reads as the journal as it was,
    /// or as the one with this record after the others. Once it has answered `Ok` only the latter is left. This holds
    /// if the journal is on the disk, as it is after a `begin` or an `append` that answered `Ok`. The gate after its
    /// records may also be another byte that isn't the open gate.
    pub fn append<W: World>(&mut self, world: &mut W, added: &Frame) -> Result<(), AppendFault>
        ensures history { IfKnown (Appended self.old added.now result) (W.history world.old) (W.history world.new) }
        ensures calls { IfKnown (AppendCalls self.old added.now result) (W.history world.old) (W.history world.new) }
        ensures numbers { HasAppended self.old (length added.now) self.new result }
        ensures room { self.old.room ≤ MAX_JOURNAL_BYTES }
        ensures untouched { MakesNoCall result → world.new ≡ world.old }
        ensures cause { IsErrOf result AppendFault.DiskFault →
            Rose (W.disk_faults world.old) (W.disk_faults world.new) }
        ensures none { OnOk result (W.disk_faults world.new ≡ W.disk_faults world.old) }
        ensures count { W.disk_faults world.old ≤ W.disk_faults world.new }
        ensures sink { W.sink_faults world.new ≡ W.sink_faults world.old }
    {
        if self.failed {
            return Err(AppendFault::Failed { last: self.count });
        }
        let end = self.end;
        let need = added.as_slice().len() as u64;
        if end + need > self.room {
            return Err(AppendFault::Full { end, need });
        }
        match write_record(world, end, added.as_slice()) {
            Ok(()) => {
                self.end = end + need;
                self.count += 1;
                Ok(())
            }
            Err(Failed) => {
                self.failed = true;
                Err(AppendFault::DiskFault)
            }
        }
    }
}

// Writes a frame after the gate at the journal's end, and then opens the gate.
fn write_record<W: World>(world: &mut W, end: u64, frame: &[u8]) -> Result<(), Failed>
    requires gate { 0 < end }
    requires fits { end + length frame.now ≤ MAX_JOURNAL_BYTES }
    ensures history { IfKnown (RecordWritten end frame.now (is_ok result)) (W.history world.old) (W.history world.new) }
    ensures calls { IfKnown (RecordCalls end frame.now (is_ok result)) (W.history world.old) (W.history world.new) }
    ensures cause { IsErr result → Rose (W.disk_faults world.old) (W.disk_faults world.new) }
    ensures none { OnOk result (W.disk_faults world.new ≡ W.disk_faults world.old) }
    ensures count { W.disk_faults world.old ≤ W.disk_faults world.new }
    ensures sink { W.sink_faults world.new ≡ W.sink_faults world.old }
{
    write_through(world, end, frame)?;
    write_through(world, end - 1, &[OPEN_GATE])?;
    Ok(())
}
