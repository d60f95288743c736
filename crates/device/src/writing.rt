ghost use Rattle.std.specs.Prelude.{◌≡◌, ◌≤◌, IsErr, OnOk, is_ok};
ghost use Rattle.dp_base.specs.Counts.{Rose};
ghost use Rattle.disk_model.specs.Known.{IfKnown};
ghost use Rattle.device.specs.Writing.{IsWrittenThrough, WroteAndSynced};

use disk_model::{Failed, World};

/// Writes bytes from offset `at` on, and waits until they are on the disk. What the disk has then is known for an
/// offset up to its length. At every moment of the call, on a disk on which nothing was pending, a crash leaves all but
/// these bytes' range as it was.
///
/// # Errors
///
/// `Failed` if the write or the sync failed. Any part of the write may have been done; what the last sync had left is
/// still there.
pub fn write_through<W: World>(world: &mut W, at: u64, bytes: &[u8]) -> Result<(), Failed>
    ensures history { IfKnown (IsWrittenThrough at bytes.now (is_ok result)) (W.history world.old) (W.history world.new) }
    ensures calls { IfKnown (WroteAndSynced at bytes.now (is_ok result)) (W.history world.old) (W.history world.new) }
    ensures none { OnOk result (W.disk_faults world.new ≡ W.disk_faults world.old) }
    ensures cause { IsErr result → Rose (W.disk_faults world.old) (W.disk_faults world.new) }
    ensures count { W.disk_faults world.old ≤ W.disk_faults world.new }
    ensures sink { W.sink_faults world.new ≡ W.sink_faults world.old }
{
    world.write_at(at, bytes)?;
    world.sync()?;
    Ok(())
}
