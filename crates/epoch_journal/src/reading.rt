// A whole journal is read.
ghost use Rattle.std.specs.Prelude.{◌≡◌, ◌<◌, ◌≤◌, IfOk, IsErrOf, IsTrue, length};
ghost use Rattle.dp_base.specs.declared.limits.TheConstants.{MAX_JOURNAL_BYTES};
ghost use Rattle.dp_base.specs.Counts.{Rose};
ghost use Rattle.disk_model.specs.Known.{known_disk};
ghost use Rattle.epoch_journal.specs.ReadWhole.{IsReadOn, IsReadSoFar, IsReadWhole, ReadMetNoOther};
ghost use Rattle.epoch_journal.specs.declared.reading.ReadFault.TheVariants as reads;

use disk_model::{Failed, World};
use dp_base::OutOfMemory;
use dp_base::limits::MAX_JOURNAL_BYTES;
use dp_base::little_endian::write_bytes;
use std::alloc::Global;

/// Why a journal was not read. The disk is as it was.
#[derive(Clone, Copy, Debug, PartialEq, Eq)]
pub enum ReadFault {
    DiskFault,
    OutOfMemory,
}

impl From<Failed> for ReadFault {
    ghost from_gives = { λ _ e. e ≡ reads.DiskFault };

    fn from(_: Failed) -> Self {
        ReadFault::DiskFault
    }
}

impl From<OutOfMemory> for ReadFault {
    ghost from_gives = { λ _ e. e ≡ reads.OutOfMemory };

    fn from(_: OutOfMemory) -> Self {
        ReadFault::OutOfMemory
    }
}

// Bytes that one read asks for at most.
const CHUNK_BYTES: usize = 65_536;

/// Returns the disk's first 2^30 bytes, or all that it has.
pub fn read_whole<W: World>(alloc: Global, world: &mut W) -> Result<Vec<u8>, ReadFault>
    ensures bytes { IfOk result (λ bytes. IsReadWhole (known_disk (W.history world.old)) bytes.items) }
    ensures few { IfOk result (λ bytes. length bytes.items ≤ MAX_JOURNAL_BYTES) }
    ensures history { W.history world.new ≡ W.history world.old }
    ensures cause { IsErrOf result ReadFault.DiskFault →
        Rose (W.disk_faults world.old) (W.disk_faults world.new) }
    ensures others { ReadMetNoOther result (W.disk_faults world.old) (W.disk_faults world.new) }
    ensures count { W.disk_faults world.old ≤ W.disk_faults world.new }
    ensures sink { W.sink_faults world.new ≡ W.sink_faults world.old }
{
    let zeros = [0; CHUNK_BYTES];
    let mut bytes = Vec::new(alloc);
    let mut more = true;
    'chunks: while more && bytes.len() < MAX_JOURNAL_BYTES as usize {
        more = read_chunk(world, &zeros, &mut bytes)?;
    }
    Ok(bytes)
}

// Reads on after these bytes, up to 2^30 in all. Returns whether there was something. The zeros make the room into which
// it reads, so that each byte is copied once.
fn read_chunk<W: World>(
    world: &mut W,
    zeros: &[u8; CHUNK_BYTES],
    bytes: &mut Vec<u8>,
) -> Result<bool, ReadFault>
    requires { length bytes.old.items < MAX_JOURNAL_BYTES }
    ensures bytes { IfOk result (λ more. IsReadSoFar (known_disk (W.history world.old)) bytes.old.items →
        IsReadOn (known_disk (W.history world.old)) bytes.new.items more) }
    ensures few { IfOk result (λ more. length bytes.new.items ≤ MAX_JOURNAL_BYTES) }
    ensures kept { IfOk result (λ more. length bytes.old.items ≤ length bytes.new.items) }
    ensures grows { IfOk result (λ more. IsTrue more → length bytes.old.items < length bytes.new.items) }
    ensures history { W.history world.new ≡ W.history world.old }
    ensures cause { IsErrOf result ReadFault.DiskFault →
        Rose (W.disk_faults world.old) (W.disk_faults world.new) }
    ensures others { ReadMetNoOther result (W.disk_faults world.old) (W.disk_faults world.new) }
    ensures count { W.disk_faults world.old ≤ W.disk_faults world.new }
    ensures sink { W.sink_faults world.new ≡ W.sink_faults world.old }
{
    let at = bytes.len();
    let most = (MAX_JOURNAL_BYTES as usize - at).min(CHUNK_BYTES);
    write_bytes(bytes, &zeros[..most])?;
    let count = world.read_at(at as u64, &mut bytes[at..])?;
    bytes.truncate(at + count);
    Ok(count > 0)
}
