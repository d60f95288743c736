// A journal is begun on an empty disk.
ghost use Rattle.std.specs.Prelude.{◌≡◌, ◌<◌, ◌≤◌, ◌^◌, IsErrOf, length};
ghost use Rattle.dp_base.specs.Counts.{Rose};
ghost use Rattle.disk_model.specs.Known.{IfKnown};
ghost use Rattle.epoch_journal.specs.Beginning.{Begun, HasBegun, MetNoFault};
ghost use Rattle.epoch_journal.specs.declared.begin.BeginFault.TheVariants as begins;

use crate::journal::Journal;
use device::write_through;
use disk_model::{Failed, World};
use dp_base::OutOfMemory;
use dp_base::journal_writer::{CLOSED_GATE, OPEN_GATE, write_header_body};
use dp_base::little_endian::write_u8;
use std::alloc::Global;

/// Why a journal was not begun. After each but `DiskFault` nothing was written.
#[derive(Clone, Copy, Debug, PartialEq, Eq)]
pub enum BeginFault {
    /// The disk has this many bytes already.
    InUse { len: u64 },
    DiskFault,
    /// The header ends past the journal's maximum length: the journal's end, and how many bytes are needed from there
    /// on.
    Full { end: u64, need: u64 },
    OutOfMemory,
}

impl From<Failed> for BeginFault {
    ghost from_gives = { λ _ e. e ≡ begins.DiskFault };

    fn from(_: Failed) -> Self {
        BeginFault::DiskFault
    }
}

impl From<OutOfMemory> for BeginFault {
    ghost from_gives = { λ _ e. e ≡ begins.OutOfMemory };

    fn from(_: OutOfMemory) -> Self {
        BeginFault::OutOfMemory
    }
}

impl Journal {
    /// Begins a journal of this guest on an empty disk, with no record. The disk's length is looked at first.
    ///
    /// At every moment of the call, also of one that fails, a crash leaves a disk that reads as no journal, or as this
    /// guest's with no record. Once it has answered `Ok` only the latter is left. This holds of a disk on which nothing
    /// was pending.
    pub fn begin<W: World>(
        alloc: Global,
        world: &mut W,
        guest: &[u8],
        room: u64,
    ) -> Result<Journal, BeginFault>
        requires room { room ≤ 2 ^ 30 }
        ensures history { IfKnown (Begun guest.now result) (W.history world.old) (W.history world.new) }
        ensures numbers { HasBegun (length guest.now) room result }
        ensures none { MetNoFault result (W.disk_faults world.old) (W.disk_faults world.new) }
        ensures cause { IsErrOf result BeginFault.DiskFault →
            Rose (W.disk_faults world.old) (W.disk_faults world.new) }
        ensures count { W.disk_faults world.old ≤ W.disk_faults world.new }
        ensures sink { W.sink_faults world.new ≡ W.sink_faults world.old }
    {
        let len = world.len()?;
        if len != 0 {
            return Err(BeginFault::InUse { len });
        }
        let need = guest.len() as u64 + 10;
        if need > room {
            return Err(BeginFault::Full { end: 0, need });
        }
        let mut header = Vec::new(alloc);
        write_header_body(&mut header, guest)?;
        write_u8(&mut header, CLOSED_GATE)?;
        write_through(world, 0, &[CLOSED_GATE])?;
        write_through(world, 1, &header)?;
        write_through(world, 0, &[OPEN_GATE])?;
        Ok(Journal {
            end: need,
            room,
            count: 0,
            failed: false,
        })
    }
}
