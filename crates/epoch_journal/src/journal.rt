// The journal on the disk: its header, and the records after it, each after a gate of its own.
//
// A closed gate follows the last record. What is appended is written after that gate and synced before the gate is
// opened by a write of its own, which is synced too.

use std::marker::Model;

/// A journal on a disk.
#[derive(Drop)]
pub struct Journal {
    pub(crate) end: u64,
    pub(crate) room: u64,
    pub(crate) count: u32,
    pub(crate) failed: bool,
}

impl Model for Journal {
    ghost use Rattle.epoch_journal.specs.Standing.{Journal as Standing, IsJournal};

    ghost Value = { Standing };

    ghost view = { λ j. record { end = j.end; room = j.room; count = j.count; failed = j.failed } };

    ghost invariant = { λ j. IsJournal (record { end = j.end; room = j.room; count = j.count; failed = j.failed }) };
}
