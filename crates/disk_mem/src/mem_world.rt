// A world in memory, for tests and for the program.
ghost use Rattle.std.specs.Prelude.{◌≡◌, ◌<◌, ◌≤◌, ◌⊎◌, length, min, is_ok, Some, IsErr, IfOk, OnOk, OnErr, IsTrue, true, false};
ghost use Rattle.dp_base.specs.Counts.{Rose};
ghost use Rattle.disk_model.specs.History.{IsImage};
ghost use Rattle.disk_model.specs.Known.{IfKnown, IsWritten};
ghost use Rattle.disk_model.specs.Steps.{IsRead, Wrote, Truncated, Synced, Emitted, stream_of};
ghost use Rattle.disk_mem.specs.declared.fails.Fails.TheVariants.{Never};
ghost use Rattle.disk_mem.specs.declared.call.Call.TheVariants.{Attach, Len, Read, Write, Cut, Sync, Emit};
ghost use Rattle.disk_mem.specs.Replay.{start, replay};
ghost use Rattle.disk_mem.specs.Crashing.{left_by};
ghost use Rattle.disk_mem.specs.MemoryWorld.{fresh, restarted, fails_next, emit_fails_next, did, did_emit, IsFailed, IsFailedEmit};

use crate::contents::Contents;
use crate::counter::Counter;
use crate::{Call, Fails};
use disk_model::{Failed, Stream, World};
use dp_base::OutOfMemory;
use std::alloc::Global;
use std::marker::Model;

/// A world whose disk and streams are in memory. The disk is there from the start, empty, whatever name it is attached
/// by.
///
/// Calls on the disk are counted together, from 1, and emits by themselves. Those fail whose numbers its two `Fails`
/// say, and those for which an allocation fails: the call is recorded, so each call needs memory. A call that fails by
/// its number does none of its work, though what it meant to write or cut is pending. One for which an allocation fails
/// changes nothing. A write past the end fills the gap with zero bytes. An emit takes as many bytes as the piece has,
/// at most `piece`.
#[derive(Drop)]
pub struct MemWorld {
    disk: Counter,
    sink: Counter,
    piece: u32,
    contents: Contents,
    allocation_failed: bool,
}

impl Model for MemWorld {
    ghost use Rattle.std.specs.Prelude.{◌<◌};
    ghost use Rattle.disk_mem.specs.MemoryWorld.{MemoryWorld};

    ghost Value = { MemoryWorld };

    ghost view = { λ m. record { fails = m.disk.fails; sink_fails = m.sink.fails; piece = m.piece; first = m.contents.first; calls = m.contents.calls; history = m.contents.history; disk_calls = m.disk.calls; emits = m.sink.calls; disk_faults = m.disk.faults; sink_faults = m.sink.faults; allocation_failed = m.allocation_failed } };

    ghost invariant = { λ m. 0 < m.piece };
}

impl MemWorld {
    /// Makes an empty disk, some of whose calls fail.
    pub fn new(alloc: Global, disk: Fails, sink: Fails, piece: u32) -> Result<MemWorld, OutOfMemory>
        requires { 0 < piece }
        ensures { IfOk result (λ world. world ≡ fresh disk sink piece) }
    {
        Ok(MemWorld {
            disk: Counter::new(disk),
            sink: Counter::new(sink),
            piece,
            contents: Contents::new(alloc),
            allocation_failed: false,
        })
    }

    /// Returns this world with these bytes on its disk, nothing pending, an empty record, and nothing sent.
    pub fn of_disk(self, alloc: Global, bytes: &[u8]) -> Result<MemWorld, OutOfMemory>
        ensures { IfOk result (λ world. world ≡ restarted bytes.now self) }
    {
        let contents = Contents::of_disk(alloc, bytes)?;
        Ok(MemWorld {
            disk: self.disk,
            sink: self.sink,
            piece: self.piece,
            contents,
            allocation_failed: self.allocation_failed,
        })
    }

    /// Returns what a read of the whole disk gives. It is one of the images that a crash may leave now.
    pub fn bytes(&self) -> &[u8]
        ensures whole { result.now ≡ self.now.history.disk }
        ensures image { IsImage self.now.history.pending result.now }
    {
        self.contents.disk()
    }

    /// Returns one of the images that a crash may leave now: 0 picks the disk without what is pending, at its least
    /// length; 1 what a read gives, as `bytes`; any other number the disk with each pending byte 1, at its greatest
    /// length.
    ///
    /// The greatest length may be more than any memory holds: a write far past the end that failed by its number is
    /// pending.
    pub fn crash(&self, alloc: Global, pick: u32) -> Result<Vec<u8>, OutOfMemory>
        ensures left { IfOk result (λ bytes. bytes.items ≡ left_by pick self.now.history) }
        ensures image { IfOk result (λ bytes. IsImage self.now.history.pending bytes.items) }
    {
        self.contents.crash(alloc, pick)
    }

    /// Returns what a stream has got.
    pub fn sent(&self, to: Stream) -> &[u8]
        ensures { result.now ≡ stream_of to self.now.history }
    {
        self.contents.sent(to)
    }

    /// Returns the record of all calls, in order. The history is their replay over the bytes that the disk had first.
    pub fn calls(&self) -> &[Call]
        ensures record { result.now ≡ self.now.calls }
        ensures replay { self.now.history ≡ replay (start self.now.first) result.now }
    {
        self.contents.calls()
    }

    /// Returns how many calls on the disk there were. The count stops at 2^64 - 1.
    pub fn disk_calls(&self) -> u64
        ensures { result ≡ self.now.disk_calls }
    {
        self.disk.calls
    }

    /// Returns how many emits there were. The count stops at 2^64 - 1.
    pub fn emits(&self) -> u64
        ensures { result ≡ self.now.emits }
    {
        self.sink.calls
    }

    /// Returns how many calls on the disk failed. The count stops at 2^64 - 1.
    pub fn disk_fault_count(&self) -> u64
        ensures { result ≡ self.now.disk_faults }
    {
        self.disk.faults
    }

    /// Returns how many emits failed. The count stops at 2^64 - 1.
    pub fn sink_fault_count(&self) -> u64
        ensures { result ≡ self.now.sink_faults }
    {
        self.sink.faults
    }

    /// Returns `true` if some call ever failed since an allocation for the world failed.
    pub fn allocation_failed(&self) -> bool
        ensures { result ≡ self.now.allocation_failed }
    {
        self.allocation_failed
    }
}

// Beside the trait's clauses: which calls fail, and what each leaves.
impl World for MemWorld {
    ghost history = { λ m. Some m.history };

    ghost disk_faults = { λ m. m.disk_faults };

    ghost sink_faults = { λ m. m.sink_faults };

    fn attach(&mut self, _name: &str, _make: bool) -> Result<(), Failed>
        ensures history { self.new.history ≡ self.old.history }
        ensures cause { IsErr result → Rose self.old.disk_faults self.new.disk_faults }
        ensures count { self.old.disk_faults ≤ self.new.disk_faults }
        ensures sink { self.new.sink_faults ≡ self.old.sink_faults }
        ensures planned { IsTrue (fails_next self.old) → IsErr result }
        ensures only { IsErr result → (fails_next self.old ≡ true) ⊎ (self.new.allocation_failed ≡ true) }
        ensures never { self.old.fails ≡ Never → IsErr result → IsTrue self.new.allocation_failed }
        ensures ok { OnOk result (self.new ≡ did (Attach true) self.old) }
        ensures err { OnErr result (IsFailed (Attach false) self.old self.new) }
    {
        // The disk is there from the start.
        let ok = self.disk.count_call();
        if self.contents.keep(Call::Attach { ok }).is_err() {
            self.disk.count_fault();
            self.allocation_failed = true;
            return Err(Failed);
        }
        if !ok {
            self.disk.count_fault();
            return Err(Failed);
        }
        Ok(())
    }

    fn len(&mut self) -> Result<u64, Failed>
        ensures length { IfOk result (λ n. n ≡ length self.old.history.disk) }
        ensures history { self.new.history ≡ self.old.history }
        ensures cause { IsErr result → Rose self.old.disk_faults self.new.disk_faults }
        ensures count { self.old.disk_faults ≤ self.new.disk_faults }
        ensures sink { self.new.sink_faults ≡ self.old.sink_faults }
        ensures planned { IsTrue (fails_next self.old) → IsErr result }
        ensures only { IsErr result → (fails_next self.old ≡ true) ⊎ (self.new.allocation_failed ≡ true) }
        ensures never { self.old.fails ≡ Never → IsErr result → IsTrue self.new.allocation_failed }
        ensures ok { OnOk result (self.new ≡ did (Len true) self.old) }
        ensures err { OnErr result (IsFailed (Len false) self.old self.new) }
    {
        let ok = self.disk.count_call();
        if self.contents.keep(Call::Len { ok }).is_err() {
            self.disk.count_fault();
            self.allocation_failed = true;
            return Err(Failed);
        }
        if !ok {
            self.disk.count_fault();
            return Err(Failed);
        }
        Ok(self.contents.disk().len() as u64)
    }

    fn read_at(&mut self, at: u64, buf: &mut [u8]) -> Result<usize, Failed>
        ensures read { IfOk result (λ n. IsRead (Some self.old.history.disk) at buf.old buf.new n) }
        ensures within { IfOk result (λ n. n ≤ length buf.old) }
        ensures history { self.new.history ≡ self.old.history }
        ensures buffer { OnErr result (buf.new ≡ buf.old) }
        ensures cause { IsErr result → Rose self.old.disk_faults self.new.disk_faults }
        ensures count { self.old.disk_faults ≤ self.new.disk_faults }
        ensures sink { self.new.sink_faults ≡ self.old.sink_faults }
        ensures planned { IsTrue (fails_next self.old) → IsErr result }
        ensures only { IsErr result → (fails_next self.old ≡ true) ⊎ (self.new.allocation_failed ≡ true) }
        ensures never { self.old.fails ≡ Never → IsErr result → IsTrue self.new.allocation_failed }
        ensures ok { OnOk result (self.new ≡ did (Read at (length buf.old) true) self.old) }
        ensures err { OnErr result (IsFailed (Read at (length buf.old) false) self.old self.new) }
    {
        let ok = self.disk.count_call();
        let count = buf.len();
        if self.contents.keep(Call::Read { at, count, ok }).is_err() {
            self.disk.count_fault();
            self.allocation_failed = true;
            return Err(Failed);
        }
        if !ok {
            self.disk.count_fault();
            return Err(Failed);
        }
        Ok(self.contents.copy_to(at, buf))
    }

    fn write_at(&mut self, at: u64, bytes: &[u8]) -> Result<(), Failed>
        ensures written { OnOk result (IsWritten (Some self.old.history.disk) at bytes.now (Some self.new.history.disk)) }
        ensures history { IfKnown (Wrote at bytes.now (is_ok result)) (Some self.old.history) (Some self.new.history) }
        ensures cause { IsErr result → Rose self.old.disk_faults self.new.disk_faults }
        ensures count { self.old.disk_faults ≤ self.new.disk_faults }
        ensures sink { self.new.sink_faults ≡ self.old.sink_faults }
        ensures planned { IsTrue (fails_next self.old) → IsErr result }
        ensures only { IsErr result → (fails_next self.old ≡ true) ⊎ (self.new.allocation_failed ≡ true) }
        ensures never { self.old.fails ≡ Never → IsErr result → IsTrue self.new.allocation_failed }
        ensures ok { OnOk result (self.new ≡ did (Write at bytes.now true) self.old) }
        ensures err { OnErr result (IsFailed (Write at bytes.now false) self.old self.new) }
    {
        let ok = self.disk.count_call();
        if self.contents.write(at, bytes, ok).is_err() {
            self.disk.count_fault();
            self.allocation_failed = true;
            return Err(Failed);
        }
        if !ok {
            self.disk.count_fault();
            return Err(Failed);
        }
        Ok(())
    }

    fn cut(&mut self, len: u64) -> Result<(), Failed>
        ensures history { IfKnown (Truncated len (is_ok result)) (Some self.old.history) (Some self.new.history) }
        ensures cause { IsErr result → Rose self.old.disk_faults self.new.disk_faults }
        ensures count { self.old.disk_faults ≤ self.new.disk_faults }
        ensures sink { self.new.sink_faults ≡ self.old.sink_faults }
        ensures planned { IsTrue (fails_next self.old) → IsErr result }
        ensures only { IsErr result → (fails_next self.old ≡ true) ⊎ (self.new.allocation_failed ≡ true) }
        ensures never { self.old.fails ≡ Never → IsErr result → IsTrue self.new.allocation_failed }
        ensures ok { OnOk result (self.new ≡ did (Cut len true) self.old) }
        ensures err { OnErr result (IsFailed (Cut len false) self.old self.new) }
    {
        let ok = self.disk.count_call();
        if self.contents.cut(len, ok).is_err() {
            self.disk.count_fault();
            self.allocation_failed = true;
            return Err(Failed);
        }
        if !ok {
            self.disk.count_fault();
            return Err(Failed);
        }
        Ok(())
    }

    fn sync(&mut self) -> Result<(), Failed>
        ensures content { OnOk result (self.new.history.disk ≡ self.old.history.disk) }
        ensures history { IfKnown (Synced (is_ok result)) (Some self.old.history) (Some self.new.history) }
        ensures cause { IsErr result → Rose self.old.disk_faults self.new.disk_faults }
        ensures count { self.old.disk_faults ≤ self.new.disk_faults }
        ensures sink { self.new.sink_faults ≡ self.old.sink_faults }
        ensures planned { IsTrue (fails_next self.old) → IsErr result }
        ensures only { IsErr result → (fails_next self.old ≡ true) ⊎ (self.new.allocation_failed ≡ true) }
        ensures never { self.old.fails ≡ Never → IsErr result → IsTrue self.new.allocation_failed }
        ensures ok { OnOk result (self.new ≡ did (Sync true) self.old) }
        ensures err { OnErr result (IsFailed (Sync false) self.old self.new) }
    {
        let ok = self.disk.count_call();
        if self.contents.keep(Call::Sync { ok }).is_err() {
            self.disk.count_fault();
            self.allocation_failed = true;
            return Err(Failed);
        }
        if !ok {
            self.disk.count_fault();
            return Err(Failed);
        }
        Ok(())
    }

    fn emit(&mut self, to: Stream, bytes: &[u8]) -> Result<usize, Failed>
        ensures some { IfOk result (λ n. 0 < length bytes.now → 0 < n) }
        ensures within { IfOk result (λ n. n ≤ length bytes.now) }
        ensures taken { IfOk result (λ n. n ≡ min self.old.piece (length bytes.now)) }
        ensures history { IfKnown (Emitted to bytes.now result) (Some self.old.history) (Some self.new.history) }
        ensures cause { IsErr result → Rose self.old.sink_faults self.new.sink_faults }
        ensures count { self.old.sink_faults ≤ self.new.sink_faults }
        ensures disk { self.new.disk_faults ≡ self.old.disk_faults }
        ensures planned { IsTrue (emit_fails_next self.old) → IsErr result }
        ensures only { IsErr result → (emit_fails_next self.old ≡ true) ⊎ (self.new.allocation_failed ≡ true) }
        ensures never { self.old.sink_fails ≡ Never → IsErr result → IsTrue self.new.allocation_failed }
        ensures ok { OnOk result (self.new ≡ did_emit (Emit to bytes.now (min self.old.piece (length bytes.now)) true) self.old) }
        ensures err { OnErr result (IsFailedEmit (Emit to bytes.now 0 false) self.old self.new) }
    {
        let ok = self.sink.count_call();
        let taken = if ok {
            bytes.len().min(self.piece as usize)
        } else {
            0
        };
        if self.contents.emit(to, bytes, taken, ok).is_err() {
            self.sink.count_fault();
            self.allocation_failed = true;
            return Err(Failed);
        }
        if !ok {
            self.sink.count_fault();
            return Err(Failed);
        }
        Ok(taken)
    }
}
