// The outside of a recorder and of a replayer: a disk and two output streams.
ghost use Rattle.std.specs.Prelude.{◌≡◌, ◌<◌, ◌≤◌, ℕ, Option, IsErr, IfOk, OnOk, is_ok, length};
ghost use Rattle.dp_base.specs.Counts.{Rose};
ghost use Rattle.disk_model.specs.History.{History};
ghost use Rattle.disk_model.specs.Known.{known_disk, IfKnown, IsLength, IsWritten};
ghost use Rattle.disk_model.specs.Steps.{IsRead, Wrote, Truncated, Synced, Emitted};

/// The answer of a call that didn't do its work.
#[derive(Clone, Copy, Debug, PartialEq, Eq)]
pub struct Failed;

/// The stream of an emit.
#[derive(Clone, Copy, Debug, PartialEq, Eq)]
pub enum Stream {
    /// What the guest writes.
    Out,
    /// What the program says of itself.
    Note,
}

/// A disk, which is one row of bytes, and two output streams.
///
/// A call that answers `Failed` may have done any part of its work. Its clause `history` says what may hold after it.
pub trait World {
    /// What is known of the disk, of what was sent, and of each moment so far. Of a real world nothing is known.
    ghost history: { Self → Option History };

    /// How often a call on the disk has failed. The count stops at 2^64 - 1.
    ghost disk_faults: { Self → ℕ };

    /// How often an emit has failed. The count stops at 2^64 - 1.
    ghost sink_faults: { Self → ℕ };

    /// Names the file that the other calls mean. With `make` it is made if there is none.
    ///
    /// # Errors
    ///
    /// `Failed` if the file can't be opened, also if `make` is false and there is none.
    fn attach(&mut self, name: &str, make: bool) -> Result<(), Failed>
        ensures history { history self.new ≡ history self.old }
        ensures cause { IsErr result → Rose (disk_faults self.old) (disk_faults self.new) }
        ensures count { disk_faults self.old ≤ disk_faults self.new }
        ensures sink { sink_faults self.new ≡ sink_faults self.old };

    /// Returns how many bytes the disk has.
    fn len(&mut self) -> Result<u64, Failed>
        ensures length { IfOk result (λ n. IsLength (known_disk (history self.old)) n) }
        ensures history { history self.new ≡ history self.old }
        ensures none { OnOk result (disk_faults self.new ≡ disk_faults self.old) }
        ensures cause { IsErr result → Rose (disk_faults self.old) (disk_faults self.new) }
        ensures count { disk_faults self.old ≤ disk_faults self.new }
        ensures sink { sink_faults self.new ≡ sink_faults self.old };

    /// Reads bytes from offset `at` on into the start of the buffer. Returns how many: as many as the buffer holds and
    /// the disk has, 0 past the end.
    fn read_at(&mut self, at: u64, buf: &mut [u8]) -> Result<usize, Failed>
        ensures read { IfOk result (λ n. IsRead (known_disk (history self.old)) at buf.old buf.new n) }
        ensures within { IfOk result (λ n. n ≤ length buf.old) }
        ensures history { history self.new ≡ history self.old }
        ensures none { OnOk result (disk_faults self.new ≡ disk_faults self.old) }
        ensures cause { IsErr result → Rose (disk_faults self.old) (disk_faults self.new) }
        ensures count { disk_faults self.old ≤ disk_faults self.new }
        ensures sink { sink_faults self.new ≡ sink_faults self.old };

    /// Writes bytes over those from offset `at` on, and on past the end. What is said of the content holds if `at` is
    /// at most the disk's length. Until a sync succeeds the write is pending: a crash may leave any bytes in its range.
    fn write_at(&mut self, at: u64, bytes: &[u8]) -> Result<(), Failed>
        ensures written { OnOk result (IsWritten (known_disk (history self.old)) at bytes.now
            (known_disk (history self.new))) }
        ensures history { IfKnown (Wrote at bytes.now (is_ok result)) (history self.old) (history self.new) }
        ensures none { OnOk result (disk_faults self.new ≡ disk_faults self.old) }
        ensures cause { IsErr result → Rose (disk_faults self.old) (disk_faults self.new) }
        ensures count { disk_faults self.old ≤ disk_faults self.new }
        ensures sink { sink_faults self.new ≡ sink_faults self.old };

    /// Cuts the disk to a length, in bytes. What is said of the content holds if `len` is at most the disk's length.
    fn cut(&mut self, len: u64) -> Result<(), Failed>
        ensures history { IfKnown (Truncated len (is_ok result)) (history self.old) (history self.new) }
        ensures none { OnOk result (disk_faults self.new ≡ disk_faults self.old) }
        ensures cause { IsErr result → Rose (disk_faults self.old) (disk_faults self.new) }
        ensures count { disk_faults self.old ≤ disk_faults self.new }
        ensures sink { sink_faults self.new ≡ sink_faults self.old };

    /// Waits until all that was written is on the disk. What a read gives stays.
    fn sync(&mut self) -> Result<(), Failed>
        ensures content { OnOk result (known_disk (history self.new) ≡ known_disk (history self.old)) }
        ensures history { IfKnown (Synced (is_ok result)) (history self.old) (history self.new) }
        ensures none { OnOk result (disk_faults self.new ≡ disk_faults self.old) }
        ensures cause { IsErr result → Rose (disk_faults self.old) (disk_faults self.new) }
        ensures count { disk_faults self.old ≤ disk_faults self.new }
        ensures sink { sink_faults self.new ≡ sink_faults self.old };

    /// Sends some of a piece, at least one byte if it isn't empty. Returns how many bytes were taken.
    ///
    /// # Errors
    ///
    /// `Failed` if the stream is broken or takes nothing. Any prefix of the piece may have been sent.
    fn emit(&mut self, to: Stream, bytes: &[u8]) -> Result<usize, Failed>
        ensures some { IfOk result (λ n. 0 < length bytes.now → 0 < n) }
        ensures within { IfOk result (λ n. n ≤ length bytes.now) }
        ensures history { IfKnown (Emitted to bytes.now result) (history self.old) (history self.new) }
        ensures none { OnOk result (sink_faults self.new ≡ sink_faults self.old) }
        ensures cause { IsErr result → Rose (sink_faults self.old) (sink_faults self.new) }
        ensures count { sink_faults self.old ≤ sink_faults self.new }
        ensures disk { disk_faults self.new ≡ disk_faults self.old };
}
