// Reads and writes that go on if a signal interrupts them, if they would block, or if only a part was done. What is
// said of bytes holds if they are known: those of a system's own file aren't.
ghost use Rattle.std.specs.Prelude.{◌≡◌, ◌<◌, ◌≤◌, IfOk, OnErr, OnOk, length, drop, take};
ghost use Rattle.std.specs.Io.KnownBytes.{Appends, Consumes, IsAtEnd, ReadConsumes, WriteAppends};
ghost use Rattle.dp_real.specs.Transfer.{AppendsStart, ConsumesStart};

use std::io::{self, ErrorKind, Read, Write};
use std::thread;
use std::time::{Clock, Duration};

/// How often signals may interrupt one read or write. The last interrupt is its failure.
pub const MAX_INTERRUPTS: u32 = 1000;

// How long to wait, in milliseconds, before a stream that would block is tried again.
const WAIT_MILLIS: u64 = 1;

// Bytes that one read into the start of a buffer gives at most: as many as a round takes.
const PIECE_BYTES: usize = 65_536;

// What follows a read or write that failed. Returns the number of interrupts with this one, and waits first if the
// stream would block. `None` if the call isn't to be tried again.
fn interrupts_so_far<C: Clock>(clock: &C, before: u32, error: &io::Error) -> Option<u32> {
    match error.kind() {
        ErrorKind::WouldBlock => {
            thread::sleep(clock, Duration::from_millis(WAIT_MILLIS));
            Some(before)
        }
        ErrorKind::Interrupted if before < MAX_INTERRUPTS - 1 => Some(before + 1),
        _ => None,
    }
}

/// One read. Returns how many bytes were given. 0 in a buffer that isn't empty is the reader's end.
pub(crate) fn read_some<C: Clock, R: Read>(
    clock: &C,
    reader: &mut R,
    buf: &mut [u8],
) -> io::Result<usize>
    ensures within { IfOk result (λ n. n ≤ length buf.old) }
    ensures bytes { ReadConsumes (R.remaining reader.old) (R.remaining reader.new) result buf.new }
{
    let mut interrupts = 0;
    'tries: for _ in 0..u64::MAX {
        match reader.read(buf) {
            Ok(count) => return Ok(count),
            Err(error) => match interrupts_so_far(clock, interrupts, &error) {
                Some(count) => interrupts = count,
                None => return Err(error),
            },
        }
    }
    Err(ErrorKind::TimedOut.into())
}

/// Reads at most 65,536 bytes once. The buffer keeps its bytes after those that were given, and all of them if the read
/// fails.
pub(crate) fn read_start<C: Clock, R: Read>(
    clock: &C,
    reader: &mut R,
    buf: &mut [u8],
) -> io::Result<usize>
    ensures within { IfOk result (λ n. n ≤ length buf.old) }
    ensures piece { IfOk result (λ n. n ≤ 65536) }
    ensures kept { OnErr result (buf.new ≡ buf.old) }
    ensures rest { IfOk result (λ n. drop n buf.new ≡ drop n buf.old) }
    ensures bytes { ReadConsumes (R.remaining reader.old) (R.remaining reader.new) result buf.new }
{
    // A reader may write into all of its buffer, whatever it gives.
    let mut piece = [0u8; PIECE_BYTES];
    let room = buf.len().min(PIECE_BYTES);
    let count = read_some(clock, reader, &mut piece[..room])?;
    buf[..count].copy_from_slice(&piece[..count]);
    Ok(count)
}

/// Reads until the buffer is full or the reader is at its end. Returns how many bytes were given. If a read fails, the
/// bytes that were given before it are at the buffer's start, fewer than it has.
pub(crate) fn fill<C: Clock, R: Read>(
    clock: &C,
    reader: &mut R,
    buf: &mut [u8],
) -> io::Result<usize>
    ensures within { IfOk result (λ n. n ≤ length buf.old) }
    ensures bytes { IfOk result (λ n. Consumes (R.remaining reader.old) (R.remaining reader.new) (take n buf.new)) }
    ensures end { IfOk result (λ n. n < length buf.old → IsAtEnd (R.remaining reader.new)) }
    ensures part { OnErr result (ConsumesStart (R.remaining reader.old) (R.remaining reader.new) buf.new) }
{
    let mut done = 0;
    while done < buf.len() {
        let count = read_some(clock, reader, &mut buf[done..])?;
        if count == 0 {
            break;
        }
        done += count;
    }
    Ok(done)
}

/// One write. Returns how many bytes were taken, at least one if there is one.
pub(crate) fn write_some<C: Clock, W: Write>(
    clock: &C,
    writer: &mut W,
    bytes: &[u8],
) -> io::Result<usize>
    ensures some { IfOk result (λ n. 0 < length bytes.now → 0 < n) }
    ensures within { IfOk result (λ n. n ≤ length bytes.now) }
    ensures bytes { WriteAppends (W.contents writer.old) (W.contents writer.new) result bytes.now }
{
    if bytes.is_empty() {
        return Ok(0);
    }
    let mut interrupts = 0;
    'tries: for _ in 0..u64::MAX {
        match writer.write(bytes) {
            Ok(0) => return Err(ErrorKind::WriteZero.into()),
            Ok(count) => return Ok(count),
            Err(error) => match interrupts_so_far(clock, interrupts, &error) {
                Some(count) => interrupts = count,
                None => return Err(error),
            },
        }
    }
    Err(ErrorKind::TimedOut.into())
}

/// Writes all of the bytes. If a write fails, the first of them were written, or none, and not all.
pub(crate) fn write_whole<C: Clock, W: Write>(
    clock: &C,
    writer: &mut W,
    bytes: &[u8],
) -> io::Result<()>
    ensures whole { OnOk result (Appends (W.contents writer.old) (W.contents writer.new) bytes.now) }
    ensures part { OnErr result (AppendsStart (W.contents writer.old) (W.contents writer.new) bytes.now) }
{
    let mut done = 0;
    while done < bytes.len() {
        done += write_some(clock, writer, &bytes[done..])?;
    }
    Ok(())
}
