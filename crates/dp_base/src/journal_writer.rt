//! The plain writers of the journal's bytes: each adds at the end the encoding of `specs/Journal.antt`. If memory runs
//! out, what was there is still a prefix, and a caller cuts off the rest or drops all.

ghost use Rattle.std.specs.Prelude.{◌≡◌, ◌++◌, ◌<◌, ◌≤◌, ◌^◌, length, OnOk, OnErr};
ghost use Rattle.std.specs.List.{flat_map, AllByRecursion};
ghost use Rattle.byteorder.specs.Endian.{little_bytes};
ghost use Rattle.dp_base.specs.Journal.{Epoch, IsAnswer, IsEpoch, header_body, frame, slice, answer, epoch_body};
ghost use Rattle.dp_base.specs.Encoding.{IsPrefixOf};

use crate::limits::MAX_BODY_BYTES;
use crate::little_endian::{write_bytes, write_u8, write_u16, write_u32, write_u64};
use crate::{Answer, OutOfMemory, Slice};

/// Before a header or a record that counts.
pub const OPEN_GATE: u8 = 1;

/// After the last record that counts: nothing from here on does.
pub const CLOSED_GATE: u8 = 0;

/// The first byte of an epoch's body.
pub const EPOCH_KIND: u8 = 0;

/// The first byte of a full mark's body.
pub const MARK_KIND: u8 = 1;

/// The first byte of a partial mark's body.
pub const PARTIAL_KIND: u8 = 2;

/// The first byte of an answer to a read.
pub const READ_KIND: u8 = 0;

/// The first byte of an answer to a call of the clock.
pub const CLOCK_KIND: u8 = 1;

/// Appends what follows the header's gate: the format's name, the guest file's length and the guest file.
pub fn write_header_body(out: &mut Vec<u8>, guest: &[u8]) -> Result<(), OutOfMemory>
    requires { length guest.now < 2 ^ 32 }
    ensures added { OnOk result (out.new.items ≡ out.old.items ++ header_body guest.now) }
    ensures kept { OnErr result (IsPrefixOf out.old.items out.new.items) }
{
    write_bytes(out, b"DPJ1")?;
    write_u32(out, guest.len() as u32)?;
    write_bytes(out, guest)?;
    Ok(())
}

/// Appends what follows a record's gate: its length, its body and the closed gate of the next record.
pub fn write_frame(out: &mut Vec<u8>, body: &[u8]) -> Result<(), OutOfMemory>
    requires some { 0 < length body.now }
    requires few { length body.now ≤ MAX_BODY_BYTES }
    ensures added { OnOk result (out.new.items ≡ out.old.items ++ frame body.now) }
    ensures kept { OnErr result (IsPrefixOf out.old.items out.new.items) }
{
    write_u32(out, body.len() as u32)?;
    write_bytes(out, body)?;
    write_u8(out, CLOSED_GATE)?;
    Ok(())
}

/// Appends the body of an epoch's record: its kind, its slices after their count, and its answers after theirs.
pub fn write_epoch_body(
    out: &mut Vec<u8>,
    slices: &[Slice],
    answers: &[Answer],
) -> Result<(), OutOfMemory>
    requires { IsEpoch (record { slices = slices.now; answers = answers.now }) }
    ensures added { OnOk result (out.new.items
        ≡ out.old.items ++ epoch_body (record { slices = slices.now; answers = answers.now })) }
    ensures kept { OnErr result (IsPrefixOf out.old.items out.new.items) }
{
    write_u8(out, EPOCH_KIND)?;
    write_slices(out, slices)?;
    write_answers(out, answers)?;
    Ok(())
}

fn write_slices(out: &mut Vec<u8>, slices: &[Slice]) -> Result<(), OutOfMemory>
    requires { length slices.now < 2 ^ 32 }
    ensures added { OnOk result (out.new.items
        ≡ out.old.items ++ (little_bytes 4 (length slices.now) ++ flat_map slice slices.now)) }
    ensures kept { OnErr result (IsPrefixOf out.old.items out.new.items) }
{
    write_u32(out, slices.len() as u32)?;
    for turns in slices {
        write_slice(out, turns)?;
    }
    Ok(())
}

fn write_slice(out: &mut Vec<u8>, turns: &Slice) -> Result<(), OutOfMemory>
    ensures added { OnOk result (out.new.items ≡ out.old.items ++ slice turns.now) }
    ensures kept { OnErr result (IsPrefixOf out.old.items out.new.items) }
{
    write_u16(out, turns.tid.0)?;
    write_u32(out, turns.steps)?;
    Ok(())
}

fn write_answers(out: &mut Vec<u8>, answers: &[Answer]) -> Result<(), OutOfMemory>
    requires few { length answers.now < 2 ^ 32 }
    requires fit { AllByRecursion IsAnswer answers.now }
    ensures added { OnOk result (out.new.items
        ≡ out.old.items ++ (little_bytes 4 (length answers.now) ++ flat_map answer answers.now)) }
    ensures kept { OnErr result (IsPrefixOf out.old.items out.new.items) }
{
    write_u32(out, answers.len() as u32)?;
    for given in answers {
        write_answer(out, given)?;
    }
    Ok(())
}

fn write_answer(out: &mut Vec<u8>, given: &Answer) -> Result<(), OutOfMemory>
    requires { IsAnswer given.now }
    ensures added { OnOk result (out.new.items ≡ out.old.items ++ answer given.now) }
    ensures kept { OnErr result (IsPrefixOf out.old.items out.new.items) }
{
    match given {
        Answer::Read(bytes) => write_read(out, bytes.as_slice()),
        Answer::Clock(reading) => write_clock(out, *reading),
    }
}

fn write_read(out: &mut Vec<u8>, bytes: &[u8]) -> Result<(), OutOfMemory>
    requires { length bytes.now < 2 ^ 16 }
    ensures added { OnOk result (out.new.items ≡ out.old.items ++ answer (Answer.Read bytes.now)) }
    ensures kept { OnErr result (IsPrefixOf out.old.items out.new.items) }
{
    write_u8(out, READ_KIND)?;
    write_u16(out, bytes.len() as u16)?;
    write_bytes(out, bytes)?;
    Ok(())
}

fn write_clock(out: &mut Vec<u8>, reading: u64) -> Result<(), OutOfMemory>
    ensures added { OnOk result (out.new.items ≡ out.old.items ++ answer (Answer.Clock reading)) }
    ensures kept { OnErr result (IsPrefixOf out.old.items out.new.items) }
{
    write_u8(out, CLOCK_KIND)?;
    write_u64(out, reading)?;
    Ok(())
}
