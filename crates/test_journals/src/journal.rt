// Journals out of bodies.
ghost use Rattle.std.specs.Prelude.{◌≡◌, ◌++◌, IfOk, OnOk, map};
ghost use Rattle.byteorder.specs.Endian.{little_bytes};
ghost use Rattle.dp_base.specs.Journal.{header, length_prefixed, record_of};
ghost use Rattle.test_journals.specs.Bodies.{records_in};

use dp_base::OutOfMemory;
use dp_base::journal_writer::{CLOSED_GATE, OPEN_GATE};
use dp_base::little_endian::{write_bytes, write_u8, write_u32};
use std::alloc::Global;

/// Returns a journal at rest of this guest, whose records have these bodies, whatever they are.
///
/// # Errors
/// No memory, or a guest or a body of 2^32 bytes or more, whose number has no field.
pub fn journal_of(alloc: Global, guest: &[u8], bodies: &[&[u8]]) -> Result<Vec<u8>, OutOfMemory>
    ensures { IfOk result (λ journal. journal.items ≡ header guest.now ++ records_in (map (λ body. body.now) bodies.now)) }
{
    let mut journal = Vec::new(alloc);
    write_bytes(&mut journal, b"\x01DPJ1")?;
    write_counted(&mut journal, guest)?;
    write_records(&mut journal, bodies)?;
    Ok(journal)
}

/// Returns what follows the header of such a journal: the records and the closed gate.
///
/// # Errors
/// The same.
pub fn records_of(alloc: Global, bodies: &[&[u8]]) -> Result<Vec<u8>, OutOfMemory>
    ensures { IfOk result (λ records. records.items ≡ records_in (map (λ body. body.now) bodies.now)) }
{
    let mut records = Vec::new(alloc);
    write_records(&mut records, bodies)?;
    Ok(records)
}

fn write_records(out: &mut Vec<u8>, bodies: &[&[u8]]) -> Result<(), OutOfMemory>
    ensures { OnOk result (out.new.items ≡ out.old.items ++ records_in (map (λ body. body.now) bodies.now)) }
{
    for body in bodies {
        write_record(out, body)?;
    }
    write_u8(out, CLOSED_GATE)
}

fn write_record(out: &mut Vec<u8>, body: &[u8]) -> Result<(), OutOfMemory>
    ensures { OnOk result (out.new.items ≡ out.old.items ++ record_of body.now) }
{
    write_u8(out, OPEN_GATE)?;
    write_counted(out, body)
}

// The bytes after their number.
fn write_counted(out: &mut Vec<u8>, bytes: &[u8]) -> Result<(), OutOfMemory>
    ensures { OnOk result (out.new.items ≡ out.old.items ++ length_prefixed bytes.now) }
{
    let Ok(count) = u32::try_from(bytes.len()) else {
        return Err(OutOfMemory);
    };
    write_u32(out, count)?;
    write_bytes(out, bytes)
}
