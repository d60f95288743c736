ghost use Rattle.std.specs.Prelude.{◌≡◌, ◌++◌, decimal, IfOk, OnOk};
ghost use Rattle.std.specs.Int.{bytes_high_first};
ghost use Rattle.hex.specs.Hex.{encode_lower};
ghost use Rattle.dp_report.specs.Texts.{end_text, report_line};

use crate::report::Report;
use dp_base::little_endian::write_bytes;
use dp_base::{OutOfMemory, Tid};
use guest_state::End;
use itoa::Buffer;
use std::alloc::Global;

/// Returns the report's line, its newline included.
///
/// # Errors
///
/// `OutOfMemory` if an allocation failed.
pub fn line(alloc: Global, report: &Report) -> Result<Vec<u8>, OutOfMemory>
    ensures { IfOk result (λ l. l.items ≡ report_line report.now) }
{
    let mut line = Vec::new(alloc);
    write_bytes(&mut line, b"epochs ")?;
    write_decimal(&mut line, report.epochs as u64)?;
    write_bytes(&mut line, b" squashes ")?;
    write_decimal(&mut line, report.squashes as u64)?;
    write_bytes(&mut line, b" steps ")?;
    write_decimal(&mut line, report.steps)?;
    write_bytes(&mut line, b" sent ")?;
    write_decimal(&mut line, report.sent)?;
    write_bytes(&mut line, b" end ")?;
    write_end(&mut line, report.end)?;
    write_bytes(&mut line, b" state ")?;
    write_bytes(&mut line, &digest_digits(&report.state))?;
    write_bytes(&mut line, b"\n")?;
    Ok(line)
}

fn write_decimal(out: &mut Vec<u8>, number: u64) -> Result<(), OutOfMemory>
    ensures added { OnOk result (out.new.items ≡ out.old.items ++ decimal number) }
{
    let mut digits = Buffer::new();
    write_bytes(out, digits.format(number).as_bytes())
}

fn write_end(out: &mut Vec<u8>, end: End) -> Result<(), OutOfMemory>
    ensures added { OnOk result (out.new.items ≡ out.old.items ++ end_text end) }
{
    match end {
        End::None => write_bytes(out, b"none"),
        End::Exit(code) => write_exit(out, code),
        End::Trap { tid, cause, value } => write_trap(out, tid, cause, value),
        End::Deadlock => write_bytes(out, b"deadlock"),
    }
}

fn write_exit(out: &mut Vec<u8>, code: u32) -> Result<(), OutOfMemory>
    ensures added { OnOk result (out.new.items ≡ out.old.items ++ end_text (End.Exit code)) }
{
    write_bytes(out, b"exit ")?;
    write_decimal(out, code as u64)
}

fn write_trap(out: &mut Vec<u8>, tid: Tid, cause: u8, value: u32) -> Result<(), OutOfMemory>
    ensures added { OnOk result (out.new.items ≡ out.old.items ++ end_text (End.Trap tid cause value)) }
{
    write_bytes(out, b"trap ")?;
    write_decimal(out, cause as u64)?;
    write_bytes(out, b" thread ")?;
    write_decimal(out, tid.0 as u64)?;
    write_bytes(out, b" value ")?;
    write_bytes(out, &word_digits(value))
}

// A word's hex digits, its highest byte first.
fn word_digits(word: u32) -> [u8; 8]
    ensures { result ≡ encode_lower (bytes_high_first 4 word) }
{
    let mut digits = [0; 8];
    let _ = hex::encode_to_slice(word.to_be_bytes(), &mut digits);
    digits
}

fn digest_digits(digest: &[u8; 32]) -> [u8; 64]
    ensures { result ≡ encode_lower digest.now }
{
    let mut digits = [0; 64];
    let _ = hex::encode_to_slice(*digest, &mut digits);
    digits
}
