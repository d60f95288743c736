//! Numbers in bytes, lowest byte first: readers that take from the start, and writers that add at the end.

ghost use Rattle.std.specs.Prelude.{◌≡◌, ◌++◌, OnOk, OnErr, option_map};
ghost use Rattle.byteorder.specs.Endian.{little_bytes};
ghost use Rattle.dp_base.specs.Field.{bytes_at, number_at};

use crate::OutOfMemory;
use byteorder::{ByteOrder, LittleEndian};

/// Returns the first byte and the bytes after it, or `None` if there is no byte.
pub fn read_u8(bytes: &[u8]) -> Option<(u8, &[u8])>
    ensures { option_map (λ x. (x.0, x.1.now)) result ≡ number_at 1 bytes.now }
{
    match bytes {
        [first, rest @ ..] => Some((*first, rest)),
        [] => None,
    }
}

/// Returns the number in the first 2 bytes and the bytes after them, or `None` if there are fewer.
pub fn read_u16(bytes: &[u8]) -> Option<(u16, &[u8])>
    ensures { option_map (λ x. (x.0, x.1.now)) result ≡ number_at 2 bytes.now }
{
    if bytes.len() < 2 {
        return None;
    }
    Some((LittleEndian::read_u16(bytes), &bytes[2..]))
}

/// Returns the number in the first 4 bytes and the bytes after them, or `None` if there are fewer.
pub fn read_u32(bytes: &[u8]) -> Option<(u32, &[u8])>
    ensures { option_map (λ x. (x.0, x.1.now)) result ≡ number_at 4 bytes.now }
{
    if bytes.len() < 4 {
        return None;
    }
    Some((LittleEndian::read_u32(bytes), &bytes[4..]))
}

/// Returns the number in the first 8 bytes and the bytes after them, or `None` if there are fewer.
pub fn read_u64(bytes: &[u8]) -> Option<(u64, &[u8])>
    ensures { option_map (λ x. (x.0, x.1.now)) result ≡ number_at 8 bytes.now }
{
    if bytes.len() < 8 {
        return None;
    }
    Some((LittleEndian::read_u64(bytes), &bytes[8..]))
}

/// Returns the first `count` bytes and the bytes after them, or `None` if there are fewer.
pub fn read_bytes(bytes: &[u8], count: usize) -> Option<(&[u8], &[u8])>
    ensures { option_map (λ x. (x.0.now, x.1.now)) result ≡ bytes_at count bytes.now }
{
    if bytes.len() < count {
        return None;
    }
    Some((&bytes[..count], &bytes[count..]))
}

/// Adds bytes at the end, all of them or none.
pub fn write_bytes(out: &mut Vec<u8>, bytes: &[u8]) -> Result<(), OutOfMemory>
    ensures added { OnOk result (out.new.items ≡ out.old.items ++ bytes.now) }
    ensures unchanged { OnErr result (out.new.items ≡ out.old.items) }
{
    match out.extend_from_slice(bytes) {
        Ok(()) => Ok(()),
        Err(_) => Err(OutOfMemory),
    }
}

/// Adds one byte at the end.
pub fn write_u8(out: &mut Vec<u8>, number: u8) -> Result<(), OutOfMemory>
    ensures added { OnOk result (out.new.items ≡ out.old.items ++ little_bytes 1 number) }
    ensures unchanged { OnErr result (out.new.items ≡ out.old.items) }
{
    write_bytes(out, &[number])
}

/// Adds the number's 2 bytes at the end.
pub fn write_u16(out: &mut Vec<u8>, number: u16) -> Result<(), OutOfMemory>
    ensures added { OnOk result (out.new.items ≡ out.old.items ++ little_bytes 2 number) }
    ensures unchanged { OnErr result (out.new.items ≡ out.old.items) }
{
    let mut bytes = [0; 2];
    LittleEndian::write_u16(&mut bytes, number);
    write_bytes(out, &bytes)
}

/// Adds the number's 4 bytes at the end.
pub fn write_u32(out: &mut Vec<u8>, number: u32) -> Result<(), OutOfMemory>
    ensures added { OnOk result (out.new.items ≡ out.old.items ++ little_bytes 4 number) }
    ensures unchanged { OnErr result (out.new.items ≡ out.old.items) }
{
    let mut bytes = [0; 4];
    LittleEndian::write_u32(&mut bytes, number);
    write_bytes(out, &bytes)
}

/// Adds the number's 8 bytes at the end.
pub fn write_u64(out: &mut Vec<u8>, number: u64) -> Result<(), OutOfMemory>
    ensures added { OnOk result (out.new.items ≡ out.old.items ++ little_bytes 8 number) }
    ensures unchanged { OnErr result (out.new.items ≡ out.old.items) }
{
    let mut bytes = [0; 8];
    LittleEndian::write_u64(&mut bytes, number);
    write_bytes(out, &bytes)
}
