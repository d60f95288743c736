// The ELF header (System V ABI, edition 4.1, chapter 4 "ELF Header").
ghost use Rattle.std.specs.Prelude.{◌≡◌, ◌+◌, ◌*◌, ◌≤◌, false, length};
ghost use Rattle.elf_image.specs.File.{e_phnum, e_phoff};
ghost use Rattle.elf_image.specs.Faults.{has_bad_table, is_not_elf};

use crate::little_endian::{byte_at, half_at, word_at};

const HEADER_BYTES: usize = 52;

const ENTRY_BYTES: u16 = 32;

const MAGIC: [u8; 4] = [0x7f, b'E', b'L', b'F'];

const EV_CURRENT: u8 = 1;

// Offsets of the header's fields.
pub(crate) const EI_CLASS: usize = 4;

pub(crate) const EI_DATA: usize = 5;

const EI_VERSION: usize = 6;

pub(crate) const E_TYPE: usize = 16;

pub(crate) const E_MACHINE: usize = 18;

const E_VERSION: usize = 20;

pub(crate) const E_ENTRY: usize = 24;

pub(crate) const E_PHOFF: usize = 28;

const E_PHENTSIZE: usize = 42;

pub(crate) const E_PHNUM: usize = 44;

/// Returns whether a file has no ELF header of version 1.
pub(crate) fn is_not_elf(file: &[u8]) -> bool
    ensures answer { result ≡ is_not_elf file.now }
    ensures has_header { result ≡ false → 52 ≤ length file.now }
{
    file.len() < HEADER_BYTES
        || &file[..4] != MAGIC.as_slice()
        || byte_at(file, EI_VERSION) != EV_CURRENT
        || word_at(file, E_VERSION) != u32::from(EV_CURRENT)
}

/// Returns whether the entries of a file's program header table don't have 32 bytes, or the table isn't in the file.
pub(crate) fn has_bad_table(file: &[u8]) -> bool
    requires { 52 ≤ length file.now }
    ensures answer { result ≡ has_bad_table file.now }
    ensures has_table { result ≡ false → e_phoff file.now + 32 * e_phnum file.now ≤ length file.now }
{
    let count = half_at(file, E_PHNUM);
    let end = u64::from(word_at(file, E_PHOFF)) + u64::from(ENTRY_BYTES) * u64::from(count);
    (count > 0 && half_at(file, E_PHENTSIZE) != ENTRY_BYTES) || (file.len() as u64) < end
}
