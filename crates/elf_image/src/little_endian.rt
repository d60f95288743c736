// The numbers of a file, each at its offset, lowest byte first.
ghost use Rattle.std.specs.Prelude.{◌≡◌, ◌+◌, ◌<◌, ◌≤◌, length};
ghost use Rattle.elf_image.specs.File.{field};

use byteorder::{ByteOrder, LittleEndian};

/// Returns the byte at an offset.
#[tactic(auto, unfolding(crate::specs::File::field))]
pub(crate) fn byte_at(file: &[u8], offset: usize) -> u8
    requires { offset < length file.now }
    ensures { result ≡ field 1 offset file.now }
{
    file[offset]
}

/// Returns the number in the 2 bytes from an offset on.
#[tactic(auto, unfolding(crate::specs::File::field))]
pub(crate) fn half_at(file: &[u8], offset: usize) -> u16
    requires { offset + 2 ≤ length file.now }
    ensures { result ≡ field 2 offset file.now }
{
    LittleEndian::read_u16(&file[offset..])
}

/// Returns the number in the 4 bytes from an offset on.
#[tactic(auto, unfolding(crate::specs::File::field))]
pub(crate) fn word_at(file: &[u8], offset: usize) -> u32
    requires { offset + 4 ≤ length file.now }
    ensures { result ≡ field 4 offset file.now }
{
    LittleEndian::read_u32(&file[offset..])
}
