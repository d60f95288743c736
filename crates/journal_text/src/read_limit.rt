// How much of a file is read.
ghost use Rattle.std.specs.Prelude.{◌≡◌};
ghost use Rattle.journal_text.specs.Reading.{first_bytes};

use dp_base::limits::MAX_JOURNAL_BYTES;

/// As much of the file as is read.
pub(crate) fn first_bytes(bytes: &[u8]) -> &[u8]
    ensures { result.now ≡ first_bytes bytes.now }
{
    if bytes.len() as u64 <= MAX_JOURNAL_BYTES {
        bytes
    } else {
        &bytes[..MAX_JOURNAL_BYTES as usize]
    }
}
