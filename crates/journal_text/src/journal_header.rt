// Whether a file is a journal.
ghost use Rattle.std.specs.Prelude.{◌≡◌, ℕ, List, length, option_map};
ghost use Rattle.dp_base.specs.Journal.{header_at};
ghost use Rattle.journal_text.specs.Reading.{first_bytes};
ghost use Rattle.journal_text.specs.View.{IsHead};

use crate::read_limit::first_bytes;
use dp_base::journal_writer::OPEN_GATE;
use dp_base::little_endian::{read_bytes, read_u8, read_u32};

/// What a file starts with.
#[derive(Clone, Copy, Debug, PartialEq, Eq)]
pub enum Head {
    /// A journal's header, with a guest of this many bytes.
    Whole { guest_len: u32 },
    /// No header of a journal: the file is empty, of another format, or its header was never finished.
    NoJournal,
}

/// Returns what the file starts with. A header that ends past the first 2^30 bytes is none.
pub fn header(bytes: &[u8]) -> Head
    ensures { IsHead (header_at (first_bytes bytes.now)) result }
{
    match guest_size(first_bytes(bytes)) {
        Some(guest_len) => Head::Whole { guest_len },
        None => Head::NoJournal,
    }
}

// The length of the guest in the header at the start.
#[tactic(auto, unfolding(dp_base::specs::Journal::header_at))]
fn guest_size(bytes: &[u8]) -> Option<u32>
    ensures { result ≡ option_map (λ h. length h.0) (header_at bytes.now) }
{
    let (gate, rest) = read_u8(bytes)?;
    let (word, rest) = read_bytes(rest, 4)?;
    let (size, rest) = read_u32(rest)?;
    let (_guest, _rest) = read_bytes(rest, size as usize)?;
    if gate == OPEN_GATE && word == b"DPJ1".as_slice() {
        Some(size)
    } else {
        None
    }
}
