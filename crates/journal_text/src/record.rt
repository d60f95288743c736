// The record at a gate.
ghost use Rattle.std.specs.Prelude.{◌≡◌, ◌≤◌, ◌<◌, is_some, length, option_map};
ghost use Rattle.journal_text.specs.Reading.{first_bytes};
ghost use Rattle.journal_text.specs.Records.{fitting_at, mark_in};
ghost use Rattle.journal_text.specs.View.{IsNextRecord};

use crate::read_limit::first_bytes;
use dp_base::journal_reader::is_epoch_body;
use dp_base::journal_writer::{MARK_KIND, OPEN_GATE};
use dp_base::limits::MAX_BODY_BYTES;
use dp_base::little_endian::{read_bytes, read_u8, read_u32};
use guest_state::is_checkpoint;
use partial_mark::is_partial;

/// The record at a gate.
#[derive(Clone, Copy, Debug, PartialEq, Eq)]
pub enum Rec<'a> {
    /// An epoch: the whole body of its record, and the place of the next gate.
    Epoch { body: &'a [u8], next: u64 },
    /// A full mark: the whole body of its record, and the place of the next gate.
    Mark { body: &'a [u8], next: u64 },
    /// A partial mark: the whole body of its record, and the place of the next gate.
    Partial { body: &'a [u8], next: u64 },
    /// The journal ends here.
    End { at: u64 },
    /// A whole body that no record has.
    Bad,
}

/// Returns the record whose gate is at the offset `at` of the file. The journal ends there if the gate isn't open, or
/// if the record's length or body isn't there whole within the first 2^30 bytes. It also ends at each offset after
/// these bytes.
pub fn next_record(bytes: &[u8], at: u64) -> Rec<'_>
    ensures { IsNextRecord (first_bytes bytes.now) at result }
{
    let file = first_bytes(bytes);
    if at >= file.len() as u64 {
        return Rec::End { at };
    }
    match fitting(&file[at as usize..]) {
        Some((body, rest)) => {
            let next = (file.len() - rest.len()) as u64;
            if body.len() > MAX_BODY_BYTES as usize {
                return Rec::Bad;
            }
            if is_epoch_body(body) {
                Rec::Epoch { body, next }
            } else if is_mark_body(body) {
                Rec::Mark { body, next }
            } else if is_partial(body) {
                Rec::Partial { body, next }
            } else {
                Rec::Bad
            }
        }
        None => Rec::End { at },
    }
}

// The body that follows the gate and the length at the start, and the bytes after it.
#[tactic(auto, unfolding(crate::specs::Records::fitting_at))]
fn fitting(bytes: &[u8]) -> Option<(&[u8], &[u8])>
    ensures { option_map (λ x. (x.0.now, x.1.now)) result ≡ fitting_at bytes.now }
{
    let (gate, rest) = read_u8(bytes)?;
    let (size, rest) = read_u32(rest)?;
    let (body, rest) = read_bytes(rest, size as usize)?;
    if gate == OPEN_GATE {
        Some((body, rest))
    } else {
        None
    }
}

// Whether the bytes are the body of a full mark's record, and no byte more.
#[tactic(auto, unfolding(crate::specs::Records::mark_in))]
fn is_mark_body(bytes: &[u8]) -> bool
    ensures { result ≡ is_some (mark_in bytes.now) }
{
    match read_u8(bytes) {
        Some((kind, state)) => kind == MARK_KIND && is_checkpoint(state),
        None => false,
    }
}
