// The fields before the threads.
ghost use Rattle.std.specs.Prelude.{◌≡◌, option_map};
ghost use Rattle.partial_mark.specs.Partial.{fields_from};

use dp_base::little_endian::{read_u32, read_u64};
use guest_state::{End, read_end};

/// What a state has besides its threads and pages.
#[derive(Clone, Copy)]
pub struct Fields {
    /// The number of turns that were taken.
    pub steps: u64,
    /// The number of bytes of input that were read.
    pub input: u64,
    /// The addresses at which the heap starts and ends.
    pub heap: u32,
    pub brk: u32,
    pub end: End,
}

/// Returns the fields at the start of bytes, and the bytes after them. Returns `None` exactly if the bytes don't start
/// with fields.
#[tactic(auto, unfolding(crate::specs::Partial::fields_from))]
pub fn read_fields(bytes: &[u8]) -> Option<(Fields, &[u8])>
    ensures { option_map (λ x. (x.0, x.1.now)) result ≡ fields_from bytes.now }
{
    let (steps, rest) = read_u64(bytes)?;
    let (input, rest) = read_u64(rest)?;
    let (heap, rest) = read_u32(rest)?;
    let (brk, rest) = read_u32(rest)?;
    let (end, rest) = read_end(rest)?;
    let fields = Fields {
        steps,
        input,
        heap,
        brk,
        end,
    };
    Some((fields, rest))
}
