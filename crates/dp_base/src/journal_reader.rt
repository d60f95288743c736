//! Readers of the journal's bytes. Each reads one value at the start, as `specs/Journal.antt` accepts it, and returns
//! the bytes after it. They take no memory.

ghost use Rattle.std.specs.Prelude.{◌≡◌, ℕ, List, option_map, is_some};
ghost use Rattle.dp_base.specs.Journal.{answer_at, clock_at, epoch_body_at, many_at, read_at, slice_at, steps_of};
ghost use Rattle.dp_base.specs.Encoding.{whole};
ghost use Rattle.dp_base.specs.View.{answer_of_view};

use crate::journal_writer::{CLOCK_KIND, EPOCH_KIND, READ_KIND};
use crate::limits::{MAX_CALL_BYTES, MAX_EPOCH_STEPS};
use crate::little_endian::{read_bytes, read_u8, read_u16, read_u32, read_u64};
use crate::{AnswerView, Slice, Tid};

/// Returns the slice at the start and the bytes after it. Returns `None` if there are fewer than 6 bytes, or if the
/// thread or the number of steps is 0.
#[tactic(auto, unfolding(crate::specs::Journal::slice_at))]
pub fn read_slice(bytes: &[u8]) -> Option<(Slice, &[u8])>
    ensures { option_map (λ x. (x.0, x.1.now)) result ≡ slice_at bytes.now }
{
    let (tid, rest) = read_u16(bytes)?;
    let (steps, rest) = read_u32(rest)?;
    if tid > 0 && steps > 0 {
        let tid = Tid(tid);
        Some((Slice { tid, steps }, rest))
    } else {
        None
    }
}

/// Returns the answer at the start and the bytes after it. Returns `None` if it isn't there whole, if its kind isn't
/// known, or if it is a read of more than 4,096 bytes.
#[tactic(auto, unfolding(crate::specs::Journal::answer_at))]
pub fn read_answer(bytes: &[u8]) -> Option<(AnswerView<'_>, &[u8])>
    ensures { option_map (λ x. (answer_of_view x.0, x.1.now)) result ≡ answer_at bytes.now }
{
    let (kind, rest) = read_u8(bytes)?;
    if kind == READ_KIND {
        read_input(rest)
    } else if kind == CLOCK_KIND {
        read_clock(rest)
    } else {
        None
    }
}

// The bytes of a read, after its kind.
#[tactic(auto, unfolding(crate::specs::Journal::read_at))]
fn read_input(bytes: &[u8]) -> Option<(AnswerView<'_>, &[u8])>
    ensures { option_map (λ x. (answer_of_view x.0, x.1.now)) result ≡ read_at bytes.now }
{
    let (size, rest) = read_u16(bytes)?;
    let (taken, rest) = read_bytes(rest, usize::from(size))?;
    if u32::from(size) <= MAX_CALL_BYTES {
        Some((AnswerView::Read(taken), rest))
    } else {
        None
    }
}

// A reading of the clock, after its kind.
#[tactic(auto, unfolding(crate::specs::Journal::clock_at))]
fn read_clock(bytes: &[u8]) -> Option<(AnswerView<'_>, &[u8])>
    ensures { option_map (λ x. (answer_of_view x.0, x.1.now)) result ≡ clock_at bytes.now }
{
    let (reading, rest) = read_u64(bytes)?;
    Some((AnswerView::Clock(reading), rest))
}

/// Returns whether the bytes are the body of an epoch's record, and no byte more.
pub fn is_epoch_body(bytes: &[u8]) -> bool
    ensures { result ≡ is_some (whole epoch_body_at bytes.now) }
{
    match skip_epoch_body(bytes) {
        Some(rest) => rest.is_empty(),
        None => false,
    }
}

// The bytes after the body of an epoch.
#[tactic(auto, unfolding(crate::specs::Journal::epoch_body_at))]
fn skip_epoch_body(bytes: &[u8]) -> Option<&[u8]>
    ensures { option_map (λ x. x.now) result ≡ option_map (λ x. x.1) (epoch_body_at bytes.now) }
{
    let (kind, rest) = read_u8(bytes)?;
    let (slice_count, rest) = read_u32(rest)?;
    let (steps, rest) = skip_slices(slice_count, rest)?;
    let (answer_count, rest) = read_u32(rest)?;
    let rest = skip_answers(answer_count, rest)?;
    if kind == EPOCH_KIND && slice_count > 0 && steps <= u64::from(MAX_EPOCH_STEPS) {
        Some(rest)
    } else {
        None
    }
}

/// Returns how many steps the first `count` slices have together, and the bytes after them. Returns `None` if one of
/// them isn't there whole, or if its thread or number of steps is 0.
pub fn skip_slices(count: u32, bytes: &[u8]) -> Option<(u64, &[u8])>
    ensures { option_map {U = ℕ × List ℕ} (λ x. (x.0, x.1.now)) result
        ≡ option_map (λ x. (steps_of x.0, x.1)) (many_at slice_at count bytes.now) }
{
    let mut steps = 0;
    let mut rest = bytes;
    'slices: for _index in 0..count {
        let (slice, behind) = read_slice(rest)?;
        steps += u64::from(slice.steps);
        rest = behind;
    }
    Some((steps, rest))
}

// The bytes after this many answers.
fn skip_answers(count: u32, bytes: &[u8]) -> Option<&[u8]>
    ensures { option_map (λ x. x.now) result ≡ option_map (λ x. x.1) (many_at answer_at count bytes.now) }
{
    let mut rest = bytes;
    'answers: for _index in 0..count {
        let (_, behind) = read_answer(rest)?;
        rest = behind;
    }
    Some(rest)
}
