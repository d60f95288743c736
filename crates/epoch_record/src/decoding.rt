// The body of a record becomes its epoch.
ghost use Rattle.std.specs.Prelude.{◌≡◌, IfOk, option_map, nat_le};
ghost use Rattle.dp_base.specs.Encoding.{whole};
ghost use Rattle.dp_base.specs.Journal.{answer_at, epoch_body_at, many_at, slice_at, steps_of};
ghost use Rattle.dp_base.specs.View.{answer_of_view};
ghost use Rattle.epoch_record.specs.Epoch.{epoch_of};

use crate::epoch::Epoch;
use dp_base::journal_reader::{read_answer, read_slice};
use dp_base::journal_writer::EPOCH_KIND;
use dp_base::limits::MAX_EPOCH_STEPS;
use dp_base::little_endian::{read_u8, read_u32};
use dp_base::{Answer, AnswerView, Bytes, OutOfMemory, Slice};
use slice_log::SliceLog;
use std::alloc::Global;
use syscall_log::AnswerLog;

/// Returns the epoch whose record has this body. Returns `None` exactly if no epoch's record has it, also if a byte is
/// left.
pub fn decode(alloc: Global, body: &[u8]) -> Result<Option<Epoch>, OutOfMemory>
    ensures { IfOk result (λ found. option_map epoch_of found ≡ whole epoch_body_at body.now) }
{
    match read_epoch(alloc, body)? {
        Some((epoch, rest)) => {
            if rest.is_empty() {
                Ok(Some(epoch))
            } else {
                Ok(None)
            }
        }
        None => Ok(None),
    }
}

// The epoch whose body is at the start, and the bytes after it.
#[tactic(auto, unfolding(dp_base::specs::Journal::epoch_body_at))]
fn read_epoch(alloc: Global, bytes: &[u8]) -> Result<Option<(Epoch, &[u8])>, OutOfMemory>
    ensures { IfOk result (λ found. option_map (λ x. (epoch_of x.0, x.1.now)) found ≡ epoch_body_at bytes.now) }
{
    let Some((kind, rest)) = read_u8(bytes) else {
        return Ok(None);
    };
    let Some((slice_count, rest)) = read_u32(rest) else {
        return Ok(None);
    };
    let Some((slices, rest)) = read_slices(alloc, slice_count, rest)? else {
        return Ok(None);
    };
    let Some((answer_count, rest)) = read_u32(rest) else {
        return Ok(None);
    };
    let Some((answers, rest)) = read_answers(alloc, answer_count, rest)? else {
        return Ok(None);
    };
    if kind == EPOCH_KIND && slice_count > 0 && has_few_steps(slices.as_slice()) {
        Ok(Some((Epoch { slices, answers }, rest)))
    } else {
        Ok(None)
    }
}

// The first `count` slices, and the bytes after them.
fn read_slices(
    alloc: Global,
    count: u32,
    bytes: &[u8],
) -> Result<Option<(SliceLog, &[u8])>, OutOfMemory>
    ensures { IfOk result (λ found. option_map (λ x. (x.0, x.1.now)) found ≡ many_at slice_at count bytes.now) }
{
    let mut slices = SliceLog::new(alloc);
    let mut rest = bytes;
    'slices: for _index in 0..count {
        let Some((slice, behind)) = read_slice(rest) else {
            return Ok(None);
        };
        slices.put(slice)?;
        rest = behind;
    }
    Ok(Some((slices, rest)))
}

// The first `count` answers, and the bytes after them.
fn read_answers(
    alloc: Global,
    count: u32,
    bytes: &[u8],
) -> Result<Option<(AnswerLog, &[u8])>, OutOfMemory>
    ensures { IfOk result (λ found. option_map (λ x. (x.0, x.1.now)) found ≡ many_at answer_at count bytes.now) }
{
    let mut answers = AnswerLog::new(alloc);
    let mut rest = bytes;
    'answers: for _index in 0..count {
        let Some((view, behind)) = read_answer(rest) else {
            return Ok(None);
        };
        answers.put(owned(alloc, view)?)?;
        rest = behind;
    }
    Ok(Some((answers, rest)))
}

// The answer, with a copy of the bytes that it lends.
fn owned(alloc: Global, view: AnswerView<'_>) -> Result<Answer, OutOfMemory>
    ensures { IfOk result (λ answer. answer ≡ answer_of_view view.entry) }
{
    match view {
        AnswerView::Read(bytes) => Ok(Answer::Read(Bytes::from_vec(bytes.to_vec(alloc)?))),
        AnswerView::Clock(reading) => Ok(Answer::Clock(reading)),
    }
}

// Whether slices have no more steps together than an epoch may have.
fn has_few_steps(slices: &[Slice]) -> bool
    ensures { result ≡ nat_le (steps_of slices.now) MAX_EPOCH_STEPS }
{
    let mut left = MAX_EPOCH_STEPS;
    for slice in slices {
        if slice.steps > left {
            return false;
        }
        left -= slice.steps;
    }
    true
}
