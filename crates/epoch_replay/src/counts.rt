// What the lines of records say, read from their bodies without memory.
ghost use Rattle.std.specs.Prelude.{◌≡◌, ◌∷◌, Some};
ghost use Rattle.dp_base.specs.Journal.{Epoch, IsEpoch, epoch_body};
ghost use Rattle.guest_state.specs.Checkpoint.{Checkpoint, IsCheckpoint, checkpoint_bytes};
ghost use Rattle.journal_text.specs.Records.{mark_kind};
ghost use Rattle.partial_mark.specs.Partial.{IsPartial, Partial, partial_bytes};
ghost use Rattle.epoch_replay.specs.Counting.{counts_at, epoch_counts, marked_steps_at};

use dp_base::journal_reader::skip_slices;
use dp_base::little_endian::{read_u8, read_u32, read_u64};

/// What an epoch's record holds.
#[derive(Clone, Copy)]
pub(crate) struct EpochCounts {
    pub slices: u32,
    /// The steps of all slices.
    pub steps: u64,
    pub answers: u32,
}

/// Returns what the epoch with this body holds.
pub(crate) fn epoch_counts(body: &[u8]) -> Option<EpochCounts>
    ensures { (e : Epoch) → IsEpoch e → body.now ≡ epoch_body e → result ≡ Some (epoch_counts e) }
{
    count_epoch(body)
}

#[tactic(auto, unfolding(crate::specs::Counting::counts_at))]
fn count_epoch(body: &[u8]) -> Option<EpochCounts>
    ensures { result ≡ counts_at body.now }
{
    let (_kind, rest) = read_u8(body)?;
    let (slices, rest) = read_u32(rest)?;
    let (steps, rest) = skip_slices(slices, rest)?;
    let (answers, _rest) = read_u32(rest)?;
    Some(EpochCounts {
        slices,
        steps,
        answers,
    })
}

/// Returns the step count of the state in the mark with this body, full or partial.
pub(crate) fn marked_steps(body: &[u8]) -> Option<u64>
    ensures full { (c : Checkpoint) → IsCheckpoint c → body.now ≡ mark_kind ∷ checkpoint_bytes c → result ≡ Some c.steps }
    ensures partial { (m : Partial) → IsPartial m → body.now ≡ partial_bytes m → result ≡ Some m.fields.steps }
{
    read_marked_steps(body)
}

#[tactic(auto, unfolding(crate::specs::Counting::marked_steps_at))]
fn read_marked_steps(body: &[u8]) -> Option<u64>
    ensures { result ≡ marked_steps_at body.now }
{
    let (_kind, rest) = read_u8(body)?;
    let (steps, _rest) = read_u64(rest)?;
    Some(steps)
}
