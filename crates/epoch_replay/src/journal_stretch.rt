// A stretch of a journal, run on its own.
ghost use Rattle.std.specs.Prelude.{◌≡◌, ◌≤◌, ◌<◌, ◌-◌, ◌^◌, ℕ, List, IfOk, IfSome, IsTrue, Some, length, true};
ghost use Rattle.dp_base.specs.declared.limits.TheConstants.{MAX_JOURNAL_BYTES};
ghost use Rattle.checkpoint.specs.State.{IsEncodable};
ghost use Rattle.epoch_replay.specs.Playing.{IsDigestOf};
ghost use Rattle.epoch_replay.specs.Stretches.{IsAtMark, IsBegun, IsOfJob, IsPartResult, IsStretch, at_next_mark, end_of, start_of};

use crate::epoch::play_epoch;
use crate::mark::{is_right_mark, is_right_partial, open_mark, open_partial};
use checkpoint::digest;
use disk_model::Gate;
use dp_base::OutOfMemory;
use guest_kernel::State;
use journal_text::{Rec, next_record};
use state_compare::equal;
use std::alloc::Global;

// A stretch ends when its output has this many bytes or more.
const MUCH_OUTPUT: usize = 1 << 26;

// No state that a journal reaches has this many steps, or this many bytes of input.
const TOO_MANY: u64 = 1 << 63;

/// What a worker runs: a stretch that has begun.
#[derive(Drop)]
pub(crate) struct PartJob {
    /// Its number among those that run side by side, from 1.
    pub index: u32,
    pub stretch: Stretch,
    /// How many marks it may pass.
    pub marks: u32,
    /// Where the next of them begins. `None` for the last.
    pub next: Option<StretchStart>,
}

/// Where a stretch begins: at a mark's state, over the mark's base.
#[derive(Drop)]
pub(crate) struct StretchStart {
    pub base: State,
    pub state: State,
}

/// A job that was run.
#[derive(Drop)]
pub(crate) struct PartRun {
    pub stretch: Stretch,
    /// Whether the stretch ends where the next one begins. The worker compares them, so that the replay needn't.
    pub meets: bool,
    /// The digest of the state in which the stretch ends, if the journal ends there.
    pub digest: Option<[u8; 32]>,
}

/// A stretch that was run, and its results. It says nothing of what precedes it.
#[derive(Drop)]
pub(crate) struct Stretch {
    /// The gate of its first record.
    pub first: u64,
    /// The base of the mark with which it begins. If it begins with an epoch, this is the same as its start.
    pub base: State,
    /// The state in which it begins.
    pub start: State,
    /// The gate after its last record.
    pub at: u64,
    /// The state at the last mark that it passed, or else its start: the base of the mark after it.
    pub last: State,
    /// The state in which it ends.
    pub state: State,
    /// The output of its epochs, joined.
    pub output: Vec<u8>,
    /// The number of its records, epochs and marks together.
    pub records: u32,
    /// The number of its epochs.
    pub epochs: u32,
}

/// Runs a stretch of the file: its epochs, and as many marks between them as the job may pass, up to the first that is
/// wrong or to a limit of this file. Returns `None` if an epoch can't be run. `None` says nothing of the journal: the
/// replay runs these records itself.
pub(crate) fn run_job<G: Gate>(
    alloc: Global,
    file: &[u8],
    job: PartJob,
    gate: &G,
) -> Result<Option<PartRun>, OutOfMemory>
    requires few { length file.now ≤ MAX_JOURNAL_BYTES }
    requires is { IsStretch file.now job.stretch }
    ensures is { IsPartResult file.now result }
    ensures of_job { IsOfJob job result }
{
    gate.pass(job.index, job.index);
    let PartJob {
        index: _,
        mut stretch,
        marks,
        next,
    } = job;
    // The state is a mark's, or a share.
    stretch.state.take_in_hand()?;
    if !run_parts(alloc, file, marks, &mut stretch)? {
        return Ok(None);
    }
    let meets = begins_at_end(&next, &stretch);
    let digest = last_digest(file, &stretch);
    Ok(Some(PartRun {
        stretch,
        meets,
        digest,
    }))
}

// Runs the epochs at the end of a stretch, and those after so many marks, up to a record that is none of these or to a
// limit of this file. Returns whether each epoch can be run.
fn run_parts(
    alloc: Global,
    file: &[u8],
    marks: u32,
    stretch: &mut Stretch,
) -> Result<bool, OutOfMemory>
    requires few { length file.now ≤ MAX_JOURNAL_BYTES }
    requires is { IsStretch file.now stretch.old }
    ensures is { IfOk result (λ ran. IsTrue ran → IsStretch file.now stretch.new) }
    ensures same { (stretch.new.base ≡ stretch.old.base) × (stretch.new.start ≡ stretch.old.start) }
{
    let mut ran = run_epochs(alloc, file, stretch)?;
    'marks: for _ in 0..marks {
        if !ran || !pass_mark(alloc, file, stretch)? {
            return Ok(ran);
        }
        ran = run_epochs(alloc, file, stretch)?;
    }
    Ok(ran)
}

// Whether there is a next start and it is where this stretch ends.
fn begins_at_end(next: &Option<StretchStart>, stretch: &Stretch) -> bool
    ensures { result ≡ true → next.now ≡ Some (end_of stretch.now) }
{
    match next {
        Some(next) => equal(&next.state, &stretch.state) && equal(&next.base, &stretch.last),
        None => false,
    }
}

// The digest of the state in which a stretch ends, if the journal ends there. The other parts run meanwhile.
fn last_digest(file: &[u8], stretch: &Stretch) -> Option<[u8; 32]>
    requires { IsEncodable stretch.now.state }
    ensures { IsDigestOf stretch.now.state result }
{
    match next_record(file, stretch.at) {
        Rec::End { .. } => Some(digest(&stretch.state)),
        _ => None,
    }
}

/// Begins a stretch at this gate in this state, which is also the base.
pub(crate) fn begin_at(
    alloc: Global,
    file: &[u8],
    at: u64,
    state: &State,
) -> Result<Stretch, OutOfMemory>
    requires within { at ≤ length file.now }
    requires encodable { IsEncodable state.now }
    ensures is { IfOk result (IsStretch file.now) }
    ensures start { IfOk result (λ stretch. stretch.start ≡ state.now) }
{
    let base = state.share(alloc)?;
    let start = state.share(alloc)?;
    let last = state.share(alloc)?;
    let state = state.share(alloc)?;
    Ok(Stretch {
        first: at,
        base,
        start,
        at,
        last,
        state,
        output: Vec::new(alloc),
        records: 0,
        epochs: 0,
    })
}

/// Returns the state of the mark at this gate, over this base, and the gate after the mark. Returns `None` if there is no
/// mark, or if it has no state.
pub(crate) fn mark_at(
    alloc: Global,
    file: &[u8],
    at: u64,
    base: &State,
) -> Result<Option<(State, u64)>, OutOfMemory>
    requires few { length file.now ≤ MAX_JOURNAL_BYTES }
    requires base { IsEncodable base.now }
    ensures { IfOk result (λ found. IfSome found (λ mark. IsAtMark file.now at base.now mark.1 mark.0)) }
{
    journal_text::laws::reading_goes_on();
    journal_text::laws::a_record_stands_at_its_gate();
    match next_record(file, at) {
        Rec::Mark { body, next } => Ok(with_gate(open_mark(alloc, body)?, next)),
        Rec::Partial { body, next } => Ok(with_gate(open_partial(alloc, body, base)?, next)),
        _ => Ok(None),
    }
}

// A mark's state, if it has one, and the gate after the mark.
fn with_gate(state: Option<State>, next: u64) -> Option<(State, u64)>
    ensures { (file : List ℕ) (at : ℕ) (base : State) → IfSome state (IsAtMark file at base next) → IfSome result (λ mark. IsAtMark file at base mark.1 mark.0) }
{
    match state {
        Some(state) => Some((state, next)),
        None => None,
    }
}

/// Begins a stretch with the mark at this gate, over this base. Returns `None` if there is no mark, or if it has no
/// state.
pub(crate) fn begin_at_mark(
    alloc: Global,
    file: &[u8],
    at: u64,
    base: &State,
) -> Result<Option<Stretch>, OutOfMemory>
    requires few { length file.now ≤ MAX_JOURNAL_BYTES }
    requires base { IsEncodable base.now }
    ensures { IfOk result (IsBegun file.now) }
{
    let Some((state, next)) = mark_at(alloc, file, at, base)? else {
        return Ok(None);
    };
    Ok(Some(begin_after(alloc, at, state, base, next)?))
}

// Begins a stretch of one record, a mark of this state, up to the next gate.
fn begin_after(
    alloc: Global,
    at: u64,
    state: State,
    base: &State,
    next: u64,
) -> Result<Stretch, OutOfMemory>
    ensures { (file : List ℕ) → IsAtMark file at base.now next state → IfOk result (λ stretch. IsBegun file (Some stretch)) }
{
    let base = base.share(alloc)?;
    let start = state.share(alloc)?;
    let last = state.share(alloc)?;
    Ok(Stretch {
        first: at,
        base,
        start,
        at: next,
        last,
        state,
        output: Vec::new(alloc),
        records: 1,
        epochs: 0,
    })
}

/// Returns where a stretch begins.
pub(crate) fn start_at(alloc: Global, stretch: &Stretch) -> Result<StretchStart, OutOfMemory>
    ensures { IfOk result (λ start. start ≡ start_of stretch.now) }
{
    let base = stretch.base.share(alloc)?;
    let state = stretch.start.share(alloc)?;
    Ok(StretchStart { base, state })
}

// Runs the epochs at the end of a stretch, up to the next record that is none or to a limit of this file. Returns
// whether each can be run.
fn run_epochs(alloc: Global, file: &[u8], stretch: &mut Stretch) -> Result<bool, OutOfMemory>
    requires few { length file.now ≤ MAX_JOURNAL_BYTES }
    requires is { IsStretch file.now stretch.old }
    ensures is { IfOk result (λ ran. IsTrue ran → IsStretch file.now stretch.new) }
    ensures same { (stretch.new.base ≡ stretch.old.base) × (stretch.new.start ≡ stretch.old.start) }
{
    let mut more = true;
    'epochs: while more {
        let Some(again) = grow(alloc, file, stretch)? else {
            return Ok(false);
        };
        more = again;
    }
    Ok(true)
}

// Runs the epoch at the end of a stretch. Returns whether there was one, or `None` if it can't be run.
fn grow(alloc: Global, file: &[u8], stretch: &mut Stretch) -> Result<Option<bool>, OutOfMemory>
    requires few { length file.now ≤ MAX_JOURNAL_BYTES }
    requires is { IsStretch file.now stretch.old }
    ensures is { IfOk result (λ found. IfSome found (λ more. IsStretch file.now stretch.new)) }
    ensures same { (stretch.new.base ≡ stretch.old.base) × (stretch.new.start ≡ stretch.old.start) }
    ensures goes_on { IfOk result (λ found. IfSome found (λ more. IsTrue more → stretch.old.at < stretch.new.at)) }
    ensures stays { IfOk result (λ found. IfSome found (λ more. stretch.old.at ≤ stretch.new.at)) }
{
    journal_text::laws::reading_goes_on();
    journal_text::laws::a_record_stands_at_its_gate();
    checkpoint::laws::a_run_keeps_a_state_encodable();
    dp_base::laws::whole_values();
    guest_kernel::laws::a_run_is_as_long_as_its_slices();
    if stretch.output.len() >= MUCH_OUTPUT
        || stretch.state.steps >= TOO_MANY
        || stretch.state.input >= TOO_MANY
    {
        return Ok(Some(false));
    }
    let Rec::Epoch { body, next } = next_record(file, stretch.at) else {
        return Ok(Some(false));
    };
    let Some(out) = play_epoch(alloc, &mut stretch.state, body)? else {
        return Ok(None);
    };
    stretch.output.extend_from_slice(&out)?;
    stretch.at = next;
    stretch.records += 1;
    stretch.epochs += 1;
    Ok(Some(true))
}

// Passes the mark at the end of a stretch, if there is one and it is right. Returns whether it did.
fn pass_mark(alloc: Global, file: &[u8], stretch: &mut Stretch) -> Result<bool, OutOfMemory>
    requires few { length file.now ≤ MAX_JOURNAL_BYTES }
    requires is { IsStretch file.now stretch.old }
    ensures is { IfOk result (λ passed. IsStretch file.now stretch.new) }
    ensures same { (stretch.new.base ≡ stretch.old.base) × (stretch.new.start ≡ stretch.old.start) }
{
    journal_text::laws::reading_goes_on();
    journal_text::laws::a_record_stands_at_its_gate();
    match next_record(file, stretch.at) {
        Rec::Mark { body, next } => {
            if !is_right_mark(alloc, &stretch.state, body)? {
                return Ok(false);
            }
            go_past(alloc, next, stretch)?;
            Ok(true)
        }
        Rec::Partial { body, next } => {
            if !is_right_partial(alloc, &stretch.last, &stretch.state, body)? {
                return Ok(false);
            }
            go_past(alloc, next, stretch)?;
            Ok(true)
        }
        _ => Ok(false),
    }
}

// Goes on to the gate after a right mark. The state here is the base of the next mark.
fn go_past(alloc: Global, next: u64, stretch: &mut Stretch) -> Result<(), OutOfMemory>
    requires few { stretch.old.records < 2 ^ 32 - 1 }
    ensures past { IfOk result (λ done. stretch.new ≡ at_next_mark next stretch.old) }
    ensures same { (stretch.new.base ≡ stretch.old.base) × (stretch.new.start ≡ stretch.old.start) }
{
    stretch.last = stretch.state.share(alloc)?;
    stretch.at = next;
    stretch.records += 1;
    Ok(())
}
