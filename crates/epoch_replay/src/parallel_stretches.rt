// Parts of a journal, run side by side: each is a stretch from a mark up to a later one.
ghost use Rattle.std.specs.Prelude.{◌≡◌, ◌<◌, ◌≤◌, ◌+◌, ℕ, Err, IfOk, IfSome, IsErrOf, IsTrue, length, Option, Some, slice_index_or, true};
ghost use denote.Param.Send.{IsSync};
ghost use Rattle.dp_base.specs.declared.limits.TheConstants.{MAX_JOURNAL_BYTES};
ghost use Rattle.dp_base.specs.Counts.{Rose};
ghost use Rattle.disk_model.specs.History.{History};
ghost use Rattle.checkpoint.specs.State.{IsEncodable};
ghost use Rattle.journal_text.specs.Reading.{Reading};
ghost use Rattle.epoch_replay.specs.declared.replay_fault.ReplayFault.TheVariants as faults;
ghost use Rattle.epoch_replay.specs.Playing.{IsBounded, IsDigestOf, PlayedSoFar};
ghost use Rattle.epoch_replay.specs.Faults.{ReplayMetNoOther};
ghost use Rattle.epoch_replay.specs.Replaying.{EachReplayMoment};
ghost use Rattle.epoch_replay.specs.Stretches.{AreLinkedResults, AreLinkedJobs, ArePartJobs, ArePartResults, IsAtEndOf, IsBegun, IsFirstReachedBy, IsHere, IsOfJob, IsOneMore, IsPartResult, IsReachedBy, IsStretch, WasPartTaken};

use crate::journal_stretch::{
    PartJob, PartRun, Stretch, StretchStart, begin_at, begin_at_mark, mark_at, run_job, start_at,
};
use crate::marks_ahead::{is_mark_at, last_mark, marks_to_open, next_mark, steps_of_mark};
use crate::progress::Progress;
use crate::replay_fault::ReplayFault;
use device::send_all;
use disk_model::{Gate, Stream, World};
use dp_base::OutOfMemory;
use dp_base::limits::MAX_WORKERS;
use state_compare::equal;
use std::alloc::{AllocError, Global};
use std::thread;
use std::thread::Threads;

// A part is worth a thread if its work is this much on average: about a tenth of a millisecond. Starting a thread and
// joining it takes 3 to 15 microseconds.
const WORTH_A_THREAD: u64 = 16_384;

// A part goes on over marks up to about this much work, some two hundred milliseconds. All threads of a window wait for
// its last, and between two windows one thread runs alone, so longer parts lose less.
const PART_WORK: u64 = 1 << 25;

// The most stretches between two marks that a part has. With a mark after every 16 epochs so many have about as much
// output as a stretch may hold.
const MAX_STRETCHES: u64 = 64;

// Of a digest, a page takes about as long as so many steps.
const DIGEST_STEPS: u64 = 2_048;

// At most one in so many stretches is spared for a digest.
const MOST_SPARED: u32 = 8;

// The parts of a window, which run side by side.
#[derive(Clone, Copy)]
struct Window {
    // How many follow the first part.
    more_parts: u32,
    // How many marks a part passes.
    inner_marks: u32,
}

/// Runs parts side by side from the replay's offset, if it is at the first record or at a mark, and takes the results in
/// order, up to the first whose start the play doesn't reach. Returns whether the replay went on. With one worker it
/// returns `false` at once, and also before the gate `alone`, up to which no parts are worth their threads.
pub(crate) fn play_window<R: Threads + Sync, W: World, G: Gate + Sync>(
    rt: &R,
    alloc: Global,
    world: &mut W,
    file: &[u8],
    workers: u32,
    gate: &G,
    alone: &mut u64,
    progress: &mut Progress,
) -> Result<bool, ReplayFault>
    requires few { length file.now ≤ MAX_JOURNAL_BYTES }
    requires bounded { IsBounded file.now progress.old }
    ensures taken { (reading : Reading) (first : Option History) →
        PlayedSoFar reading file.now first (W.history world.old) progress.old →
        WasPartTaken reading file.now first (W.history world.new) progress.new result }
    ensures moments { (reading : Reading) (first : Option History) →
        PlayedSoFar reading file.now first (W.history world.old) progress.old →
        EachReplayMoment (Some reading) first (W.history world.new) }
    ensures others { ReplayMetNoOther result (W.disk_faults world.old) (W.disk_faults world.new)
        (W.sink_faults world.old) (W.sink_faults world.new) }
    ensures bounded { IfOk result (λ _. IsBounded file.now progress.new) }
    ensures goes_on { IfOk result (λ further. IsTrue further → progress.old.at < progress.new.at) }
    ensures stays { IfOk result (λ _. progress.old.at ≤ progress.new.at) }
    ensures no_disk_fault { IsErrOf result ReplayFault.DiskFault → ⊥ }
    ensures sink_cause { IsErrOf result ReplayFault.OutputFault →
        Rose (W.sink_faults world.old) (W.sink_faults world.new) }
    ensures disk_count { W.disk_faults world.new ≡ W.disk_faults world.old }
    ensures sink_count { W.sink_faults world.old ≤ W.sink_faults world.new }
{
    let first = progress.number == 1;
    if workers < 2 || progress.at < *alone || !(first || is_mark_at(file, progress.at)) {
        return Ok(false);
    }
    let Some(window) = window_at(file, workers.min(MAX_WORKERS), alone, progress) else {
        return Ok(false);
    };
    // If memory runs out for the jobs or their threads, the replay goes on record by record.
    let Ok(jobs) = jobs_from(alloc, file, window, progress) else {
        return Ok(false);
    };
    if jobs.len() < 2 {
        return Ok(false);
    }
    let Ok(results) = run_jobs(rt, alloc, file, jobs, gate) else {
        return Ok(false);
    };
    let before = progress.at;
    take_all(world, file, results, progress)?;
    Ok(progress.at > before)
}

// The jobs of a window, one for each part. The marks are opened in their order, each over the one opened before it. Empty
// if there is no state to begin in.
fn jobs_from(
    alloc: Global,
    file: &[u8],
    window: Window,
    progress: &Progress,
) -> Result<Vec<PartJob>, OutOfMemory>
    requires few { length file.now ≤ MAX_JOURNAL_BYTES }
    requires bounded { IsBounded file.now progress.now }
    ensures jobs { IfOk result (λ jobs. ArePartJobs file.now jobs.items) }
    ensures linked { IfOk result (λ jobs. AreLinkedJobs jobs.items) }
{
    let Window {
        more_parts,
        inner_marks,
    } = window;
    let mut jobs = Vec::new(alloc);
    let Some(mut stretch) = begin_here(alloc, file, progress)? else {
        return Ok(jobs);
    };
    'jobs: for _ in 0..more_parts {
        let Some(after) = begin_later(alloc, file, &stretch, inner_marks)? else {
            break;
        };
        let next = Some(start_at(alloc, &after)?);
        push_job(&mut jobs, stretch, inner_marks, next)?;
        stretch = after;
    }
    push_job(&mut jobs, stretch, inner_marks, None)?;
    Ok(jobs)
}

// The window at the replay's offset. Each part has as many stretches between two marks, but the last, which may have
// fewer. `None` if the parts aren't worth their threads: then `alone` is the gate of the last mark that was looked at, so
// that none is looked at again.
fn window_at(file: &[u8], workers: u32, alone: &mut u64, progress: &Progress) -> Option<Window> {
    let workers = workers.max(1);
    let first = next_mark(file, progress.at)?;
    let work = work_up_to(file, progress, first).max(1);
    let longest = (PART_WORK / work).max(1).min(MAX_STRETCHES) as u32;
    let ahead = workers.saturating_mul(longest).saturating_sub(1);
    let (marks, last) = last_mark(file, progress.at, ahead);
    let spared = if marks < ahead {
        spared_stretches(progress, work).min(marks / MOST_SPARED)
    } else {
        0
    };
    let even = marks.saturating_add(1).saturating_add(spared) / workers;
    let inner_marks = (marks / workers).max(even.saturating_sub(1));
    let more_parts = marks / inner_marks.saturating_add(1);
    let worth = u64::from(more_parts) * WORTH_A_THREAD;
    if more_parts == 0 || work_up_to(file, progress, last) < worth {
        *alone = last;
        return None;
    }
    Some(Window {
        more_parts,
        inner_marks,
    })
}

// How many stretches of this much work take about as long as a digest of the replay's state. The last part of a journal
// computes one, so it has fewer stretches than the others.
fn spared_stretches(progress: &Progress, work: u64) -> u32 {
    let steps = u64::from(progress.state.pages.pages()) * DIGEST_STEPS;
    (steps / work.max(1)).min(u64::from(u32::MAX)) as u32
}

// Begins a stretch at a mark after this one's first record, with this many marks between them. Of these only those are
// opened that the last of them needs. Returns `None` if there are fewer marks, or if one that is opened has no state.
fn begin_later(
    alloc: Global,
    file: &[u8],
    stretch: &Stretch,
    inner_marks: u32,
) -> Result<Option<Stretch>, OutOfMemory>
    requires few { length file.now ≤ MAX_JOURNAL_BYTES }
    requires start { IsEncodable stretch.now.start }
    ensures { IfOk result (IsBegun file.now) }
{
    let Some(marks) = marks_to_open(alloc, file, stretch.first, inner_marks)? else {
        return Ok(None);
    };
    let mut at = stretch.first;
    let mut base = stretch.start.share(alloc)?;
    'marks: for mark in marks.iter() {
        let Some((state, _)) = mark_at(alloc, file, *mark, &base)? else {
            return Ok(None);
        };
        at = *mark;
        base = state;
    }
    match next_mark(file, at) {
        Some(mark) => begin_at_mark(alloc, file, mark, &base),
        None => Ok(None),
    }
}

// Adds a job, numbered from 1 on.
fn push_job(
    jobs: &mut Vec<PartJob>,
    stretch: Stretch,
    marks: u32,
    next: Option<StretchStart>,
) -> Result<(), OutOfMemory>
    ensures { IfOk result (λ done. IsOneMore jobs.old.items stretch next jobs.new.items) }
{
    let index = jobs.len().saturating_add(1).min(u32::MAX as usize) as u32;
    jobs.push(PartJob {
        index,
        stretch,
        marks,
        next,
    })?;
    Ok(())
}

// A stretch from the replay's offset: with the mark there, or else in the replay's state.
fn begin_here(
    alloc: Global,
    file: &[u8],
    progress: &Progress,
) -> Result<Option<Stretch>, OutOfMemory>
    requires few { length file.now ≤ MAX_JOURNAL_BYTES }
    requires bounded { IsBounded file.now progress.now }
    ensures { IfOk result (IsBegun file.now) }
{
    if is_mark_at(file, progress.at) {
        begin_at_mark(alloc, file, progress.at, &progress.base)
    } else {
        Ok(Some(begin_at(alloc, file, progress.at, &progress.state)?))
    }
}

// An estimate of the work from the replay's offset up to the mark at this gate: the steps, and a sixteenth of the
// bytes. The mark's own count of steps is believed, since it decides only whether threads are started.
fn work_up_to(file: &[u8], progress: &Progress, gate: u64) -> u64 {
    let steps = steps_of_mark(file, gate).saturating_sub(progress.state.steps);
    steps.saturating_add(gate.saturating_sub(progress.at) / 16)
}

// Runs each job in a thread of its own.
fn run_jobs<R: Threads + Sync, G: Gate + Sync>(
    rt: &R,
    alloc: Global,
    file: &[u8],
    jobs: Vec<PartJob>,
    gate: &G,
) -> Result<Vec<Result<Option<PartRun>, OutOfMemory>>, AllocError>
    requires few { length file.now ≤ MAX_JOURNAL_BYTES }
    requires jobs { ArePartJobs file.now jobs.items }
    ensures len { IfOk result (λ all. length all.items ≡ length jobs.items) }
    ensures each { IfOk result (λ all. (i : ℕ) (d : _) → i < length jobs.items → IsPartResult file.now (slice_index_or all.items i d)) }
    ensures of_jobs { IfOk result (λ all. (i : ℕ) (e : _) (d : _) → i < length jobs.items →
        IsOfJob (slice_index_or jobs.items i e) (slice_index_or all.items i d)) }
{
    let run = |job: PartJob| -> Result<Option<PartRun>, OutOfMemory>
        requires { (length file.now ≤ MAX_JOURNAL_BYTES) × IsStretch file.now job.stretch }
        ensures { IsPartResult file.entry.now result × IsOfJob job result }
    { run_in_thread(rt, alloc, file, job, gate) };
    thread::map_vec(rt, jobs, &run)
}

// Runs a job in a new thread, and waits for it. Whoever starts other threads runs no job: the system may start a thread
// on the processor of the one that makes it, and there it waits as long as that one runs.
fn run_in_thread<R: Threads + Sync, G: Gate + Sync>(
    rt: &R,
    alloc: Global,
    file: &[u8],
    job: PartJob,
    gate: &G,
) -> Result<Option<PartRun>, OutOfMemory>
    requires few { length file.now ≤ MAX_JOURNAL_BYTES }
    requires is { IsStretch file.now job.stretch }
    ensures is { IsPartResult file.now result }
    ensures of_job { IsOfJob job result }
{
    let work = move || -> Result<Option<PartRun>, OutOfMemory>
        requires { IsSync G.row × (length file.now ≤ MAX_JOURNAL_BYTES) × IsStretch file.now job.stretch }
        ensures { IsPartResult file.entry.now result × IsOfJob job result }
    { run_job(alloc, file, job, gate) };
    let (result, ()) = thread::join(rt, work, || {});
    result
}

// Takes results in order, up to the first whose start the play doesn't reach.
fn take_all<W: World>(
    world: &mut W,
    file: &[u8],
    mut results: Vec<Result<Option<PartRun>, OutOfMemory>>,
    progress: &mut Progress,
) -> Result<(), ReplayFault>
    requires few { length file.now ≤ MAX_JOURNAL_BYTES }
    requires bounded { IsBounded file.now progress.old }
    requires results { ArePartResults file.now results.items }
    requires linked { AreLinkedResults results.items }
    ensures taken { (reading : Reading) (first : Option History) →
        PlayedSoFar reading file.now first (W.history world.old) progress.old →
        WasPartTaken reading file.now first (W.history world.new) progress.new result }
    ensures moments { (reading : Reading) (first : Option History) →
        PlayedSoFar reading file.now first (W.history world.old) progress.old →
        EachReplayMoment (Some reading) first (W.history world.new) }
    ensures others { ReplayMetNoOther result (W.disk_faults world.old) (W.disk_faults world.new)
        (W.sink_faults world.old) (W.sink_faults world.new) }
    ensures bounded { IfOk result (λ _. IsBounded file.now progress.new) }
    ensures stays { IfOk result (λ _. progress.old.at ≤ progress.new.at) }
    ensures no_disk_fault { IsErrOf result ReplayFault.DiskFault → ⊥ }
    ensures sink_cause { IsErrOf result ReplayFault.OutputFault →
        Rose (W.sink_faults world.old) (W.sink_faults world.new) }
    ensures disk_count { W.disk_faults world.new ≡ W.disk_faults world.old }
    ensures sink_count { W.sink_faults world.old ≤ W.sink_faults world.new }
{
    let mut more = true;
    let mut known = false;
    'results: while more && !results.is_empty() {
        let part = results.remove(0);
        let taken = take_part(world, file, part, known, progress)?;
        more = taken.is_some();
        known = is_met(taken);
    }
    Ok(())
}

// Whether a run was taken and says that it meets the next one.
fn is_met(taken: Option<bool>) -> bool
    ensures { result ≡ true → taken ≡ Some true }
{
    match taken {
        Some(meets) => meets,
        None => false,
    }
}

// Takes a run if it begins at the replay's offset, in the same state and over the same base. If those two are known to
// be the same, they aren't compared. Returns whether the run says that it meets the next one, or `None` if it wasn't
// taken.
fn take_part<W: World>(
    world: &mut W,
    file: &[u8],
    part: Result<Option<PartRun>, OutOfMemory>,
    known: bool,
    progress: &mut Progress,
) -> Result<Option<bool>, ReplayFault>
    requires few { length file.now ≤ MAX_JOURNAL_BYTES }
    requires bounded { IsBounded file.now progress.old }
    requires part { IsPartResult file.now part }
    requires known { known ≡ true → IsReachedBy progress.old part }
    ensures taken { (reading : Reading) (first : Option History) →
        PlayedSoFar reading file.now first (W.history world.old) progress.old →
        WasPartTaken reading file.now first (W.history world.new) progress.new result }
    ensures moments { (reading : Reading) (first : Option History) →
        PlayedSoFar reading file.now first (W.history world.old) progress.old →
        EachReplayMoment (Some reading) first (W.history world.new) }
    ensures others { ReplayMetNoOther result (W.disk_faults world.old) (W.disk_faults world.new)
        (W.sink_faults world.old) (W.sink_faults world.new) }
    ensures bounded { IfOk result (λ _. IsBounded file.now progress.new) }
    ensures stays { IfOk result (λ _. progress.old.at ≤ progress.new.at) }
    ensures no_disk_fault { IsErrOf result ReplayFault.DiskFault → ⊥ }
    ensures sink_cause { IsErrOf result ReplayFault.OutputFault →
        Rose (W.sink_faults world.old) (W.sink_faults world.new) }
    ensures disk_count { W.disk_faults world.new ≡ W.disk_faults world.old }
    ensures sink_count { W.sink_faults world.old ≤ W.sink_faults world.new }
    ensures next { IfOk result (λ taken. IfSome taken (λ meets. IsAtEndOf progress.new meets part)) }
{
    let Ok(Some(run)) = part else {
        return Ok(None);
    };
    let PartRun {
        stretch,
        meets,
        digest,
    } = run;
    if !is_reached(&stretch, known, progress) {
        return Ok(None);
    }
    take(world, file, stretch, digest, progress)?;
    Ok(Some(meets))
}

// Whether a stretch begins at the replay's offset, in the same state and over the same base: a partial mark says what
// it does only over its own base.
fn is_reached(stretch: &Stretch, known: bool, progress: &Progress) -> bool
    requires { known ≡ true → (stretch.now.start ≡ progress.now.state) × (stretch.now.base ≡ progress.now.base) }
    ensures { result ≡ true → IsHere progress.now stretch.now }
{
    stretch.first == progress.at
        && (known || equal(&stretch.start, &progress.state) && equal(&stretch.base, &progress.base))
}

// Takes a stretch that begins where the replay is: sends its output, and goes on to its end, whose digest may be known.
fn take<W: World>(
    world: &mut W,
    file: &[u8],
    stretch: Stretch,
    digest: Option<[u8; 32]>,
    progress: &mut Progress,
) -> Result<(), ReplayFault>
    requires few { length file.now ≤ MAX_JOURNAL_BYTES }
    requires bounded { IsBounded file.now progress.old }
    requires is { IsStretch file.now stretch }
    requires digest { IsDigestOf stretch.state digest }
    requires here { IsHere progress.old stretch }
    ensures taken { (reading : Reading) (first : Option History) →
        PlayedSoFar reading file.now first (W.history world.old) progress.old →
        WasPartTaken reading file.now first (W.history world.new) progress.new result }
    ensures moments { (reading : Reading) (first : Option History) →
        PlayedSoFar reading file.now first (W.history world.old) progress.old →
        EachReplayMoment (Some reading) first (W.history world.new) }
    ensures others { ReplayMetNoOther result (W.disk_faults world.old) (W.disk_faults world.new)
        (W.sink_faults world.old) (W.sink_faults world.new) }
    ensures bounded { IfOk result (λ _. IsBounded file.now progress.new) }
    ensures stays { IfOk result (λ _. progress.old.at ≤ progress.new.at) }
    ensures no_disk_fault { IsErrOf result ReplayFault.DiskFault → ⊥ }
    ensures sink_cause { IsErrOf result ReplayFault.OutputFault →
        Rose (W.sink_faults world.old) (W.sink_faults world.new) }
    ensures disk_count { W.disk_faults world.new ≡ W.disk_faults world.old }
    ensures sink_count { W.sink_faults world.old ≤ W.sink_faults world.new }
    ensures state { IfOk result (λ done. progress.new.state ≡ stretch.state) }
    ensures base { IfOk result (λ done. progress.new.base ≡ stretch.last) }
{
    if send_all(world, Stream::Out, &stretch.output).is_err() {
        return Err(ReplayFault::OutputFault);
    }
    progress.at = stretch.at;
    progress.number += stretch.records;
    progress.epochs += stretch.epochs;
    progress.sent += stretch.output.len() as u64;
    progress.base = stretch.last;
    progress.state = stretch.state;
    progress.digest = digest;
    Ok(())
}
