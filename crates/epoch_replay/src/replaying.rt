// A journal is read whole, and played record by record.
ghost use Rattle.std.specs.Prelude.{◌≡◌, ◌<◌, ◌≤◌, ◌+◌, ◌-◌, ◌^◌, Err, IfOk, IsErrOf, IsTrue, length, Option, Some};
ghost use Rattle.dp_base.specs.declared.limits.TheConstants.{MAX_JOURNAL_BYTES};
ghost use Rattle.dp_base.specs.Counts.{Rose};
ghost use Rattle.disk_model.specs.History.{History};
ghost use Rattle.disk_model.specs.Known.{known_disk};
ghost use Rattle.checkpoint.specs.State.{IsEncodable, digest_of};
ghost use Rattle.journal_text.specs.Reading.{Reading, reads};
ghost use Rattle.epoch_replay.specs.declared.replay_fault.ReplayFault.TheVariants as faults;
ghost use Rattle.epoch_replay.specs.Playing.{IsBounded, IsDigestOf, IsStart, PlayedOn, PlayedSoFar, past_mark};
ghost use Rattle.epoch_replay.specs.Faults.{ReplayMetNoOther};
ghost use Rattle.epoch_replay.specs.Replaying.{EachReplayMoment, IsKnownToEnd, IsNoReplayFault, OnDisk, Replayed};

use crate::epoch::play_epoch;
use crate::mark::{is_right_mark, is_right_partial};
use crate::parallel_stretches::play_window;
use crate::progress::Progress;
use crate::replay_fault::ReplayFault;
use checkpoint::digest;
use device::send_all;
use disk_model::{Gate, OpenGate, Stream, World};
use dp_base::OutOfMemory;
use dp_report::{Report, line};
use epoch_journal::read_whole;
use guest_kernel::{State, start_from_file};
use journal_text::{Head, Rec, header, next_record};
use std::alloc::Global;
use std::thread::Threads;

/// Replays the journal on the attached disk: sends the output of its epochs on Out, in order, and then the report's
/// line on Note. The world is returned whatever happens. The disk is read once, from its start, and isn't written. With
/// one worker the epochs run one after another. With more, parts of the journal run side by side, each from a mark up to
/// a later one, at most `workers` of them, and at most 64. If the answer is `DiskFault`, `OutputFault` or `OutOfMemory`,
/// another number of workers may have gone further, or less far. All other answers are the same for every number, and so
/// is all that is sent then.
///
/// At every moment of the call the disk is as it was, so a crash leaves the journal, and what was sent is a prefix of
/// the output that the journal plays to.
///
/// # Errors
///
/// See [`ReplayFault`]. The file is judged first, then its guest, and then the records in their order.
pub fn replay<R: Threads + Sync, W: World>(
    rt: &R,
    alloc: Global,
    world: W,
    workers: u32,
) -> (W, Result<Report, ReplayFault>)
    ensures replayed { OnDisk (known_disk (W.history world))
        (λ bytes. Replayed (reads bytes) (W.history world) (W.history result.0) result.1) }
    ensures moments { OnDisk (known_disk (W.history world))
        (λ bytes. EachReplayMoment (reads bytes) (W.history world) (W.history result.0)) }
    ensures others { ReplayMetNoOther result.1 (W.disk_faults world) (W.disk_faults result.0) (W.sink_faults world) (W.sink_faults result.0) }
    ensures disk_cause { result.1 ≡ Err faults.DiskFault → Rose (W.disk_faults world) (W.disk_faults result.0) }
    ensures sink_cause { result.1 ≡ Err faults.OutputFault → Rose (W.sink_faults world) (W.sink_faults result.0) }
    ensures disk_count { W.disk_faults world ≤ W.disk_faults result.0 }
    ensures sink_count { W.sink_faults world ≤ W.sink_faults result.0 }
    // A journal that plays to its end is replayed, if nothing fails.
    ensures complete { IsKnownToEnd (known_disk (W.history world)) →
        (Rose (W.disk_faults world) (W.disk_faults result.0) → ⊥) →
        (Rose (W.sink_faults world) (W.sink_faults result.0) → ⊥) → IsNoReplayFault result.1 }
{
    replay_through(rt, alloc, world, workers, &OpenGate)
}

/// Replays as [`replay`] does, and passes a gate before each part that runs beside others: as worker and as job the
/// part's number among those, from 1.
///
/// # Errors
///
/// See [`ReplayFault`].
pub fn replay_through<R: Threads + Sync, W: World, G: Gate + Sync>(
    rt: &R,
    alloc: Global,
    mut world: W,
    workers: u32,
    gate: &G,
) -> (W, Result<Report, ReplayFault>)
    ensures replayed { OnDisk (known_disk (W.history world))
        (λ bytes. Replayed (reads bytes) (W.history world) (W.history result.0) result.1) }
    ensures moments { OnDisk (known_disk (W.history world))
        (λ bytes. EachReplayMoment (reads bytes) (W.history world) (W.history result.0)) }
    ensures others { ReplayMetNoOther result.1 (W.disk_faults world) (W.disk_faults result.0) (W.sink_faults world) (W.sink_faults result.0) }
    ensures disk_cause { result.1 ≡ Err faults.DiskFault → Rose (W.disk_faults world) (W.disk_faults result.0) }
    ensures sink_cause { result.1 ≡ Err faults.OutputFault → Rose (W.sink_faults world) (W.sink_faults result.0) }
    ensures disk_count { W.disk_faults world ≤ W.disk_faults result.0 }
    ensures sink_count { W.sink_faults world ≤ W.sink_faults result.0 }
    // A journal that plays to its end is replayed, if nothing fails.
    ensures complete { IsKnownToEnd (known_disk (W.history world)) →
        (Rose (W.disk_faults world) (W.disk_faults result.0) → ⊥) →
        (Rose (W.sink_faults world) (W.sink_faults result.0) → ⊥) → IsNoReplayFault result.1 }
{
    let answer = replay_disk(rt, alloc, &mut world, workers, gate);
    (world, answer)
}

fn replay_disk<R: Threads + Sync, W: World, G: Gate + Sync>(
    rt: &R,
    alloc: Global,
    world: &mut W,
    workers: u32,
    gate: &G,
) -> Result<Report, ReplayFault>
    ensures replayed { OnDisk (known_disk (W.history world.old))
        (λ bytes. Replayed (reads bytes) (W.history world.old) (W.history world.new) result) }
    ensures moments { OnDisk (known_disk (W.history world.old))
        (λ bytes. EachReplayMoment (reads bytes) (W.history world.old) (W.history world.new)) }
    ensures others { ReplayMetNoOther result (W.disk_faults world.old) (W.disk_faults world.new)
        (W.sink_faults world.old) (W.sink_faults world.new) }
    ensures disk_cause { IsErrOf result ReplayFault.DiskFault →
        Rose (W.disk_faults world.old) (W.disk_faults world.new) }
    ensures sink_cause { IsErrOf result ReplayFault.OutputFault →
        Rose (W.sink_faults world.old) (W.sink_faults world.new) }
    ensures disk_count { W.disk_faults world.old ≤ W.disk_faults world.new }
    ensures sink_count { W.sink_faults world.old ≤ W.sink_faults world.new }
{
    let file = read_whole(alloc, world)?;
    replay_file(rt, alloc, world, workers, gate, &file)
}

// Replays a journal that was read.
fn replay_file<R: Threads + Sync, W: World, G: Gate + Sync>(
    rt: &R,
    alloc: Global,
    world: &mut W,
    workers: u32,
    gate: &G,
    file: &[u8],
) -> Result<Report, ReplayFault>
    requires few { length file.now ≤ MAX_JOURNAL_BYTES }
    ensures replayed { Replayed (reads file.now) (W.history world.old) (W.history world.new) result }
    ensures moments { EachReplayMoment (reads file.now) (W.history world.old) (W.history world.new) }
    ensures others { ReplayMetNoOther result (W.disk_faults world.old) (W.disk_faults world.new)
        (W.sink_faults world.old) (W.sink_faults world.new) }
    ensures no_disk_fault { IsErrOf result ReplayFault.DiskFault → ⊥ }
    ensures sink_cause { IsErrOf result ReplayFault.OutputFault →
        Rose (W.sink_faults world.old) (W.sink_faults world.new) }
    ensures disk_count { W.disk_faults world.new ≡ W.disk_faults world.old }
    ensures sink_count { W.sink_faults world.old ≤ W.sink_faults world.new }
{
    dp_base::laws::headers();
    dp_base::laws::lengths();
    journal_text::laws::a_header_stands_first();
    journal_text::laws::a_journal_is_its_parts();
    journal_text::laws::reading_goes_on();
    checkpoint::laws::a_start_state_is_encodable();
    let guest_len = match header(file) {
        Head::Whole { guest_len } => guest_len,
        Head::NoJournal => return Err(ReplayFault::NoJournal),
    };
    let first = 9 + guest_len as usize;
    let state = start_from_file(alloc, &file[9..first])?;
    play(rt, alloc, world, workers, gate, file, first as u64, state)
}

// Plays the records from the first one on, and reports.
fn play<R: Threads + Sync, W: World, G: Gate + Sync>(
    rt: &R,
    alloc: Global,
    world: &mut W,
    workers: u32,
    gate: &G,
    file: &[u8],
    first: u64,
    start: State,
) -> Result<Report, ReplayFault>
    requires few { length file.now ≤ MAX_JOURNAL_BYTES }
    requires starts { IsStart file.now first start }
    ensures replayed { Replayed (reads file.now) (W.history world.old) (W.history world.new) result }
    ensures moments { EachReplayMoment (reads file.now) (W.history world.old) (W.history world.new) }
    ensures others { ReplayMetNoOther result (W.disk_faults world.old) (W.disk_faults world.new)
        (W.sink_faults world.old) (W.sink_faults world.new) }
    ensures no_disk_fault { IsErrOf result ReplayFault.DiskFault → ⊥ }
    ensures sink_cause { IsErrOf result ReplayFault.OutputFault →
        Rose (W.sink_faults world.old) (W.sink_faults world.new) }
    ensures disk_count { W.disk_faults world.new ≡ W.disk_faults world.old }
    ensures sink_count { W.sink_faults world.old ≤ W.sink_faults world.new }
{
    journal_text::laws::reading_goes_on();
    let base = start.share(alloc)?;
    let mut progress = Progress {
        base,
        state: start,
        at: first,
        number: 1,
        epochs: 0,
        sent: 0,
        digest: None,
    };
    let mut alone = 0;
    let mut more = true;
    'records: while more {
        more = play_on(
            rt,
            alloc,
            world,
            workers,
            gate,
            file,
            &mut alone,
            &mut progress,
        )?;
    }
    let report = Report {
        epochs: progress.epochs,
        squashes: 0,
        steps: progress.state.steps,
        sent: progress.sent,
        end: progress.state.end,
        state: state_digest(&progress),
    };
    let text = line(alloc, &report)?;
    match send_all(world, Stream::Note, &text) {
        Ok(()) => Ok(report),
        Err(_) => Err(ReplayFault::OutputFault),
    }
}

// The digest of the replay's state.
fn state_digest(progress: &Progress) -> [u8; 32]
    requires encodable { IsEncodable progress.now.state }
    requires known { IsDigestOf progress.now.state progress.now.digest }
    ensures { result ≡ digest_of progress.now.state }
{
    match progress.digest {
        Some(known) => known,
        None => digest(&progress.state),
    }
}

// Plays the records that several workers ran ahead, or else the next record. Returns whether there was one.
fn play_on<R: Threads + Sync, W: World, G: Gate + Sync>(
    rt: &R,
    alloc: Global,
    world: &mut W,
    workers: u32,
    gate: &G,
    file: &[u8],
    alone: &mut u64,
    progress: &mut Progress,
) -> Result<bool, ReplayFault>
    requires few { length file.now ≤ MAX_JOURNAL_BYTES }
    requires bounded { IsBounded file.now progress.old }
    ensures played { (reading : Reading) (first : Option History) →
        PlayedSoFar reading file.now first (W.history world.old) progress.old →
        PlayedOn reading file.now first (W.history world.new) progress.new result }
    ensures moments { (reading : Reading) (first : Option History) →
        PlayedSoFar reading file.now first (W.history world.old) progress.old →
        EachReplayMoment (Some reading) first (W.history world.new) }
    ensures others { ReplayMetNoOther result (W.disk_faults world.old) (W.disk_faults world.new)
        (W.sink_faults world.old) (W.sink_faults world.new) }
    ensures bounded { IfOk result (λ more. IsBounded file.now progress.new) }
    ensures goes_on { IfOk result (λ more. IsTrue more → progress.old.at < progress.new.at) }
    ensures stays { IfOk result (λ more. progress.old.at ≤ progress.new.at) }
    ensures no_disk_fault { IsErrOf result ReplayFault.DiskFault → ⊥ }
    ensures sink_cause { IsErrOf result ReplayFault.OutputFault →
        Rose (W.sink_faults world.old) (W.sink_faults world.new) }
    ensures disk_count { W.disk_faults world.new ≡ W.disk_faults world.old }
    ensures sink_count { W.sink_faults world.old ≤ W.sink_faults world.new }
{
    if play_window(rt, alloc, world, file, workers, gate, alone, progress)? {
        return Ok(true);
    }
    play_record(alloc, world, file, progress)
}

// Plays the record at the replay's offset. Returns whether there was one.
fn play_record<W: World>(
    alloc: Global,
    world: &mut W,
    file: &[u8],
    progress: &mut Progress,
) -> Result<bool, ReplayFault>
    requires few { length file.now ≤ MAX_JOURNAL_BYTES }
    requires bounded { IsBounded file.now progress.old }
    ensures played { (reading : Reading) (first : Option History) →
        PlayedSoFar reading file.now first (W.history world.old) progress.old →
        PlayedOn reading file.now first (W.history world.new) progress.new result }
    ensures moments { (reading : Reading) (first : Option History) →
        PlayedSoFar reading file.now first (W.history world.old) progress.old →
        EachReplayMoment (Some reading) first (W.history world.new) }
    ensures others { ReplayMetNoOther result (W.disk_faults world.old) (W.disk_faults world.new)
        (W.sink_faults world.old) (W.sink_faults world.new) }
    ensures bounded { IfOk result (λ more. IsBounded file.now progress.new) }
    ensures goes_on { IfOk result (λ more. IsTrue more → progress.old.at < progress.new.at) }
    ensures stays { IfOk result (λ more. progress.old.at ≤ progress.new.at) }
    ensures no_disk_fault { IsErrOf result ReplayFault.DiskFault → ⊥ }
    ensures sink_cause { IsErrOf result ReplayFault.OutputFault →
        Rose (W.sink_faults world.old) (W.sink_faults world.new) }
    ensures disk_count { W.disk_faults world.new ≡ W.disk_faults world.old }
    ensures sink_count { W.sink_faults world.old ≤ W.sink_faults world.new }
{
    journal_text::laws::reading_goes_on();
    journal_text::laws::a_record_stands_at_its_gate();
    checkpoint::laws::a_run_keeps_a_state_encodable();
    dp_base::laws::whole_values();
    guest_kernel::laws::a_run_is_as_long_as_its_slices();
    match next_record(file, progress.at) {
        Rec::Epoch { body, next } => {
            let Some(out) = play_epoch(alloc, &mut progress.state, body)? else {
                return Err(ReplayFault::BadEpoch(progress.number));
            };
            if send_all(world, Stream::Out, &out).is_err() {
                return Err(ReplayFault::OutputFault);
            }
            progress.at = next;
            progress.number += 1;
            progress.epochs += 1;
            progress.sent += out.len() as u64;
            progress.digest = None;
            Ok(true)
        }
        Rec::Mark { body, next } => {
            if !is_right_mark(alloc, &progress.state, body)? {
                return Err(ReplayFault::BadMark(progress.number));
            }
            pass_mark(alloc, next, progress)?;
            Ok(true)
        }
        Rec::Partial { body, next } => {
            if !is_right_partial(alloc, &progress.base, &progress.state, body)? {
                return Err(ReplayFault::BadMark(progress.number));
            }
            pass_mark(alloc, next, progress)?;
            Ok(true)
        }
        Rec::End { .. } => Ok(false),
        Rec::Bad => Err(ReplayFault::BadJournal(progress.number)),
    }
}

// Goes on to the next gate. The state here is the base of the next mark.
fn pass_mark(alloc: Global, next: u64, progress: &mut Progress) -> Result<(), OutOfMemory>
    requires few { progress.old.number < 2 ^ 32 - 1 }
    ensures { IfOk result (λ done. progress.new ≡ past_mark next progress.old) }
{
    progress.base = progress.state.share(alloc)?;
    progress.at = next;
    progress.number += 1;
    Ok(())
}
