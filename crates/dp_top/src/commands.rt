// The top call.
ghost use Rattle.std.specs.Prelude.{◌≡◌, ◌≤◌, ◌⊎◌, ℕ, Bool, false};
ghost use Rattle.dp_base.specs.Counts.{Rose};
ghost use Rattle.disk_model.specs.Known.{IfKnown, known_disk};
ghost use Rattle.epoch_replay.specs.Replaying.{EachReplayMoment, IsKnownToEnd, OnDisk};
ghost use Rattle.journal_text.specs.Reading.{reads};
ghost use Rattle.dp_words.specs.Commands.{are_taken};
ghost use Rattle.elf_image.specs.Faults.{fault_number};
ghost use Rattle.dp_top.specs.Answer.{status_of_image};
ghost use Rattle.dp_top.specs.Asking.{Asked, AskedInspection, AskedReplay, AskedSelfTest};
ghost use Rattle.dp_top.specs.Moments.{EachListingMoment, EachTestMoment, EveryMoment, StillThroughout};
ghost use Rattle.dp_top.specs.Running.{HasEndedWith, Did, IsBadImage, IsKnownEmpty, IsKnownListed, IsNoFault, NamesGuest, RanCommand};

use crate::inspecting::inspect_journal;
use crate::recording::record_guest;
use crate::replaying::replay_journal;
use crate::self_testing::test_guest;
use disk_model::{FetchFault, Files, Gate, Inlet, World};
use dp_base::limits::MAX_JOURNAL_BYTES;
use dp_report::{Status, emit_fault};
use dp_words::{Command, WordsFault, parse};
use guest_kernel::{ImageFault, start_from_file};
use racing_runner::Racer;
use recorder::Options;
use std::alloc::Global;
use std::sync::Wait;
use std::thread::Threads;

/// Runs one command, as its arguments say. The world is returned whatever happens.
///
/// - `NAME record GUEST JOURNAL` with its options records the guest in the file GUEST, with the input and the clock of
///   the inlet, into the journal JOURNAL of the world, which is made if there is none. It sends the guest's output on
///   Out.
/// - `NAME replay JOURNAL` replays the journal from itself alone, doesn't write it, and sends the output of its epochs
///   on Out.
/// - `NAME inspect JOURNAL` sends a line for each record of the journal on Out, runs none of them, and doesn't write
///   the journal.
/// - `NAME selftest N` makes guest N, records it in memory by `ChaosRacer::new(N)` with the default options of a
///   recording, without input and with a clock that always reads 0, replays it with one worker and with four, and sends
///   `selftest N: ` and the report's line on Out.
///
/// At `Ok` the report's line is sent on Note, which an inspection and a self-test don't have. Otherwise the status's
/// line is. If that line can't be sent, the status stays the same.
///
/// The arguments are read first. A recording then reads the guest's file, its image, and the disk: after `Usage`,
/// `GuestFault` and a recording's `BadImage` the disk is as it was, and no fault of it was met. A replay then reads the
/// disk, the journal's guest and its records, and an inspection the disk and the journal's records. A recording's jobs
/// run on threads of the runtime `rt`, at most `--workers` of them. They start in states that the racer offers, at most
/// `--ahead` in a round, and before each of them its worker passes the gate. The parts of a journal between marks are
/// replayed on at most `--workers` threads.
pub fn run<
    R: Threads + Wait + Sync,
    F: Files,
    I: Inlet,
    W: World + Drop,
    Q: Racer + Drop + Send,
    G: Gate + Sync,
>(
    rt: &R,
    alloc: Global,
    words: &[String],
    files: &mut F,
    inlet: &mut I,
    world: W,
    racer: Q,
    gate: &G,
) -> (W, Status)
    // What is left, by the status, and what was sent on Note. The line is cut off only if an emit has failed, and at
    // `OutputFault` one more than the answer's.
    ensures ran { (told : Bool) × (faults : ℕ)
        × RanCommand (Q.tells racer) words.now (F.directory files.old) (I.input inlet.old) (I.input inlet.new) (W.history world) (W.history result.0) result.1 told
        × (W.sink_faults world ≤ faults) × (faults ≤ W.sink_faults result.0)
        × (result.1 ≡ Status.OutputFault → Rose (W.sink_faults world) faults)
        × (told ≡ false → Rose faults (W.sink_faults result.0)) }

    // At whatever moment a recording is stopped, within a call or between two: what a crash leaves on a disk that was
    // empty, with nothing pending, is no journal, and nothing was sent; or whole epochs in order that are one run of
    // the guest on its input, of whose output a prefix was sent. On a disk that wasn't empty, and if no journal is
    // attached, nothing is written or sent.
    ensures every_moment { (asked : Asked words.now) →
        IfKnown (EveryMoment asked.guest asked.options.mark (F.directory files.old) (I.input inlet.old) (I.input inlet.new)) (W.history world) (W.history result.0) }
    ensures still { (result.1 ≡ Status.Usage) ⊎ (result.1 ≡ Status.GuestFault)
        ⊎ (Asked words.now × IsBadImage result.1) →
        IfKnown StillThroughout (W.history world) (W.history result.0) }

    // At every moment of a replay the disk is as it was, and a prefix of the output that its journal plays to was sent.
    ensures every_replay_moment { AskedReplay words.now → OnDisk (known_disk (W.history world))
        (λ bytes. EachReplayMoment (reads bytes) (W.history world) (W.history result.0)) }

    // At every moment of an inspection the disk is as it was, and a prefix of its journal's listing was sent.
    ensures every_listing_moment { AskedInspection words.now → OnDisk (known_disk (W.history world))
        (λ bytes. EachListingMoment (reads bytes) (W.history world) (W.history result.0)) }

    // A self-test uses nothing of the files, the input and the disk. At every moment of it the disk is as it was, and a
    // prefix of its line was sent.
    ensures unused { AskedSelfTest words.now → (files.new ≡ files.old) × (inlet.new ≡ inlet.old)
        × (W.disk_faults result.0 ≡ W.disk_faults world) }
    ensures every_test_moment { (asked : AskedSelfTest words.now) →
        EachTestMoment asked.n (W.history world) (W.history result.0) }

    // At `Ok` no take and no emit failed.
    ensures none { result.1 ≡ Status.Ok → (I.input_faults inlet.new ≡ I.input_faults inlet.old)
        × (W.sink_faults result.0 ≡ W.sink_faults world) }

    // When each refusal is answered.
    ensures usage { result.1 ≡ Status.Usage → are_taken words.now ≡ false }
    ensures not_taken { are_taken words.now ≡ false → (result.1 ≡ Status.Usage) ⊎ (result.1 ≡ Status.OutOfMemory) }
    ensures guest_fault { result.1 ≡ Status.GuestFault → Rose (F.file_faults files.old) (F.file_faults files.new) }
    ensures input_fault { result.1 ≡ Status.InputFault → Rose (I.input_faults inlet.old) (I.input_faults inlet.new) }
    ensures disk_fault { result.1 ≡ Status.DiskFault → Rose (W.disk_faults world) (W.disk_faults result.0) }
    ensures output_fault { result.1 ≡ Status.OutputFault → Rose (W.sink_faults world) (W.sink_faults result.0) }
    ensures no_disk_call { (result.1 ≡ Status.Usage) ⊎ (result.1 ≡ Status.GuestFault)
        ⊎ (Asked words.now × IsBadImage result.1) →
        W.disk_faults result.0 ≡ W.disk_faults world }

    ensures file_count { F.file_faults files.old ≤ F.file_faults files.new }
    ensures input_count { I.input_faults inlet.old ≤ I.input_faults inlet.new }
    ensures disk_count { W.disk_faults world ≤ W.disk_faults result.0 }
    ensures sink_count { W.sink_faults world ≤ W.sink_faults result.0 }

    // With a guest, an empty disk and no fault it answers Ok, StepLimit, JournalFull or OutOfMemory.
    ensures complete { (asked : Asked words.now) → NamesGuest asked.guest (F.directory files.old) →
        IsKnownEmpty (W.history world) →
        (Rose (F.file_faults files.old) (F.file_faults files.new) → ⊥) →
        (Rose (I.input_faults inlet.old) (I.input_faults inlet.new) → ⊥) →
        (Rose (W.disk_faults world) (W.disk_faults result.0) → ⊥) →
        (Rose (W.sink_faults world) (W.sink_faults result.0) → ⊥) → IsNoFault result.1 }

    // With a journal that plays to its end and no fault a replay answers Ok or OutOfMemory.
    ensures complete_replay { AskedReplay words.now → IsKnownToEnd (known_disk (W.history world)) →
        (Rose (W.disk_faults world) (W.disk_faults result.0) → ⊥) →
        (Rose (W.sink_faults world) (W.sink_faults result.0) → ⊥) →
        (result.1 ≡ Status.Ok) ⊎ (result.1 ≡ Status.OutOfMemory) }

    // With a journal of which no record is malformed and no fault an inspection answers Ok or OutOfMemory.
    ensures complete_inspection { AskedInspection words.now → IsKnownListed (known_disk (W.history world)) →
        (Rose (W.disk_faults world) (W.disk_faults result.0) → ⊥) →
        (Rose (W.sink_faults world) (W.sink_faults result.0) → ⊥) →
        (result.1 ≡ Status.Ok) ⊎ (result.1 ≡ Status.OutOfMemory) }

    // A self-test in which no emit failed answers Ok, StepLimit, JournalFull or OutOfMemory.
    ensures complete_self_test { AskedSelfTest words.now → (Rose (W.sink_faults world) (W.sink_faults result.0) → ⊥) → IsNoFault result.1 }
{
    let (mut world, status) = do_command(rt, alloc, words, files, inlet, world, racer, gate);
    let _ = emit_fault(&mut world, &status);
    (world, status)
}

// Does what the words say, but for the status's line.
fn do_command<
    R: Threads + Wait + Sync,
    F: Files,
    I: Inlet,
    W: World + Drop,
    Q: Racer + Drop + Send,
    G: Gate + Sync,
>(
    rt: &R,
    alloc: Global,
    words: &[String],
    files: &mut F,
    inlet: &mut I,
    world: W,
    racer: Q,
    gate: &G,
) -> (W, Status)
    ensures did { Did (Q.tells racer) words.now (F.directory files.old) (I.input inlet.old) (I.input inlet.new) (W.history world) (W.history result.0) result.1 }
    ensures guest_fault { result.1 ≡ Status.GuestFault → Rose (F.file_faults files.old) (F.file_faults files.new) }
    ensures input_fault { result.1 ≡ Status.InputFault → Rose (I.input_faults inlet.old) (I.input_faults inlet.new) }
    ensures disk_fault { result.1 ≡ Status.DiskFault → Rose (W.disk_faults world) (W.disk_faults result.0) }
    ensures output_fault { result.1 ≡ Status.OutputFault → Rose (W.sink_faults world) (W.sink_faults result.0) }
    ensures no_call { (result.1 ≡ Status.Usage) ⊎ (result.1 ≡ Status.GuestFault)
        ⊎ (Asked words.now × IsBadImage result.1) → result.0 ≡ world }
    ensures replay_moments { AskedReplay words.now → OnDisk (known_disk (W.history world))
        (λ bytes. EachReplayMoment (reads bytes) (W.history world) (W.history result.0)) }
    ensures none { result.1 ≡ Status.Ok → (I.input_faults inlet.new ≡ I.input_faults inlet.old)
        × (W.sink_faults result.0 ≡ W.sink_faults world) }
    ensures complete_replay { AskedReplay words.now → IsKnownToEnd (known_disk (W.history world)) →
        (Rose (W.disk_faults world) (W.disk_faults result.0) → ⊥) →
        (Rose (W.sink_faults world) (W.sink_faults result.0) → ⊥) →
        (result.1 ≡ Status.Ok) ⊎ (result.1 ≡ Status.OutOfMemory) }
    ensures unused { AskedSelfTest words.now → (files.new ≡ files.old) × (inlet.new ≡ inlet.old)
        × (W.disk_faults result.0 ≡ W.disk_faults world) }
    ensures file_count { F.file_faults files.old ≤ F.file_faults files.new }
    ensures input_count { I.input_faults inlet.old ≤ I.input_faults inlet.new }
    ensures disk_count { W.disk_faults world ≤ W.disk_faults result.0 }
    ensures sink_count { W.sink_faults world ≤ W.sink_faults result.0 }
{
    match parse(alloc, words) {
        Ok(
            Command::Record {
                guest,
                journal,
                workers,
                epoch,
                slice,
                ahead,
                mark,
                limit,
            },
        ) => {
            let options = Options {
                workers,
                epoch,
                slice,
                ahead,
                mark,
                limit,
                room: MAX_JOURNAL_BYTES,
            };
            do_record(
                rt,
                alloc,
                files,
                inlet,
                world,
                guest.as_str(),
                journal.as_str(),
                options,
                racer,
                gate,
            )
        }
        Ok(Command::Replay { journal, workers }) => {
            replay_journal(rt, alloc, world, journal.as_str(), workers)
        }
        Ok(Command::Inspect { journal }) => inspect_journal(alloc, world, journal.as_str()),
        Ok(Command::Selftest { n }) => test_guest(rt, alloc, world, n),
        Err(WordsFault::Usage) => (world, Status::Usage),
        Err(WordsFault::OutOfMemory) => (world, Status::OutOfMemory),
    }
}

// Records the guest whose file has this name.
fn do_record<
    R: Threads + Wait + Sync,
    F: Files,
    I: Inlet,
    W: World + Drop,
    Q: Racer + Drop + Send,
    G: Gate + Sync,
>(
    rt: &R,
    alloc: Global,
    files: &mut F,
    inlet: &mut I,
    world: W,
    name: &str,
    journal: &str,
    options: Options,
    racer: Q,
    gate: &G,
) -> (W, Status)
    ensures came { HasEndedWith (Q.tells racer) name.now options (F.directory files.old) (I.input inlet.old) (I.input inlet.new) (W.history world) (W.history result.0) result.1 }
    ensures guest_fault { result.1 ≡ Status.GuestFault → Rose (F.file_faults files.old) (F.file_faults files.new) }
    ensures input_fault { result.1 ≡ Status.InputFault → Rose (I.input_faults inlet.old) (I.input_faults inlet.new) }
    ensures disk_fault { result.1 ≡ Status.DiskFault → Rose (W.disk_faults world) (W.disk_faults result.0) }
    ensures output_fault { result.1 ≡ Status.OutputFault → Rose (W.sink_faults world) (W.sink_faults result.0) }
    ensures no_call { (result.1 ≡ Status.GuestFault) ⊎ IsBadImage result.1 → result.0 ≡ world }
    ensures none { result.1 ≡ Status.Ok → (I.input_faults inlet.new ≡ I.input_faults inlet.old)
        × (W.sink_faults result.0 ≡ W.sink_faults world) }
    ensures file_count { F.file_faults files.old ≤ F.file_faults files.new }
    ensures input_count { I.input_faults inlet.old ≤ I.input_faults inlet.new }
    ensures disk_count { W.disk_faults world ≤ W.disk_faults result.0 }
    ensures sink_count { W.sink_faults world ≤ W.sink_faults result.0 }
{
    let guest = match files.fetch(alloc, name) {
        Ok(guest) => guest,
        Err(FetchFault::Failed) => return (world, Status::GuestFault),
        Err(FetchFault::OutOfMemory) => return (world, Status::OutOfMemory),
    };
    let start = match start_from_file(alloc, &guest) {
        Ok(state) => state,
        Err(fault) => return (world, status_of_fault(fault)),
    };
    record_guest(
        rt, alloc, inlet, world, journal, &guest, start, options, racer, gate,
    )
}

// The status of a guest whose file is refused.
fn status_of_fault(fault: ImageFault) -> Status
    ensures { result ≡ status_of_image (fault_number fault) }
{
    match fault.number() {
        Some(number) => Status::BadImage(number),
        None => Status::OutOfMemory,
    }
}
