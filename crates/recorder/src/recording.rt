// A whole recording: begin, one round after another, and the report.
ghost use Rattle.std.specs.Prelude.{◌≡◌, ◌<◌, ◌≤◌, ℕ, false, Option, Err, IfErr, IfOk, IsErrOf};
ghost use Rattle.disk_model.specs.Input.{Input};
ghost use Rattle.racing_runner.specs.Offers.{Tells};
ghost use Rattle.commit_core.specs.Judging.{new_core};
ghost use Rattle.dp_base.specs.Counts.{Rose};
ghost use Rattle.dp_base.specs.declared.limits.TheConstants.{MAX_JOBS};
ghost use Rattle.guest_kernel.specs.Start.{IsGuestFile, start_state};
ghost use Rattle.guest_kernel.specs.State.{has_ended};
ghost use Rattle.recorder.specs.Faults.{RecordMetNoOther};
ghost use Rattle.recorder.specs.Keeping.{HasStopped, Setting, SoFar};
ghost use Rattle.recorder.specs.Moments.{EachMoment};
ghost use Rattle.recorder.specs.Recording.{Recorded};
ghost use Rattle.recorder.specs.Taking.{taking_outcome};
ghost use Rattle.recorder.specs.declared.record_fault.RecordFault.TheVariants as faults;

use crate::committer::Committer;
use crate::options::Options;
use crate::plan::plan_of;
use crate::record_fault::RecordFault;
use crate::report::send_report;
use crate::round_input::draw;
use crate::tally::{AfterJudging, Tally};
use commit_core::Core;
use disk_model::{Gate, Inlet, World};
use dp_base::OutOfMemory;
use dp_base::limits::MAX_JOBS;
use dp_report::Report;
use epoch_journal::Journal;
use epoch_stream::stream;
use guest_kernel::{State, laws};
use racing_runner::Racer;
use std::alloc::Global;
use std::sync::Wait;
use std::thread::Threads;
use supply::{MAX_ROOM, Supply};

/// Records a guest from its start state into a journal on the attached disk, with a mark after every `options.mark`
/// epochs at which it hasn't ended. Sends its output on Out, each epoch's once the epoch's record is on the disk. Once
/// the guest has ended, sends the report's line on Note. A round reads from the input exactly if a thread waits for it,
/// and reads the clock once. The world is returned whatever happens.
///
/// On a disk that was empty, with nothing pending, a crash at any moment of the call leaves one of two things. Either
/// there is no journal, and nothing was sent. Or the journal holds whole epochs that are one run of the guest from its
/// start, with answers that are faithful to the input, and a prefix of that run's output was sent.
///
/// # Errors
///
/// See [`RecordFault`]. The disk's length is looked at first; after `JournalInUse` nothing was written, sent or taken.
pub fn record_<
    R: Threads + Wait + Sync,
    W: World + Drop,
    I: Inlet,
    Q: Racer + Drop + Send,
    G: Gate + Sync,
>(
    rt: &R,
    alloc: Global,
    world: W,
    inlet: &mut I,
    guest: &[u8],
    start: State,
    options: Options,
    racer: Q,
    gate: &G,
) -> (W, Result<Report, RecordFault>)
    requires guest { IsGuestFile guest.now }
    requires starts { start ≡ start_state guest.now }
    ensures recorded { Recorded guest.now (Q.tells racer) start options (I.input inlet.old) (I.input inlet.new)
        (W.history world) (W.history result.0) result.1 }
    ensures moments { EachMoment guest.now options.mark start (I.input inlet.old) (I.input inlet.new)
        (W.history world) (W.history result.0) }
    ensures others { RecordMetNoOther result.1 (W.disk_faults world) (W.disk_faults result.0) (W.sink_faults world) (W.sink_faults result.0)
        (I.input_faults inlet.old) (I.input_faults inlet.new) }
    ensures input_cause { result.1 ≡ Err faults.InputFault → Rose (I.input_faults inlet.old) (I.input_faults inlet.new) }
    ensures disk_cause { result.1 ≡ Err faults.DiskFault → Rose (W.disk_faults world) (W.disk_faults result.0) }
    ensures sink_cause { result.1 ≡ Err faults.OutputFault → Rose (W.sink_faults world) (W.sink_faults result.0) }
    ensures input_count { I.input_faults inlet.old ≤ I.input_faults inlet.new }
    ensures disk_count { W.disk_faults world ≤ W.disk_faults result.0 }
    ensures sink_count { W.sink_faults world ≤ W.sink_faults result.0 }
{
    let mut world = world;
    let (journal, mut supply, base) = match begin(alloc, &mut world, guest, &start, &options) {
        Ok(begun) => begun,
        Err(fault) => return (world, Err(fault)),
    };
    let mut recording = Recording {
        journal,
        tally: Tally {
            first: 1,
            epochs: 0,
            since: 0,
            sent: 0,
            base,
        },
        state: start,
        racer,
        squashes: 0,
    };
    'rounds: while !recording.state.ended() {
        let steps = recording.state.steps;
        if steps >= options.limit {
            return (world, Err(RecordFault::StepLimit(steps)));
        }
        let (back, next) = round(
            rt,
            alloc,
            world,
            inlet,
            &options,
            &mut supply,
            recording,
            gate,
        );
        world = back;
        match next {
            Ok(next) => recording = next,
            Err(fault) => return (world, Err(fault)),
        }
    }
    let answer = send_report(
        alloc,
        &mut world,
        &recording.state,
        recording.tally.epochs,
        recording.squashes,
        recording.tally.sent,
    );
    (world, answer)
}

// A recording between two rounds.
#[derive(Drop)]
struct Recording<Q: Drop> {
    journal: Journal,
    tally: Tally,
    state: State,
    racer: Q,
    squashes: u32,
}

// Begins a journal, and makes the supply of the rounds and the base of the first mark.
fn begin<W: World>(
    alloc: Global,
    world: &mut W,
    guest: &[u8],
    start: &State,
    options: &Options,
) -> Result<(Journal, Supply, State), RecordFault>
    requires guest { IsGuestFile guest.now }
    requires starts { start.now ≡ start_state guest.now }
    ensures begun { (tells : Tells) (given : Option Input) → IfOk result (λ r. SoFar
        (record { guest = guest.now; tells = tells; options = options.now; start = start.now; given = given; before = W.history world.old })
        given (W.history world.new) tells start.now r.1 r.0 (record { first = 1; epochs = 0; since = 0; sent = 0; base = r.2 }) 0) }
    ensures stopped { (tells : Tells) (given : Option Input) → IfErr result (λ fault. HasStopped
        (record { guest = guest.now; tells = tells; options = options.now; start = start.now; given = given; before = W.history world.old })
        given (W.history world.new) fault) }
    ensures others { (input : ℕ) → RecordMetNoOther result (W.disk_faults world.old) (W.disk_faults world.new)
        (W.sink_faults world.old) (W.sink_faults world.new) input input }
    ensures no_input { IsErrOf result RecordFault.InputFault → ⊥ }
    ensures no_sink { IsErrOf result RecordFault.OutputFault → ⊥ }
    ensures disk_cause { IsErrOf result RecordFault.DiskFault →
        Rose (W.disk_faults world.old) (W.disk_faults world.new) }
    ensures disk_count { W.disk_faults world.old ≤ W.disk_faults world.new }
    ensures sink_count { W.sink_faults world.new ≡ W.sink_faults world.old }
{
    elf_image::laws::a_file_without_fault_has_segments();
    laws::a_guest_goes_on_while_a_thread_runs();
    laws::threads_are_few();
    dp_base::laws::lengths();
    checkpoint::laws::a_start_state_is_encodable();
    let journal = Journal::begin(alloc, world, guest, options.room)?;
    let supply = Supply::new(alloc, MAX_ROOM)?;
    let base = start.share(alloc)?;
    Ok((journal, supply, base))
}

// Runs a round, whose epochs are committed while later ones still run.
fn round<
    R: Threads + Wait + Sync,
    W: World + Drop,
    I: Inlet,
    Q: Racer + Drop + Send,
    G: Gate + Sync,
>(
    rt: &R,
    alloc: Global,
    world: W,
    inlet: &mut I,
    options: &Options,
    supply: &mut Supply,
    recording: Recording<Q>,
    gate: &G,
) -> (W, Result<Recording<Q>, RecordFault>)
    requires so_far { (a : Setting) × (a.options ≡ options.now)
        × SoFar a (I.input inlet.old) (W.history world) (Q.tells recording.racer) recording.state supply.old recording.journal recording.tally recording.squashes }
    requires going { has_ended recording.state.end ≡ false }
    requires left { recording.state.steps < options.now.limit }
    ensures went { (a : Setting) → a.options ≡ options.now →
        SoFar a (I.input inlet.old) (W.history world) (Q.tells recording.racer) recording.state supply.old recording.journal recording.tally recording.squashes →
        IfOk result.1 (λ next. SoFar a (I.input inlet.new) (W.history result.0) (Q.tells next.racer) next.state supply.new next.journal next.tally next.squashes
        × (recording.state.steps < next.state.steps)) }
    ensures stopped { (a : Setting) → a.options ≡ options.now →
        SoFar a (I.input inlet.old) (W.history world) (Q.tells recording.racer) recording.state supply.old recording.journal recording.tally recording.squashes →
        IfErr result.1 (λ fault. HasStopped a (I.input inlet.new) (W.history result.0) fault) }
    ensures others { RecordMetNoOther result.1 (W.disk_faults world) (W.disk_faults result.0) (W.sink_faults world) (W.sink_faults result.0)
        (I.input_faults inlet.old) (I.input_faults inlet.new) }
    ensures input_cause { IsErrOf result.1 RecordFault.InputFault → Rose (I.input_faults inlet.old) (I.input_faults inlet.new) }
    ensures disk_cause { IsErrOf result.1 RecordFault.DiskFault → Rose (W.disk_faults world) (W.disk_faults result.0) }
    ensures sink_cause { IsErrOf result.1 RecordFault.OutputFault → Rose (W.sink_faults world) (W.sink_faults result.0) }
    ensures input_count { I.input_faults inlet.old ≤ I.input_faults inlet.new }
    ensures disk_count { W.disk_faults world ≤ W.disk_faults result.0 }
    ensures sink_count { W.sink_faults world ≤ W.sink_faults result.0 }
{
    commit_core::laws::a_round_commits_what_joins_on();
    epoch_runner::laws::a_supply_lets_a_guest_step();
    supply::an_answer_is_of_the_input();
    supply::the_windows_are_the_input();
    if draw(inlet, supply, &recording.state).is_err() {
        return (world, Err(RecordFault::InputFault));
    }
    let Recording {
        journal,
        tally,
        state,
        racer,
        squashes,
    } = recording;
    let core = match core_over(alloc, &state) {
        Ok(core) => core,
        Err(_) => return (world, Err(RecordFault::OutOfMemory)),
    };
    let plan = plan_of(options, tally.first, &state);
    let committer = Committer {
        alloc,
        world,
        journal,
        core,
        tally,
        every: options.mark,
        taken: 0,
        last: Ok(AfterJudging::Committed),
    };
    let (committer, racer, answer) = stream(
        rt,
        alloc,
        state,
        racer,
        supply,
        &plan,
        options.workers,
        gate,
        committer,
    );
    let Committer {
        world,
        journal,
        core,
        tally,
        last,
        ..
    } = committer;
    match outcome(last, answer) {
        Ok(squashed) => {
            let state = core.into_committed();
            let squashes = squashes + squashed;
            let next = Recording {
                journal,
                tally,
                state,
                racer,
                squashes,
            };
            (world, Ok(next))
        }
        Err(fault) => (world, Err(fault)),
    }
}

// How many results a round has squashed, or why the recording stops: by what became of the last result that was taken,
// and by the round's answer. If the committer took no more, memory that ran out afterwards stops nothing.
fn outcome(
    last: Result<AfterJudging, RecordFault>,
    answer: Result<(), OutOfMemory>,
) -> Result<u32, RecordFault>
    ensures { result ≡ taking_outcome last answer }
{
    match last {
        Ok(AfterJudging::Committed) => match answer {
            Ok(()) => Ok(0),
            Err(_) => Err(RecordFault::OutOfMemory),
        },
        Ok(AfterJudging::Squashed) => Ok(1),
        Ok(AfterJudging::Over) => Ok(0),
        Err(fault) => Err(fault),
    }
}

// A core over this committed state.
fn core_over(alloc: Global, committed: &State) -> Result<Core, OutOfMemory>
    ensures { IfOk result (λ core. core ≡ new_core committed.now MAX_JOBS) }
{
    Core::round(alloc, committed.share(alloc)?, MAX_JOBS)
}
