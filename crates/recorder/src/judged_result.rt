// A result of a round is judged, and its epoch committed if it is to be.
ghost use Rattle.std.specs.Prelude.{◌≡◌, ◌<◌, ◌≤◌, ◌+◌, ◌++◌, ◌∷◌, [], ℕ, IfOk, OnOk, IsErrOf, Some, false, true, length, slice_get};
ghost use Rattle.commit_core.specs.declared.stage.Stage.TheVariants.{Taken};
ghost use Rattle.dp_base.specs.Counts.{Rose};
ghost use Rattle.dp_base.specs.declared.limits.TheConstants.{MAX_JOBS};
ghost use Rattle.dp_base.specs.Journal.{IsBody, IsEpoch, epoch_body, frame};
ghost use Rattle.epoch_record.specs.Epoch.{epoch_of};
ghost use Rattle.recorder.specs.EpochLaws.{EpochLaws};
ghost use Rattle.recorder.specs.Faults.{RecordMetNoOther};
ghost use Rattle.checkpoint.specs.State.{IsEncodable};
ghost use Rattle.commit_core.specs.Judging.{Core, HasApplied};
ghost use Rattle.epoch_runner.specs.declared.epoch_run.EpochRun.{EpochRun};
ghost use Rattle.epoch_runner.specs.declared.epoch_run.Ran.TheVariants as rans;
ghost use Rattle.recorder.specs.Keeping.{InRound, IsDueMark, CanCommit, MarkSays, StepSays, Within, next_base};

use crate::commit::commit_epoch;
use crate::due_mark::DueMark;
use crate::ready_epoch::Ready;
use crate::record_fault::RecordFault;
use crate::tally::{AfterJudging, Tally};
use checkpoint::encode_partial;
use commit_core::{Core, Event, Verdict};
use disk_model::World;
use dp_base::OutOfMemory;
use epoch_journal::{AppendFault, Journal};
use epoch_record::{Epoch, encode};
use epoch_runner::Ran;
use guest_kernel::{State, laws};
use journal_text::Frame;
use std::alloc::Global;

// Tells a core the result of the next job.
fn take_one(core: &mut Core, number: u32, ran: Ran)
    requires number { number ≡ length core.old.jobs + 1 }
    requires room { number ≤ core.old.max_jobs }
    ensures { core.new ≡ record core.old { jobs = core.old.jobs ++ Taken ran ∷ [] } }
{
    core.apply(Event::Offer(number));
    core.apply(Event::Claim(number));
    core.apply(Event::Done(number));
    core.apply(Event::Take(number, ran));
}

// Judges the result of the next job. If its epoch is to be committed its record is appended, then its output is sent,
// and then the mark is appended that is due. All memory is taken before. An epoch that is known to start in the
// committed state isn't compared with it.
pub(crate) fn commit_next<W: World>(
    alloc: Global,
    core: &mut Core,
    journal: &mut Journal,
    world: &mut W,
    tally: &mut Tally,
    every: u32,
    number: u32,
    ran: Ran,
    is_known: bool,
) -> Result<AfterJudging, RecordFault>
    requires ready { CanCommit core.old journal.old }
    requires number { number ≡ length core.old.jobs + 1 }
    requires room { number ≤ MAX_JOBS }
    requires base { IsEncodable tally.old.base }
    requires known { is_known ≡ true → (run : EpochRun) → ran ≡ rans.Epoch run → run.start ≡ core.old.committed }
    ensures says { (a : InRound) → a.setting.options.mark ≡ every → Within true a (W.history world.old) core.old journal.old tally.old →
        slice_get a.results (length core.old.jobs) ≡ Some ran → StepSays a (W.history world.new) core.new journal.new tally.new result }
    ensures goes { IfOk result (λ next. next ≡ AfterJudging.Committed → CanCommit core.new journal.new × (length core.new.jobs ≡ number) × IsEncodable tally.new.base) }
    ensures others { (input : ℕ) → RecordMetNoOther result (W.disk_faults world.old) (W.disk_faults world.new)
        (W.sink_faults world.old) (W.sink_faults world.new) input input }
    ensures no_input { IsErrOf result RecordFault.InputFault → ⊥ }
    ensures disk_cause { IsErrOf result RecordFault.DiskFault →
        Rose (W.disk_faults world.old) (W.disk_faults world.new) }
    ensures sink_cause { IsErrOf result RecordFault.OutputFault →
        Rose (W.sink_faults world.old) (W.sink_faults world.new) }
    ensures disk_count { W.disk_faults world.old ≤ W.disk_faults world.new }
    ensures sink_count { W.sink_faults world.old ≤ W.sink_faults world.new }
{
    commit_core::laws::a_round_commits_what_joins_on();
    epoch_laws();
    take_one(core, number, ran);
    match judge_next(core, is_known) {
        Verdict::Commit { epoch, out } => {
            let frame = frame_of(alloc, &epoch)?;
            let since = tally.since.saturating_add(1);
            let mark = due_mark(alloc, core.committed(), &tally.base, every, since)?;
            let ready = Ready { frame, out };
            commit_epoch(journal, world, &ready)?;
            tally.count(epoch.slices.as_slice(), ready.out.len() as u64);
            append_mark(journal, world, tally, mark)?;
            Ok(AfterJudging::Committed)
        }
        Verdict::Squash { .. } => Ok(AfterJudging::Squashed),
        Verdict::Over { .. } => Ok(AfterJudging::Over),
        // A result that was taken just now has no other verdict.
        _ => unreachable!(),
    }
}

// Judges the next result. The start of an epoch isn't compared if it is known to be the committed state.
fn judge_next(core: &mut Core, is_known: bool) -> Verdict
    requires { is_known ≡ true → (run : EpochRun) → slice_get core.old.jobs core.old.judged ≡ Some (Taken (rans.Epoch run)) → run.start ≡ core.old.committed }
    ensures { HasApplied core.old Event.Judge result core.new }
{
    if is_known {
        core.judge_known()
    } else {
        core.apply(Event::Judge)
    }
}

// The mark that is due `since` epochs after the last one, if one is, against its base.
fn due_mark(
    alloc: Global,
    state: &State,
    base: &State,
    every: u32,
    since: u32,
) -> Result<Option<DueMark>, OutOfMemory>
    requires state { IsEncodable state.now }
    requires base { IsEncodable base.now }
    ensures { IfOk result (λ mark. IsDueMark every since base.now state.now mark) }
{
    checkpoint::laws::a_partial_is_short();
    journal_text::laws::a_record_is_its_body();
    if state.ended() || since != every {
        return Ok(None);
    }
    let body = encode_partial(alloc, state, base)?;
    let frame = Frame::of(alloc, &body)?;
    let state = state.share(alloc)?;
    Ok(Some(DueMark { frame, state }))
}

// Appends the mark that is due, if one is.
fn append_mark<W: World>(
    journal: &mut Journal,
    world: &mut W,
    tally: &mut Tally,
    mark: Option<DueMark>,
) -> Result<(), RecordFault>
    requires { journal.old.failed ≡ false }
    ensures works { OnOk result (journal.new.failed ≡ false) }
    ensures base { OnOk result (tally.new.base ≡ next_base mark tally.old.base) }
    ensures says { (a : InRound) (core : Core) → Within false a (W.history world.old) core journal.old tally.old →
        IsDueMark a.setting.options.mark tally.old.since tally.old.base core.committed mark → MarkSays a (W.history world.new) core journal.new tally.new result }
    ensures others { (input : ℕ) → RecordMetNoOther result (W.disk_faults world.old) (W.disk_faults world.new)
        (W.sink_faults world.old) (W.sink_faults world.new) input input }
    ensures no_input { IsErrOf result RecordFault.InputFault → ⊥ }
    ensures no_sink { IsErrOf result RecordFault.OutputFault → ⊥ }
    ensures disk_cause { IsErrOf result RecordFault.DiskFault →
        Rose (W.disk_faults world.old) (W.disk_faults world.new) }
    ensures disk_count { W.disk_faults world.old ≤ W.disk_faults world.new }
    ensures sink_count { W.sink_faults world.new ≡ W.sink_faults world.old }
{
    checkpoint::laws::a_partial_is_short();
    let mark = match mark {
        Some(mark) => mark,
        None => return Ok(()),
    };
    match journal.append(world, &mark.frame) {
        Ok(()) => {
            tally.since = 0;
            tally.base = mark.state;
            Ok(())
        }
        Err(AppendFault::DiskFault) => Err(RecordFault::DiskFault),
        Err(AppendFault::Full { end, need }) => Err(RecordFault::JournalFull { end, need }),
        // No append has failed before this one.
        Err(AppendFault::Failed { .. }) => unreachable!(),
    }
}

// What the laws of the crates below say of one epoch.
fn epoch_laws()
    ensures { EpochLaws }
{
    laws::a_guest_goes_on_while_a_thread_runs();
    laws::a_run_is_as_long_as_its_slices();
    laws::an_epoch_more();
    laws::threads_are_few();
    epoch_runner::laws::an_epoch_ends_by_a_rule();
    epoch_runner::laws::an_epoch_is_supplied();
    checkpoint::laws::a_run_keeps_a_state_encodable();
}

// The frame of an epoch's record.
fn frame_of(alloc: Global, epoch: &Epoch) -> Result<Frame, OutOfMemory>
    requires epoch { IsEpoch (epoch_of epoch.now) }
    requires fits { IsBody (epoch_body (epoch_of epoch.now)) }
    ensures frame { IfOk result (λ f. f ≡ frame (epoch_body (epoch_of epoch.now))) }
    ensures some { IfOk result (λ f. 0 < length f) }
{
    journal_text::laws::a_record_is_its_body();
    let body = encode(alloc, epoch)?;
    Frame::of(alloc, &body)
}
