//! What follows from the definitions of a recording alone. A call of such a function costs nothing, and hands the law
//! to the caller's proof.

ghost use Rattle.std.specs.Prelude.{◌≡◌, ◌≤◌, ◌++◌, ◌∷◌, ℕ, Bool, List, [], Result, Some, length, true};
ghost use Rattle.commit_core.specs.declared.event.Event as rounds;
ghost use Rattle.commit_core.specs.declared.verdict.Verdict.{Verdict};
ghost use Rattle.commit_core.specs.Judging.{Core};
ghost use Rattle.disk_model.specs.History.{History};
ghost use Rattle.disk_model.specs.Input.{Input, is_at_end};
ghost use Rattle.dp_base.specs.Encoding.{IsPrefixOf};
ghost use Rattle.dp_base.specs.Journal.{Epoch, IsGuest};
ghost use Rattle.dp_base.specs.declared.limits.TheConstants.{MAX_JOURNAL_BYTES};
ghost use Rattle.dp_base.specs.declared.answer.Answer.{Answer};
ghost use Rattle.dp_base.specs.declared.answer.Answer.TheVariants.{Read};
ghost use Rattle.epoch_journal.specs.declared.append.AppendFault.{AppendFault};
ghost use Rattle.epoch_journal.specs.Standing.{Journal, Stands};
ghost use Rattle.epoch_record.specs.declared.epoch.Epoch as epochs;
ghost use Rattle.epoch_runner.specs.Running.{HasRun};
ghost use Rattle.epoch_runner.specs.declared.bounds.Bounds.{Bounds};
ghost use Rattle.epoch_runner.specs.declared.epoch_run.Ran.{Ran};
ghost use Rattle.guest_kernel.specs.Answers.{bytes_read};
ghost use Rattle.guest_kernel.specs.declared.state.State.{State};
ghost use Rattle.recorder.specs.declared.options.Options.{Options};
ghost use Rattle.recorder.specs.declared.commit.CommitFault.{CommitFault};
ghost use Rattle.recorder.specs.Drawing.{RoundInput, HaveRead};
ghost use Rattle.journal_text.specs.Reading.{journal_of};
ghost use Rattle.recorder.specs.CallEvents.{AppendIsEvents, AppliedIsEvent, BegunIsFirst, CommitIsEvents, CommitIsInHand, InputIsRound, SendIsEvents};
ghost use Rattle.recorder.specs.Machine.{MachineEvent, IsTakeable, Machine, Reaches, first_machine, judged_runs};
ghost use Rattle.recorder.specs.MachineKept.{IsKept, answers_of_runs, round_inputs_in};
ghost use Rattle.racing_runner.specs.declared.plan.Plan.{Plan};
ghost use Rattle.racing_runner.specs.Offers.{Tells};
ghost use Rattle.recorder.specs.Recording.{EachIsNextEpoch, IsNextEpoch, NextEpoch, Run, RunOn, TellsAll, round_inputs, round_inputs_on, epochs, epochs_on, next_epoch, squashes};
ghost use Rattle.supply.specs.declared.TheConstants.{MAX_ROOM};
ghost use Rattle.supply.specs.Supplied.{Supplied, empty};
ghost use Rattle.sync_hints.specs.declared.hints.Hints.{Hints};
ghost use Rattle.supply.specs.Windows.{bytes_left};

/// The epoch that is next from a state, by a supply, the options of a recording and the thread that is first, is one,
/// with one end and one output: whoever records it again gets the same.
pub fn an_epoch_is_determined()
    ensures { (options : Options) (first : ℕ) (s : State) (w : Supplied) (e f : Epoch) (end other : State) (output written : List ℕ) →
        IsNextEpoch options first s w e end output → IsNextEpoch options first s w f other written →
        (e ≡ f) × (end ≡ other) × (output ≡ written) }
{
    epoch_runner::laws::a_schedule_is_determined();
}

/// If a racer's offers are known, two recordings whose rounds read the same from the input are the same, round by
/// round: whatever the number of workers and whichever of them ends first, the same epochs are committed, the same
/// results squashed, and the end is the same.
pub fn a_told_racer_leaves_no_choice()
    ensures { (tells : Tells) → TellsAll tells → (options : Options) (start : State) (r q : Run tells options start) → round_inputs r ≡ round_inputs q →
        (r.rounds ≡ q.rounds) × (r.end ≡ q.end) × (squashes r ≡ squashes q) }
{
    epoch_runner::laws::a_schedule_is_determined();
}

/// A recording that stopped early has the first epochs of any that reads the same and goes further, if the racer's
/// offers are known: between two rounds (`rounds`), within a round (`within`), and with the epoch that is next
/// (`next`).
pub fn a_told_racer_gives_the_first_epochs()
    ensures rounds { (tells : Tells) → TellsAll tells → (options : Options) (start : State) (r q : Run tells options start) →
        IsPrefixOf (round_inputs r) (round_inputs q) → IsPrefixOf r.rounds q.rounds }
    ensures within { (tells : Tells) → TellsAll tells → (options : Options) (start : State) (on : RunOn tells options start) (q : Run tells options start) →
        IsPrefixOf (round_inputs_on on) (round_inputs q) → IsPrefixOf (epochs_on on) (epochs q) }
    ensures next { (tells : Tells) → TellsAll tells → (options : Options) (start : State) (on : RunOn tells options start) (n : NextEpoch on) (q : Run tells options start) →
        IsPrefixOf (round_inputs_on on) (round_inputs q) → IsPrefixOf (epochs_on on ++ next_epoch n ∷ []) (epochs q) }
{
    epoch_runner::laws::a_schedule_is_determined();
}

/// If a racer offers nothing, each round of a recording commits one epoch, the one that is next, and no result is
/// squashed.
pub fn an_idle_racer_runs_one_job()
    ensures { (tells : Tells) → ((s : State) (w : Supplied) (p : Plan) → tells s w p ≡ Some []) → (options : Options) (start : State) (r : Run tells options start) →
        EachIsNextEpoch options 1 start (empty MAX_ROOM) r.rounds }
{}

/// Each round commits an epoch, so no more results are squashed than epochs are committed.
pub fn a_round_commits_an_epoch()
    ensures { (tells : Tells) (options : Options) (start : State) (r : Run tells options start) → squashes r ≤ length (epochs r) }
{}

/// However the input is cut into pieces, the answers to a recording's reads, joined, are the first of the bytes that
/// were left, and a read that took none came when all of them had been read.
pub fn reads_take_the_input()
    ensures joined { (round_inputs : List RoundInput) (answers : List Answer) (i j : Input) → HaveRead round_inputs answers i j →
        IsPrefixOf (bytes_read answers) (bytes_left i.left) }
    ensures end { (round_inputs : List RoundInput) (answers : List Answer) (i j : Input) → HaveRead round_inputs answers i j →
        (i.ended ≡ true → is_at_end i.left ≡ true) → (before after : List Answer) →
        answers ≡ before ++ Read [] ∷ after → bytes_read before ≡ bytes_left i.left }
{
    supply::an_answer_is_of_the_input();
    supply::the_windows_are_the_input();
}

/// Whatever happens after a journal was begun keeps what `specs/MachineKept.antt` says: in any order, whatever jobs,
/// hints and results are offered, whichever calls of the devices fail, and whenever the machine stops.
pub fn every_event_keeps()
    ensures { (guest : List ℕ) (start : State) (h : History) (i : Input) (supplied : Bool) (events : List MachineEvent) (m : Machine) →
        IsGuest guest → length (journal_of guest []) ≤ MAX_JOURNAL_BYTES → Stands guest [] h →
        Reaches guest supplied (first_machine start h i) events m → IsKept guest start h m }
{}

/// If every result that was taken was answered by the supply of its round, the answers of all committed epochs are
/// faithful to the input that the rounds read.
pub fn answers_are_honest()
    ensures { (guest : List ℕ) (start : State) (h : History) (i : Input) (events : List MachineEvent) (m : Machine) →
        IsGuest guest → length (journal_of guest []) ≤ MAX_JOURNAL_BYTES → Stands guest [] h → start.input ≡ 0 →
        Reaches guest true (first_machine start h i) events m →
        HaveRead (round_inputs_in events) (answers_of_runs (judged_runs m)) i m.input }
{
    supply::an_answer_is_of_the_input();
    supply::the_windows_are_the_input();
}

/// What `Journal::begin` leaves at `Ok` is a recording as it begins, from which `every_event_keeps` speaks.
pub fn a_begun_journal_is_a_beginning()
    ensures { (guest : List ℕ) (start : State) (i : Input) (room : ℕ) (j : Journal) (before after : History) →
        BegunIsFirst guest start i room j before after }
{}

/// A core that is made over the committed state after `draw` has read the round's input is the machine's next round.
pub fn a_new_core_is_a_round()
    ensures { (guest : List ℕ) (supplied : Bool) (m : Machine) (d : RoundInput) (jobs : ℕ) (i : Input) (w : Supplied) (core : Core) →
        InputIsRound guest supplied m d jobs i w core }
{
    epoch_runner::laws::a_supply_lets_a_guest_step();
}

/// What `run_epoch` answers with the round's supply may be taken, whatever the job's start, hints and bounds are.
pub fn a_run_may_be_taken()
    ensures { (supplied : Bool) (s : State) (hints : Hints) (w : Supplied) (bounds : Bounds) (ran : Ran) →
        HasRun s hints w bounds ran → IsTakeable supplied w ran }
{
    epoch_runner::laws::an_epoch_is_supplied();
}

/// An event that `Core::apply` doesn't refuse is one of the machine's, and leaves the core that `apply` leaves. One
/// that it refuses isn't the machine's, and changes nothing. An epoch that is committed is in hand then.
pub fn an_applied_event_is_an_event()
    ensures applied { (guest : List ℕ) (supplied : Bool) (m : Machine) (e : rounds.Event) (verdict : Verdict) (core : Core) →
        AppliedIsEvent guest supplied m e verdict core }
    ensures in_hand { (guest : List ℕ) (supplied : Bool) (m : Machine) (e : epochs.Epoch) (out : List ℕ) (core : Core) →
        CommitIsInHand guest supplied m e out core }
{
    commit_core::laws::an_event_is_noted_or_refused();
}

/// The calls that `Journal::append` makes for the record in hand are the record's four events, or those up to one that
/// fails.
pub fn an_append_is_events()
    ensures { (guest : List ℕ) (supplied : Bool) (m : Machine) (before after : Journal) (added : List ℕ)
        (result : Result (Unit {0}) AppendFault) (t : History) → AppendIsEvents guest supplied m before after added result t }
{}

/// The calls that send the output of acknowledged epochs are events, and so is one that fails.
pub fn a_sending_is_events()
    ensures { (guest : List ℕ) (supplied : Bool) (m : Machine) (bytes : List ℕ) (ok : Bool) (t : History) →
        SendIsEvents guest supplied m bytes ok t }
{}

/// The calls that `commit_epoch` makes for the epoch in hand are events, whatever it answers: the record's four, and
/// then the pieces of the output. After `Ok` the next result may be judged, and the next epoch committed.
pub fn a_commit_is_events()
    ensures { (guest : List ℕ) (supplied : Bool) (m : Machine) (before after : Journal) (added output : List ℕ)
        (result : Result (Unit {0}) CommitFault) (t : History) → CommitIsEvents guest supplied m before after added output result t }
{}
