//! What follows from the definitions of a round alone. A call of such a function costs nothing, and hands the law to
//! the caller's proof.

ghost use Rattle.std.specs.Prelude.{◌≡◌, false, List, [], map};
ghost use Rattle.guest_kernel.specs.declared.state.State.{State};
ghost use Rattle.epoch_runner.specs.declared.epoch_run.EpochRun.{EpochRun};
ghost use Rattle.epoch_runner.specs.declared.epoch_run.Ran.{Ran};
ghost use Rattle.commit_core.specs.JudgedRound.{IsWithin, SaysOf};
ghost use Rattle.commit_core.specs.Judging.{Core, HasApplied, HasJudged};
ghost use Rattle.commit_core.specs.declared.stage.Stage.TheVariants.{Taken};
ghost use Rattle.commit_core.specs.Noting.{NotesOrRefuses};
ghost use Rattle.commit_core.specs.declared.event.Event.{Event};
ghost use Rattle.commit_core.specs.declared.verdict.Verdict.{Verdict};

/// An event is noted exactly if it is the next one that may happen, and then it has its effect. If it is refused
/// nothing changes.
pub fn an_event_is_noted_or_refused()
    ensures { (c there : Core) (e : Event) (verdict : Verdict) → HasApplied c e verdict there → NotesOrRefuses c e verdict there }
{}

/// Of the results of a round, judged in order once all were taken, the longest list of the first ones is committed in
/// which each is an epoch that starts where the one before ended. The verdict on the next one is `Squash` if its start
/// differs from the committed state, and `Over` if it is idle there. If there is none it is `NotYet`.
pub fn a_round_commits_what_joins_on()
    ensures starts { (s : State) (results : List Ran) (core : Core) → core.committed ≡ s → core.jobs ≡ map Taken results →
        core.judged ≡ 0 → core.closed ≡ false → IsWithin s results [] core }
    ensures judged { (s : State) (results : List Ran) (runs : List EpochRun) (core there : Core) (verdict : Verdict) →
        IsWithin s results runs core → HasJudged core verdict there → SaysOf s results runs there verdict }
{}
