// A round's results, judged in order.
ghost use Rattle.std.specs.Prelude.{◌≡◌, ◌<◌, ◌≤◌, ◌+◌, IfOk, [], false, true, slice_get, Some};
ghost use Rattle.commit_core.specs.declared.stage.Stage.TheVariants.{Taken};
ghost use Rattle.epoch_runner.specs.declared.epoch_run.EpochRun.{EpochRun};
ghost use Rattle.epoch_runner.specs.declared.epoch_run.Ran.TheVariants.{Epoch};
ghost use Rattle.std.specs.Option.{option_copied};
ghost use Rattle.dp_base.specs.declared.limits.TheConstants.{MAX_JOBS};
ghost use Rattle.commit_core.specs.Judging.{HasApplied, HasJudged, IsJudgement, on_claim, epoch_in, new_core, on_done, on_offer, stage_at, on_take};

use crate::event::Event;
use crate::stage::Stage;
use crate::verdict::Verdict;
use dp_base::OutOfMemory;
use epoch_runner::{EpochRun, Ran};
use guest_kernel::State;
use state_compare::equal;
use std::alloc::Global;
use std::marker::Model;
use std::mem::replace;

/// A round: the committed state, its jobs and their results.
#[derive(Drop)]
pub struct Core {
    committed: State,
    // How many jobs the round has at most.
    max_jobs: u32,
    // The jobs that were offered, from number 1 on. There is capacity for all.
    jobs: Vec<Stage>,
    // How many were committed.
    judged: u32,
    closed: bool,
}

impl Model for Core {
    ghost use Rattle.std.specs.Prelude.{◌≤◌, length};
    ghost use Rattle.std.specs.Vec.{vec_capacity};
    ghost use Rattle.dp_base.specs.declared.limits.TheConstants.{MAX_JOBS};
    ghost use Rattle.commit_core.specs.Judging.{Core};

    ghost Value = { Core };

    ghost view = { λ c. record { committed = c.committed; max_jobs = c.max_jobs; jobs = c.jobs.items; judged = c.judged; closed = c.closed } };

    ghost invariant = { λ c. (length c.jobs.items ≤ c.max_jobs) × (c.max_jobs ≤ vec_capacity c.jobs) × (c.max_jobs ≤ MAX_JOBS) × (c.judged ≤ length c.jobs.items) };
}

// What becomes of the next job.
#[derive(Clone, Copy)]
enum Judgement {
    NotYet,
    Commit,
    Squash,
    Over,
}

impl Core {
    /// Makes a round of at most this many jobs, 1 to 64, of which none is offered yet.
    pub fn round(alloc: Global, committed: State, jobs: u32) -> Result<Core, OutOfMemory>
        requires some { 0 < jobs }
        requires few { jobs ≤ MAX_JOBS }
        ensures { IfOk result (λ core. core ≡ new_core committed jobs) }
    {
        let places = Vec::with_capacity(alloc, jobs as usize)?;
        Ok(Core {
            committed,
            max_jobs: jobs,
            jobs: places,
            judged: 0,
            closed: false,
        })
    }

    /// Notes an event, or judges the next result. Takes no memory.
    pub fn apply(&mut self, event: Event) -> Verdict
        ensures { HasApplied self.old event result self.new }
    {
        match event {
            Event::Offer(i) => self.offer(i),
            Event::Claim(i) => self.claim(i),
            Event::Done(i) => self.finish(i),
            Event::Take(i, ran) => self.take(i, ran),
            Event::Judge => self.judge(false),
        }
    }

    /// Judges the next result as `apply` does. An epoch is known to start in the committed state, so its start isn't
    /// compared.
    pub fn judge_known(&mut self) -> Verdict
        requires { (run : EpochRun) → slice_get self.old.jobs self.old.judged ≡ Some (Taken (Epoch run)) → run.start ≡ self.old.committed }
        ensures { HasApplied self.old Event.Judge result self.new }
    {
        self.judge(true)
    }

    /// Returns the committed state.
    pub fn committed(&self) -> &State
        ensures { result.now ≡ self.now.committed }
    {
        &self.committed
    }

    /// Returns the committed state, and drops the rest.
    pub fn into_committed(self) -> State
        ensures { result ≡ self.committed }
    {
        self.committed
    }

    fn offer(&mut self, i: u32) -> Verdict
        ensures { (result, self.new) ≡ on_offer self.old i }
    {
        let count = self.jobs.len() as u32;
        if 0 < i && i <= count {
            return Verdict::Double { i };
        }
        if i != count + 1 || i > self.max_jobs {
            return Verdict::Stranger { i };
        }
        if self.jobs.push(Stage::Offered).is_err() {
            unreachable!();
        }
        Verdict::Noted
    }

    fn claim(&mut self, i: u32) -> Verdict
        ensures { (result, self.new) ≡ on_claim self.old i (stage_at self.old.jobs i) }
    {
        match stage_of(&self.jobs, i) {
            None => Verdict::Stranger { i },
            Some(Stage::Offered) => {
                self.jobs[i as usize - 1] = Stage::Claimed;
                Verdict::Noted
            }
            Some(Stage::Claimed) => Verdict::Double { i },
            Some(Stage::Done) => Verdict::Double { i },
            Some(Stage::Taken(_)) => Verdict::Double { i },
            Some(Stage::Judged) => Verdict::Double { i },
        }
    }

    fn finish(&mut self, i: u32) -> Verdict
        ensures { (result, self.new) ≡ on_done self.old i (stage_at self.old.jobs i) }
    {
        match stage_of(&self.jobs, i) {
            None => Verdict::Stranger { i },
            Some(Stage::Offered) => Verdict::Stranger { i },
            Some(Stage::Claimed) => {
                self.jobs[i as usize - 1] = Stage::Done;
                Verdict::Noted
            }
            Some(Stage::Done) => Verdict::Double { i },
            Some(Stage::Taken(_)) => Verdict::Double { i },
            Some(Stage::Judged) => Verdict::Double { i },
        }
    }

    fn take(&mut self, i: u32, ran: Ran) -> Verdict
        ensures { (result, self.new) ≡ on_take self.old i ran (stage_at self.old.jobs i) }
    {
        match stage_of(&self.jobs, i) {
            None => Verdict::Stranger { i },
            Some(Stage::Offered) => Verdict::Stranger { i },
            Some(Stage::Claimed) => Verdict::Stranger { i },
            Some(Stage::Done) => {
                self.jobs[i as usize - 1] = Stage::Taken(ran);
                Verdict::Noted
            }
            Some(Stage::Taken(_)) => Verdict::Double { i },
            Some(Stage::Judged) => Verdict::Double { i },
        }
    }

    // Judges the next result. An epoch's start is compared if it isn't known to be the committed state.
    fn judge(&mut self, known: bool) -> Verdict
        requires { known ≡ true → (run : EpochRun) → slice_get self.old.jobs self.old.judged ≡ Some (Taken (Epoch run)) → run.start ≡ self.old.committed }
        ensures { HasJudged self.old result self.new }
    {
        if self.closed {
            return Verdict::Closed;
        }
        let i = self.judged + 1;
        match judged_as(stage_of(&self.jobs, i), &self.committed, known) {
            Judgement::NotYet => Verdict::NotYet { i },
            Judgement::Squash => {
                self.closed = true;
                Verdict::Squash { i }
            }
            Judgement::Over => {
                self.closed = true;
                Verdict::Over { i }
            }
            Judgement::Commit => {
                let taken = replace(&mut self.jobs[self.judged as usize], Stage::Judged);
                let Some(run) = epoch_in(taken) else {
                    unreachable!();
                };
                self.committed = run.end;
                self.judged += 1;
                Verdict::Commit {
                    epoch: run.epoch,
                    out: run.out,
                }
            }
        }
    }
}

// The last event of a job, or `None` if it wasn't offered.
fn stage_of(jobs: &[Stage], i: u32) -> Option<&Stage>
    ensures { option_copied result ≡ stage_at jobs.now i }
{
    if i == 0 {
        return None;
    }
    jobs.get(i as usize - 1)
}

// The epoch that was taken. `None` if there is none.
fn epoch_in(stage: Stage) -> Option<EpochRun>
    ensures { result ≡ epoch_in stage }
{
    match stage {
        Stage::Taken(Ran::Epoch(run)) => Some(run),
        Stage::Taken(Ran::Idle(_)) => None,
        Stage::Offered => None,
        Stage::Claimed => None,
        Stage::Done => None,
        Stage::Judged => None,
    }
}

// The judgement of a job, by its last event.
fn judged_as(stage: Option<&Stage>, committed: &State, known: bool) -> Judgement
    requires { known ≡ true → (run : EpochRun) → option_copied stage ≡ Some (Taken (Epoch run)) → run.start ≡ committed.now }
    ensures { IsJudgement committed.now (option_copied stage.entry) result }
{
    match stage {
        Some(Stage::Taken(Ran::Epoch(run))) => {
            if known || equal(&run.start, committed) {
                Judgement::Commit
            } else {
                Judgement::Squash
            }
        }
        Some(Stage::Taken(Ran::Idle(state))) => {
            if equal(state, committed) {
                Judgement::Over
            } else {
                Judgement::Squash
            }
        }
        _ => Judgement::NotYet,
    }
}
