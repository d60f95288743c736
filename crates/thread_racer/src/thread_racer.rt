// The racer whose threads run on several processors.
ghost use Rattle.std.specs.Prelude.{◌≡◌, ◌<◌, ◌≤◌};
ghost use Rattle.dp_base.specs.declared.limits.TheConstants.{MAX_WORKERS};

use crate::gated::Gated;
use crate::kept_words::KeptWords;
use crate::pace::Pace;
use crate::stopped_turns::is_step_possible;
use crate::stretch::race_stretch;
use disk_model::{Gate, OpenGate};
use dp_base::OutOfMemory;
use guest_kernel::State;
use racing_runner::{JobSink, More, Offer, Plan, Racer};
use std::alloc::Global;
use std::thread::Threads;
use supply::Supply;

/// Runs the threads of a guest side by side, in as many threads of the system as it has workers.
#[derive(Drop)]
pub struct ThreadRacer<G> {
    workers: u32,
    gate: G,
    pace: Pace,
    kept: Option<KeptWords>,
    // The least number of steps with which the next round starts, unless a job was squashed.
    least_start: u64,
    ghost some: { 0 < workers },
    ghost few: { workers ≤ MAX_WORKERS },
}

impl ThreadRacer<OpenGate> {
    /// Makes a racer with 1 to 64 workers. With one it runs a guest's threads one after another.
    pub fn new(workers: u32) -> ThreadRacer<OpenGate>
        requires some { 0 < workers }
        requires few { workers ≤ MAX_WORKERS }
        ensures { result.workers ≡ workers }
    {
        ThreadRacer {
            workers,
            gate: OpenGate,
            pace: Pace::new(),
            kept: None,
            least_start: 0,
        }
    }
}

impl<'a, G: Gate> ThreadRacer<Gated<'a, G>> {
    /// Makes a racer whose workers pass a gate. In a pass, a worker passes it before it runs a thread of the guest. The
    /// job is the thread's number.
    pub fn gated(workers: u32, gate: &'a G) -> ThreadRacer<Gated<'a, G>>
        requires some { 0 < workers }
        requires few { workers ≤ MAX_WORKERS }
        ensures { result.workers ≡ workers }
    {
        ThreadRacer {
            workers,
            gate: Gated { gate },
            pace: Pace::new(),
            kept: None,
            least_start: 0,
        }
    }
}

impl<G: Gate + Sync> ThreadRacer<G> {
    /// Does what `Racer::race` does, with any gate.
    ///
    /// # Errors
    ///
    /// Returns `OutOfMemory` if memory runs out. What was offered stays offered.
    pub fn race_through<R: Threads + Sync, K: JobSink>(
        &mut self,
        rt: &R,
        alloc: Global,
        start: &State,
        supply: &Supply,
        plan: &Plan,
        sink: &mut K,
    ) -> Result<(), OutOfMemory>
        requires ready { K.ready sink.old }
        ensures ready { K.ready sink.new }
        ensures goes { K.goes sink.old sink.new }
    {
        let mut state = start.share(alloc)?;
        let mut left = plan.left;
        self.pace.begin_round(start.steps < self.least_start);
        self.least_start = 0;
        for job in 1..plan.jobs {
            let before = state.steps;
            let Some(offer) = self.next_offer(rt, alloc, &mut state, supply, plan.epoch, left)?
            else {
                return Ok(());
            };
            self.least_start = least_start_after(&state, supply);
            match sink.offer(offer.hints, offer.next) {
                More::Yes => {}
                More::Enough => return Ok(()),
            }
            left = left.saturating_sub(state.steps.saturating_sub(before));
        }
        Ok(())
    }

    // Runs a stretch of an epoch, if an epoch's steps are left. Returns `None` if no epoch ends with it.
    fn next_offer<R: Threads + Sync>(
        &mut self,
        rt: &R,
        alloc: Global,
        state: &mut State,
        supply: &Supply,
        epoch: u32,
        left: u64,
    ) -> Result<Option<Offer>, OutOfMemory> {
        if left < u64::from(epoch) {
            return Ok(None);
        }
        let workers = self.workers;
        let Some(hints) = race_stretch(
            rt,
            alloc,
            &self.gate,
            workers,
            &mut self.pace,
            &mut self.kept,
            state,
            supply,
            epoch,
        )?
        else {
            return Ok(None);
        };
        let next = state.share(alloc)?;
        Ok(Some(Offer { hints, next }))
    }
}

// The least number of steps with which a round starts, if this state is the last one that was offered in the round
// before and no job of that round was squashed. The round's last job starts in this state, and takes a step if a thread
// can. If none can, the next round starts here, with more input. If a job was squashed, the round ends at an offered
// state's number of steps, this one's at most. All else that ends a round early ends the recording too.
fn least_start_after(state: &State, supply: &Supply) -> u64 {
    if is_step_possible(state, supply) {
        state.steps.saturating_add(1)
    } else {
        state.steps
    }
}

impl Racer for ThreadRacer<OpenGate> {
    ghost use Rattle.std.specs.Prelude.{None};

    ghost tells = { λ racer start supply plan. None };

    fn race<R: Threads + Sync, K: JobSink>(
        &mut self,
        rt: &R,
        alloc: Global,
        start: &State,
        supply: &Supply,
        plan: &Plan,
        sink: &mut K,
    ) -> Result<(), OutOfMemory> {
        self.race_through(rt, alloc, start, supply, plan, sink)
    }
}
