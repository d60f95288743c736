// An epoch by round robin, turn by turn.
ghost use Rattle.std.specs.Prelude.{◌≡◌, ◌+◌, ◌<◌, ◌^◌, IfOk, OnOk, IfSome, Some, None, false, true, length};
ghost use Rattle.dp_base.specs.declared.limits.TheConstants.{EPOCH_END_BYTES};
ghost use Rattle.guest_kernel.specs.Answers.{bytes_read};
ghost use Rattle.guest_kernel.specs.State.{has_ended};
ghost use Rattle.epoch_runner.specs.Answering.{ready_at};
ghost use Rattle.epoch_runner.specs.Schedule.{begins_from, begins_with, by_last, closed, ends_epoch, followed, next_step, progress, slice_goes_on, starting, takes_turn, turn_of};
ghost use Rattle.epoch_runner.specs.Lowest.{lowest_from};
ghost use Rattle.epoch_runner.specs.Syncing.{sync_of};
ghost use Rattle.epoch_runner.specs.Walking.{next_step_of, opened};
ghost use Rattle.sync_hints.specs.NoHints.{no_hints};

use crate::bounds::Bounds;
use crate::kernel_laws::turn_laws;
use crate::ready_threads::{can_step, ready_at};
use crate::schedule::{is_long, lowest_from};
use crate::slice::one_turn;
use crate::sync::sync_of;
use crate::trace::Trace;
use dp_base::{OutOfMemory, Slice, Tid};
use guest_kernel::State;
use slice_log::SliceLog;
use std::alloc::Global;
use std::marker::Model;
use supply::Supply;
use sync_hints::Sc;

/// The turn that is next: the thread that takes it, and whether a slice begins with it.
#[derive(Clone, Copy, Debug, PartialEq, Eq)]
pub struct NextTurn {
    pub tid: Tid,
    pub begins: bool,
}

/// An epoch by round robin that is run turn by turn.
#[derive(Drop)]
pub struct Walk {
    state: State,
    // The slices that are over.
    slices: SliceLog,
    trace: Trace,
    // The thread that ran last.
    last: Option<Tid>,
    // How many steps its slice has so far.
    in_slice: u32,
    // Whether its last turn was a yield.
    yielded: bool,
    // How many steps the epoch has so far.
    turns: u32,
}

impl Model for Walk {
    ghost use Rattle.std.specs.Prelude.{◌≡◌, ◌+◌, None};
    ghost use Rattle.dp_base.specs.Journal.{steps_of};
    ghost use Rattle.epoch_runner.specs.Schedule.{Course};

    ghost Value = { Course };

    ghost view = { λ w. record { state = w.state; output = w.trace.out.items; answers = w.trace.answers; done = w.slices; last = w.last; in_slice = w.in_slice; yielded = w.yielded; hints = None } };

    ghost invariant = { λ w. w.turns ≡ steps_of w.slices + w.in_slice };
}

impl Walk {
    /// Makes an epoch that starts with this state and of which no turn is taken yet.
    pub fn new(alloc: Global, start: State) -> Walk
        ensures { result ≡ starting start no_hints }
    {
        Walk {
            state: start,
            slices: SliceLog::new(alloc),
            trace: Trace::new(alloc),
            last: None,
            in_slice: 0,
            yielded: false,
            turns: 0,
        }
    }

    /// Returns the turn that is next, or `None` if the epoch is over.
    pub fn next(&self, supply: &Supply, bounds: Bounds) -> Option<NextTurn>
        ensures next { next_step_of result ≡ next_step self.now.state supply.now bounds (progress self.now) }
        ensures few { IfSome result (λ turn. (progress self.now).turns < bounds.steps) }
    {
        if self.is_over(supply, bounds) {
            return None;
        }
        match self.last {
            None => begin_from(&self.state, supply, bounds.first as usize),
            Some(tid) => self.next_after(tid, supply, bounds),
        }
    }

    /// Takes the turn that is next. If a slice begins with it, the slice before it ends first. Returns what hints say
    /// of the turn, or `None` if it is plain.
    pub fn take(
        &mut self,
        alloc: Global,
        supply: &Supply,
        bounds: Bounds,
        turn: NextTurn,
    ) -> Result<Option<Sc>, OutOfMemory>
        requires next { next_step self.old.state supply.now bounds (progress self.old) ≡ turn_of turn.tid turn.begins None }
        requires countable { self.old.state.steps + 1 < 2 ^ 64 }
        ensures sync { IfOk result (λ sync. sync ≡ sync_of (opened turn.begins self.old).state turn.tid) }
        ensures took { OnOk result (followed supply.now self.old (turn_of turn.tid turn.begins None) ≡ Some self.new) }
        ensures turns { OnOk result ((progress self.new).turns ≡ (progress self.old).turns + 1) }
        ensures steps { OnOk result (self.new.state.steps ≡ self.old.state.steps + 1) }
    {
        turn_peek::laws::a_reservation_asks_for_nothing();
        self.open(turn.begins)?;
        let sync = sync_of(&self.state, turn.tid);
        self.turn(alloc, supply, turn.tid)?;
        Ok(sync)
    }

    /// Ends the slice in hand, if there is one. Its thread's reservation is dropped.
    pub fn close(&mut self) -> Result<(), OutOfMemory>
        ensures closes { OnOk result (self.new ≡ closed self.old) }
        ensures steps { OnOk result (self.new.state.steps ≡ self.old.state.steps) }
    {
        let Some(tid) = self.last else {
            return Ok(());
        };
        self.slices.put(Slice {
            tid,
            steps: self.in_slice,
        })?;
        self.state.end_slice(tid);
        self.in_slice = 0;
        Ok(())
    }

    /// Returns the state after the turns so far.
    pub fn state(&self) -> &State
        ensures { result.now ≡ self.now.state }
    {
        &self.state
    }

    /// Returns how many turns were taken.
    pub fn turns(&self) -> u32
        ensures { result ≡ (progress self.now).turns }
    {
        self.turns
    }

    /// Returns the state after the turns so far, and drops the rest.
    pub fn into_state(self) -> State
        ensures { result ≡ self.state }
    {
        self.state
    }

    // Whether the epoch is over.
    fn is_over(&self, supply: &Supply, bounds: Bounds) -> bool
        ensures { result ≡ ends_epoch self.now.state supply.now bounds (progress self.now) }
    {
        !can_step(&self.state, supply)
            || self.turns >= bounds.steps
            || is_long(self.trace.out.len())
            || is_long(self.trace.read)
    }

    // The turn that is next in an epoch that isn't over, when this thread ran last.
    fn next_after(&self, tid: Tid, supply: &Supply, bounds: Bounds) -> Option<NextTurn>
        ensures { next_step_of result ≡ by_last self.now.state supply.now bounds (progress self.now) (Some tid) }
    {
        if self.goes_on(tid, supply, bounds) {
            return Some(NextTurn { tid, begins: false });
        }
        begin_from(&self.state, supply, tid.0 as usize + 1)
    }

    // Whether the slice of the thread that ran last goes on.
    fn goes_on(&self, tid: Tid, supply: &Supply, bounds: Bounds) -> bool
        ensures { result ≡ slice_goes_on self.now.state supply.now bounds (progress self.now) tid }
    {
        ready_at(&self.state, supply, tid) && !self.yielded && self.in_slice < bounds.slice
    }

    // Ends the slice in hand if another begins.
    fn open(&mut self, begins: bool) -> Result<(), OutOfMemory>
        ensures { OnOk result (self.new ≡ opened begins self.old) }
    {
        if begins {
            return self.close();
        }
        Ok(())
    }

    // Takes a turn of a thread that can step, in its slice.
    fn turn(&mut self, alloc: Global, supply: &Supply, tid: Tid) -> Result<(), OutOfMemory>
        requires alive { has_ended self.old.state.end ≡ false }
        requires ready { ready_at self.old.state supply.now tid ≡ true }
        requires little_read { length (bytes_read self.old.answers) < EPOCH_END_BYTES }
        requires countable { self.old.state.steps + 1 < 2 ^ 64 }
        requires few { (progress self.old).turns + 1 < 2 ^ 32 }
        ensures took { OnOk result (takes_turn supply.now self.old tid None ≡ Some self.new) }
        ensures turns { OnOk result ((progress self.new).turns ≡ (progress self.old).turns + 1) }
        ensures steps { OnOk result (self.new.state.steps ≡ self.old.state.steps + 1) }
    {
        turn_laws();
        let peek = self.state.peek(tid);
        let yielded = one_turn(alloc, &mut self.state, supply, tid, peek, &mut self.trace)?;
        self.last = Some(tid);
        self.in_slice += 1;
        self.yielded = yielded;
        self.turns += 1;
        Ok(())
    }
}

// A slice begins: of the lowest thread that can step from a number on, or else of the lowest of all.
fn begin_from(state: &State, supply: &Supply, least: usize) -> Option<NextTurn>
    ensures { next_step_of result ≡ begins_from state.now supply.now least }
{
    match lowest_from(state, supply, least) {
        Some(tid) => Some(NextTurn { tid, begins: true }),
        None => begin_lowest(state, supply),
    }
}

// A slice of the lowest thread that can step begins.
fn begin_lowest(state: &State, supply: &Supply) -> Option<NextTurn>
    ensures { next_step_of result ≡ begins_with (lowest_from (ready_at state.now supply.now) 1 state.now.threads) }
{
    let tid = lowest_from(state, supply, 1)?;
    Some(NextTurn { tid, begins: true })
}
