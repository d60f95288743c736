// An epoch as far as it was run.
ghost use Rattle.std.specs.Prelude.{◌≡◌, ◌+◌, ◌-◌, ◌<◌, ◌≤◌, ◌^◌, [], None, OnOk};
ghost use Rattle.epoch_runner.specs.HintRun.{IsInHand, begins_by, hand_steps, hand_thread, with_hand, with_steps, without_hand};
ghost use Rattle.epoch_runner.specs.Schedule.{after_last};
ghost use Rattle.epoch_runner.specs.Trace.{traced};

use crate::bounds::Bounds;
use crate::hint_rules::is_thread;
use crate::hint_stage::HintTurn;
use crate::trace::Trace;
use dp_base::{OutOfMemory, Slice, Tid};
use guest_kernel::State;
use slice_log::SliceLog;
use std::alloc::Global;

// An epoch as far as it was run: the state, the slices that are over, and what it has written and taken.
#[derive(Drop)]
pub(crate) struct Course {
    pub(crate) state: State,
    pub(crate) slices: SliceLog,
    pub(crate) trace: Trace,
    // How many steps the epoch may still have.
    pub(crate) left: u32,
    // The slice that isn't over, while hints are followed.
    pub(crate) hand: Option<Slice>,
}

impl Course {
    // An epoch of which nothing has run.
    pub(crate) fn new(alloc: Global, state: State, steps: u32) -> Course
        ensures state { result.state ≡ state }
        ensures slices { result.slices ≡ [] }
        ensures trace { traced result.trace ≡ record { output = []; answers = [] } }
        ensures left { result.left ≡ steps }
        ensures hand { result.hand ≡ None }
    {
        Course {
            state,
            slices: SliceLog::new(alloc),
            trace: Trace::new(alloc),
            left: steps,
            hand: None,
        }
    }

    // The number from which the thread of the next slice is sought.
    pub(crate) fn next_number(&self, bounds: Bounds) -> usize
        ensures { result ≡ after_last bounds (hand_thread self.now.hand) }
    {
        match self.hand {
            Some(slice) => slice.tid.0 as usize + 1,
            None => bounds.first as usize,
        }
    }

    // Ends the slice in hand, if there is one.
    pub(crate) fn end_slice(&mut self) -> Result<(), OutOfMemory>
        ensures state { OnOk result (self.new.state ≡ without_hand self.old.state self.old.hand) }
        ensures slices { OnOk result (self.new.slices ≡ with_hand self.old.slices self.old.hand) }
        ensures hand { OnOk result (self.new.hand ≡ None) }
        ensures trace { traced self.new.trace ≡ traced self.old.trace }
        ensures left { self.new.left ≡ self.old.left }
    {
        if let Some(slice) = self.hand {
            self.slices.put(slice)?;
            self.state.end_slice(slice.tid);
        }
        self.hand = None;
        Ok(())
    }

    // Ends the slice in hand and begins one of a turn's thread, unless the turn goes on with it.
    pub(crate) fn begin_slice(&mut self, turn: HintTurn) -> Result<(), OutOfMemory>
        ensures hand { OnOk result (IsInHand (begins_by self.old.hand turn) turn.tid self.old.state self.old.slices self.old.hand self.new.state self.new.slices self.new.hand) }
        ensures trace { traced self.new.trace ≡ traced self.old.trace }
        ensures left { self.new.left ≡ self.old.left }
    {
        if turn.fresh || !is_thread(thread_of(self.hand), turn.tid) {
            self.end_slice()?;
            self.hand = Some(Slice {
                tid: turn.tid,
                steps: 0,
            });
        }
        Ok(())
    }

    // Counts steps that the slice in hand has taken.
    pub(crate) fn count(&mut self, steps: u32)
        requires left { steps ≤ self.old.left }
        requires small { hand_steps self.old.hand + steps < 2 ^ 32 }
        ensures hand { self.new.hand ≡ with_steps steps self.old.hand }
        ensures state { self.new.state ≡ self.old.state }
        ensures slices { self.new.slices ≡ self.old.slices }
        ensures trace { traced self.new.trace ≡ traced self.old.trace }
        ensures left { self.new.left ≡ self.old.left - steps }
    {
        self.left -= steps;
        if let Some(slice) = self.hand {
            self.hand = Some(Slice {
                tid: slice.tid,
                steps: slice.steps + steps,
            });
        }
    }
}

fn thread_of(hand: Option<Slice>) -> Option<Tid>
    ensures { result ≡ hand_thread hand }
{
    match hand {
        Some(slice) => Some(slice.tid),
        None => None,
    }
}
