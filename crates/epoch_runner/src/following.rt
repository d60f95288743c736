// Hints that an epoch follows.
ghost use Rattle.std.specs.Prelude.{◌≡◌, ◌≤◌, IfOk, IfNone, IfSome, None, drop, true, false};
ghost use Rattle.epoch_runner.specs.Hinted.{any_left, at_entry, by_own, hinted, left_of, lefts, less};
ghost use Rattle.epoch_runner.specs.HintRun.{IsNextTurn, following_of};

use crate::hint_rules::{can_be_done, first_stage, goes_plain, lowest_plain};
use crate::hint_stage::{HintStage, HintTurn};
use crate::steps_left::{left_of, lefts};
use dp_base::{OutOfMemory, Tid};
use guest_kernel::State;
use std::alloc::Global;
use supply::Supply;
use sync_hints::{Hints, Sc, SyncHint};

// How far the hints of an epoch have been followed.
#[derive(Drop)]
pub(crate) struct Following {
    // The steps that threads have left, by number.
    left: Vec<u32>,
    stage: HintStage,
    // How many entries were begun.
    taken: usize,
}

impl Following {
    // Nothing is followed yet, and the first entry is in hand.
    pub(crate) fn new(alloc: Global, hints: &Hints) -> Result<Following, OutOfMemory>
        ensures { IfOk result (λ f. following_of f hints.now.order ≡ at_entry (lefts hints.now.counts) hints.now.order) }
    {
        let left = lefts(alloc, hints.counts.as_slice())?;
        let mut following = Following {
            left,
            stage: HintStage::Last { from: 1 },
            taken: 0,
        };
        following.to_next_entry(hints.order.as_slice());
        Ok(following)
    }

    // Whether any thread has steps left.
    pub(crate) fn any_left(&self) -> bool
        ensures { result ≡ any_left self.now.left.items }
    {
        self.left.iter().any(|steps| *steps > 0)
    }

    // How many steps a thread has left.
    pub(crate) fn left_of(&self, tid: Tid) -> u32
        ensures { result ≡ left_of self.now.left.items tid }
    {
        left_of(&self.left, tid)
    }

    // Takes off steps that a thread has taken.
    pub(crate) fn take(&mut self, tid: Tid, steps: u32)
        requires { steps ≤ left_of self.old.left.items tid }
        ensures left { self.new.left.items ≡ less self.old.left.items tid steps }
        ensures stage { self.new.stage ≡ self.old.stage }
        ensures taken { self.new.taken ≡ self.old.taken }
    {
        let place = tid.0 as usize;
        if place < self.left.len() {
            self.left[place] -= steps;
        }
    }

    // Goes on to the rule by which the next turn is taken. Returns the turn, or `None` if the hints can't be followed.
    pub(crate) fn next_turn(
        &mut self,
        order: &[SyncHint],
        state: &State,
        supply: &Supply,
    ) -> Option<HintTurn>
        ensures some { IfSome result (IsNextTurn (hinted state.now supply.now (following_of self.old order.now)) state.now (following_of self.old order.now) (following_of self.new order.now)) }
        ensures none { IfNone result (hinted state.now supply.now (following_of self.old order.now) ≡ None) }
        ensures kept { IfNone result (following_of self.new order.now ≡ following_of self.old order.now) }
        ensures left { self.new.left.items ≡ self.old.left.items }
    {
        match self.stage {
            HintStage::Others { entry, from } => {
                let Some(tid) = lowest_plain(&self.left, state, from, Some(entry.tid)) else {
                    return self.own_turn(entry, order, state, supply);
                };
                self.stage = HintStage::Others { entry, from: tid.0 };
                Some(plain_turn(tid))
            }
            HintStage::Own { entry } => self.own_turn(entry, order, state, supply),
            HintStage::Last { from } => {
                let tid = lowest_plain(&self.left, state, from, None)?;
                self.stage = HintStage::Last { from: tid.0 };
                Some(plain_turn(tid))
            }
        }
    }

    // Whether the threads other than the entry's have been passed.
    fn own_turn(
        &mut self,
        entry: SyncHint,
        order: &[SyncHint],
        state: &State,
        supply: &Supply,
    ) -> Option<HintTurn>
        ensures some { IfSome result (IsNextTurn (by_own state.now supply.now (following_of self.old order.now) entry) state.now (following_of self.old order.now) (following_of self.new order.now)) }
        ensures none { IfNone result (by_own state.now supply.now (following_of self.old order.now) entry ≡ None) }
        ensures kept { IfNone result (following_of self.new order.now ≡ following_of self.old order.now) }
        ensures left { self.new.left.items ≡ self.old.left.items }
    {
        if goes_plain(&self.left, state, entry.tid) {
            self.stage = HintStage::Own { entry };
            return Some(plain_turn(entry.tid));
        }
        if !can_be_done(&self.left, entry, state, supply) {
            return None;
        }
        self.to_next_entry(order);
        Some(HintTurn {
            tid: entry.tid,
            fresh: entry.sc == Sc::Lost,
            is_plain: false,
        })
    }

    // Begins the next entry, if there is one.
    fn to_next_entry(&mut self, order: &[SyncHint])
        ensures { following_of self.new order.now ≡ at_entry self.old.left.items (drop self.old.taken order.now) }
    {
        let Some(entry) = order.get(self.taken) else {
            self.stage = HintStage::Last { from: 1 };
            return;
        };
        self.stage = first_stage(*entry);
        self.taken += 1;
    }
}

// A plain turn of a thread. It begins no slice if the thread ran last.
fn plain_turn(tid: Tid) -> HintTurn
    ensures { result ≡ record { tid = tid; fresh = false; is_plain = true } }
{
    HintTurn {
        tid,
        fresh: false,
        is_plain: true,
    }
}
