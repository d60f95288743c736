// A racing run by round robin that spoils an offer.
ghost use Rattle.std.specs.Prelude.{◌≡◌, ◌+◌, ◌-◌, ◌<◌, ◌≤◌, ◌^◌, ◌==◌, ◌&&◌, not, IfOk, IfSome};
ghost use Rattle.guest_kernel.specs.State.{has_ended};
ghost use Rattle.racing_runner.specs.Chaos.{bounds_of, flipped, made, offered_at, offers};
ghost use Rattle.racing_runner.specs.Offers.{HasOffered};

use crate::flipped_state::flip;
use crate::noted_epoch::{Stretch, run_stretch};
use crate::offer::{More, Offer};
use crate::plan::Plan;
use crate::racer::{JobSink, Racer};
use dp_base::OutOfMemory;
use epoch_runner::Bounds;
use guest_kernel::State;
use std::alloc::Global;
use std::thread::Threads;
use supply::Supply;

/// Runs the guest by round robin, and offers its state and hints after each whole epoch. By its number one of the
/// states is spoilt, or none is offered, so that tests can meet each answer to an offer.
#[derive(Clone, Copy, Debug, PartialEq, Eq)]
pub struct ChaosRacer {
    number: u32,
}

impl ChaosRacer {
    /// Makes the racer of a number n. With c = 1 + (n / 4) mod 8: if n mod 4 is 0, all offers are good; if 1, a bit of
    /// the c-th offered state is flipped; if 2, nothing is offered; if 3, the c-th offered state is the one before it.
    pub fn new(number: u32) -> ChaosRacer
        ensures { result.number ≡ number }
    {
        ChaosRacer { number }
    }

    // Runs a stretch from a state with `left` steps left, and makes the offer with this number.
    fn make(
        self,
        alloc: Global,
        place: u32,
        before: State,
        supply: &Supply,
        plan: &Plan,
        left: u64,
    ) -> Result<Option<Made>, OutOfMemory>
        requires countable { before.steps + left < 2 ^ 63 }
        ensures made { IfOk result (λ m. m ≡ made self.number place supply.now plan.now left before) }
        ensures moved { IfOk result (λ m. IfSome m (λ m. m.end.steps ≡ before.steps + plan.now.epoch)) }
        ensures within { IfOk result (λ m. IfSome m (λ m. plan.now.epoch ≤ left)) }
    {
        let start = before.share(alloc)?;
        let stretch = run_stretch(alloc, start, supply, bounds_of(plan, left))?;
        if !is_whole(&stretch, plan) {
            return Ok(None);
        }
        let next = self.offered(alloc, place, before, &stretch.end)?;
        Ok(Some(Made {
            offer: Offer {
                hints: stretch.hints,
                next,
            },
            end: stretch.end,
        }))
    }

    // The state that is offered after a stretch, in this place from 1.
    fn offered(
        self,
        alloc: Global,
        place: u32,
        before: State,
        after: &State,
    ) -> Result<State, OutOfMemory>
        ensures { IfOk result (λ state. state ≡ offered_at self.number place before after.now) }
    {
        if place != 1 + (self.number / 4) % 8 {
            return after.share(alloc);
        }
        match self.number % 4 {
            1 => flipped(alloc, after),
            3 => Ok(before),
            _ => after.share(alloc),
        }
    }
}

// An offer, and where the run goes on.
#[derive(Drop)]
pub(crate) struct Made {
    offer: Offer,
    end: State,
}

impl Racer for ChaosRacer {
    ghost use Rattle.std.specs.Prelude.{Some};
    ghost use Rattle.racing_runner.specs.Chaos.{chaos};

    ghost tells = { λ racer start supply plan. Some (chaos racer.number start supply plan) };

    fn race<R: Threads + Sync, K: JobSink>(
        &mut self,
        _rt: &R,
        alloc: Global,
        start: &State,
        supply: &Supply,
        plan: &Plan,
        sink: &mut K,
    ) -> Result<(), OutOfMemory> {
        if self.number % 4 == 2 {
            return Ok(());
        }
        run(alloc, *self, start, supply, plan, sink)
    }
}

// Runs stretch after stretch, and offers the states between them.
fn run<K: JobSink>(
    alloc: Global,
    racer: ChaosRacer,
    start: &State,
    supply: &Supply,
    plan: &Plan,
    sink: &mut K,
) -> Result<(), OutOfMemory>
    requires countable { start.now.steps + plan.now.left < 2 ^ 63 }
    requires ready { K.ready sink.old }
    ensures ready { K.ready sink.new }
    ensures goes { K.goes sink.old sink.new }
    ensures offers { HasOffered (K.got sink.old) (offers (plan.now.jobs - 1) racer.number 1 supply.now plan.now plan.now.left start.now) (K.got sink.new) (K.enough sink.new) result }
{
    let mut state = start.share(alloc)?;
    let mut left = plan.left;
    for place in 1..plan.jobs {
        let Made { offer, end } = match racer.make(alloc, place, state, supply, plan, left)? {
            Some(made) => made,
            None => return Ok(()),
        };
        match sink.offer(offer.hints, offer.next) {
            More::Yes => {}
            More::Enough => return Ok(()),
        }
        state = end;
        left -= u64::from(plan.epoch);
    }
    Ok(())
}

// Whether an offer is made after a stretch.
fn is_whole(stretch: &Stretch, plan: &Plan) -> bool
    ensures { result ≡ (stretch.now.steps == plan.now.epoch && not (has_ended stretch.now.end.end)) }
{
    stretch.steps == plan.epoch && !stretch.end.ended()
}

// The bounds of a stretch that may have `left` steps.
fn bounds_of(plan: &Plan, left: u64) -> Bounds
    ensures { result ≡ bounds_of plan.now left }
{
    Bounds {
        steps: u64::from(plan.epoch).min(left) as u32,
        slice: plan.slice,
        first: plan.first,
    }
}

fn flipped(alloc: Global, state: &State) -> Result<State, OutOfMemory>
    ensures { IfOk result (λ other. other ≡ flipped state.now) }
{
    let mut flipped = state.share(alloc)?;
    flip(&mut flipped);
    Ok(flipped)
}
