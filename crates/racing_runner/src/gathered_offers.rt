// The offers of a round.
ghost use Rattle.std.specs.Prelude.{◌≡◌, ◌+◌, ◌-◌, ◌<◌, ◌≤◌, ◌^◌, [], IfOk, length, take};
ghost use Rattle.racing_runner.specs.Offers.{IfTold};

use crate::offer::{More, Offer};
use crate::plan::Plan;
use crate::racer::{JobSink, Racer};
use dp_base::OutOfMemory;
use guest_kernel::State;
use std::alloc::Global;
use std::marker::Model;
use std::thread::Threads;
use supply::Supply;
use sync_hints::Hints;

/// Keeps offers, up to a number.
#[derive(Drop)]
pub struct Gather {
    kept: Vec<Offer>,
    room: u32,
}

impl Model for Gather {
    ghost use Rattle.std.specs.Prelude.{◌≤◌, length};
    ghost use Rattle.std.specs.Vec.{vec_capacity};
    ghost use Rattle.racing_runner.specs.Offers.{Gathered};

    ghost Value = { Gathered };

    ghost view = { λ g. record { got = g.kept.items; room = g.room } };

    ghost invariant = { λ g. (length g.kept.items ≤ g.room) × (g.room ≤ vec_capacity g.kept) };
}

impl Gather {
    /// Makes a sink that keeps at most `room` offers.
    pub fn new(alloc: Global, room: u32) -> Result<Gather, OutOfMemory>
        ensures { IfOk result (λ g. g ≡ record { got = []; room = room }) }
    {
        let kept = Vec::with_capacity(alloc, room as usize)?;
        Ok(Gather { kept, room })
    }

    /// Returns the offers, in the order in which they came.
    pub fn into_offers(self) -> Vec<Offer>
        ensures offers { result.items ≡ self.got }
        ensures few { length self.got ≤ self.room }
    {
        self.kept
    }
}

impl JobSink for Gather {
    ghost use Rattle.std.specs.Prelude.{◌≡◌, ◌≤◌, length, ⊤};
    ghost use Rattle.std.proofs.Common.{refl, ◌∙◌};

    ghost got = { λ g. g.got };

    ghost enough = { λ g. g.room ≤ length g.got };

    ghost ready = { λ g. ⊤ };

    ghost goes = { λ before now. now.room ≡ before.room };

    fn offer(&mut self, hints: Hints, next: State) -> More {
        if self.kept.len() < self.room as usize && self.kept.push(Offer { hints, next }).is_err() {
            unreachable!();
        }
        if self.kept.len() < self.room as usize {
            More::Yes
        } else {
            More::Enough
        }
    }

    ghost goes_nowhere = { λ g. refl };

    ghost goes_on = { λ a b c ab bc. bc ∙ ab };
}

/// Returns the offers of a racing run, one for each job of the plan but the first, or fewer.
///
/// # Errors
///
/// Returns `OutOfMemory` if memory runs out.
pub fn offers_of<R: Threads + Sync, Q: Racer>(
    rt: &R,
    alloc: Global,
    racer: &mut Q,
    start: &State,
    supply: &Supply,
    plan: &Plan,
) -> Result<Vec<Offer>, OutOfMemory>
    requires { start.now.steps + plan.now.left < 2 ^ 63 }
    ensures told { IfOk result (λ offers. IfTold (Q.tells racer.old start.now supply.now plan.now) (λ list. offers.items ≡ take (plan.now.jobs - 1) list)) }
    ensures few { IfOk result (λ offers. length offers.items < plan.now.jobs) }
    ensures same { IfTold (Q.tells racer.old start.now supply.now plan.now) (λ list. racer.new ≡ racer.old) }
{
    let mut sink = Gather::new(alloc, plan.jobs - 1)?;
    racer.race(rt, alloc, start, supply, plan, &mut sink)?;
    Ok(sink.into_offers())
}
