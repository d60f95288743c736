// Racing runs, and what takes their offers.
ghost use Rattle.std.specs.Prelude.{◌≡◌, ◌+◌, ◌<◌, ◌^◌};
ghost use Rattle.racing_runner.specs.Offers.{HasOffered, HasTakenOffer, IfTold};
ghost use denote.Param.Send.{IsSync};

use crate::offer::More;
use crate::plan::Plan;
use dp_base::OutOfMemory;
use guest_kernel::State;
use std::alloc::Global;
use std::thread::Threads;
use supply::Supply;
use sync_hints::Hints;

/// Takes the offers of a racing run.
pub trait JobSink {
    ghost use Rattle.std.specs.Prelude.{List};
    ghost use Rattle.racing_runner.specs.declared.offer.Offer.{Offer};

    /// The offers that it has taken.
    ghost got: { Self → List Offer };

    /// It takes no more.
    ghost enough: { Self → Type 0 };

    /// It may be offered to.
    ghost ready: { Self → Type 0 };

    /// What an offer leaves as it is.
    ghost goes: { Self → Self → Type 0 };

    /// Ends an epoch with its hints, and begins the next one, which starts in this state. Returns `Enough` if no more
    /// are taken. This one may have been dropped then.
    fn offer(&mut self, hints: Hints, next: State) -> More
        requires { ready self.old }
        ensures ready { ready self.new }
        ensures goes { goes self.old self.new }
        ensures taken { HasTakenOffer (got self.old) (record { hints = hints; next = next }) (got self.new) (enough self.new) result };

    /// No offer leaves all as it is.
    ghost goes_nowhere: { (s : Self) → goes s s };

    /// What two offers leave as it is.
    ghost goes_on: { (a b c : Self) → goes a b → goes b c → goes a c };
}

/// A run of a guest ahead of its recording. What it offers isn't trusted.
pub trait Racer {
    ghost use Rattle.racing_runner.specs.Offers.{Tells};

    /// All that it offers, if that is known beforehand.
    ghost tells: { Self → Tells };

    /// Runs a guest from a start with a supply of its input, by a plan, and offers states to a sink until that has
    /// enough.
    ///
    /// # Errors
    ///
    /// Returns `OutOfMemory` if memory runs out. What was offered stays offered.
    fn race<R: Threads + Sync, K: JobSink>(
        &mut self,
        rt: &R,
        alloc: Global,
        start: &State,
        supply: &Supply,
        plan: &Plan,
        sink: &mut K,
    ) -> Result<(), OutOfMemory>
        requires sync { IsSync R.row }
        requires countable { start.now.steps + plan.now.left < 2 ^ 63 }
        requires ready { K.ready sink.old }
        ensures ready { K.ready sink.new }
        ensures goes { K.goes sink.old sink.new }
        ensures offers { IfTold (tells self.old start.now supply.now plan.now) (λ list. HasOffered (K.got sink.old) list (K.got sink.new) (K.enough sink.new) result) }
        ensures same { IfTold (tells self.old start.now supply.now plan.now) (λ list. self.new ≡ self.old) };
}
