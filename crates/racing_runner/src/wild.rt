// A racing run whose offers were chosen beforehand.
ghost use Rattle.std.specs.Prelude.{◌≡◌, Ok, map};
ghost use Rattle.racing_runner.specs.Offers.{HasGiven, offer_of};

use crate::offer::More;
use crate::plan::Plan;
use crate::racer::{JobSink, Racer};
use dp_base::OutOfMemory;
use guest_kernel::State;
use std::alloc::Global;
use std::marker::Model;
use std::thread::Threads;
use std::vec::IntoIter;
use supply::Supply;
use sync_hints::Hints;

/// Offers hints and states from a list, whatever the guest does. No run of the guest need have them, so that tests
/// offer what a racing run offers that is broken or malicious. A state may hold reservations too.
#[derive(Drop)]
pub struct WildRacer {
    left: IntoIter<(Hints, State)>,
}

impl Model for WildRacer {
    ghost use Rattle.std.specs.Prelude.{List, map};
    ghost use Rattle.std.specs.Vec.Iter.{into_iter_items};
    ghost use Rattle.racing_runner.specs.declared.offer.Offer.{Offer};
    ghost use Rattle.racing_runner.specs.Offers.{offer_of};

    ghost Value = { List Offer };

    ghost view = { λ racer. map offer_of (into_iter_items racer.left) };
}

impl WildRacer {
    /// Makes a racer that offers each pair of a list once, in order, over all of its rounds.
    pub fn new(list: Vec<(Hints, State)>) -> WildRacer
        ensures { result ≡ map offer_of list.items }
    {
        WildRacer {
            left: list.into_iter(),
        }
    }
}

impl Racer for WildRacer {
    ghost use Rattle.std.specs.Prelude.{None};

    ghost tells = { λ racer start supply plan. None };

    // Always answers `Ok`. What is left of the list is for the next rounds. An offer that the sink dropped isn't made
    // again.
    fn race<R: Threads + Sync, K: JobSink>(
        &mut self,
        _rt: &R,
        _alloc: Global,
        _start: &State,
        _supply: &Supply,
        _plan: &Plan,
        sink: &mut K,
    ) -> Result<(), OutOfMemory>
        requires ready { K.ready sink.old }
        ensures ready { K.ready sink.new }
        ensures goes { K.goes sink.old sink.new }
        ensures ok { result ≡ Ok tt }
        ensures given { HasGiven (K.got sink.old) self.old (K.got sink.new) self.new (K.enough sink.new) }
    {
        'each: while let Some((hints, next)) = self.left.next() {
            match sink.offer(hints, next) {
                More::Yes => {}
                More::Enough => return Ok(()),
            }
        }
        Ok(())
    }
}
