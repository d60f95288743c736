// Racers that offer nothing, and sinks that take few offers.

use crate::cases::{offers_from, plan_in, start, supply_of};
use crate::guests::LOCKED;
use crate::state_hash::hash_of;
use guest_kernel::State;
use racing_runner::{ChaosRacer, Gather, IdleRacer, JobSink, More, Offer, Racer};
use std::alloc::Global;
use std::test::Fail;
use std::thread::Threads;
use sync_hints::Hints;

// A round of eight jobs.
const PLAN: &str = "0 60 7 8 all 1";

// Keeps two offers, drops the next one, and says only then that it takes no more.
#[derive(Drop)]
pub(crate) struct KeepsTwo {
    kept: Vec<Offer>,
    full: bool,
    // The number of offers after that.
    late: u32,
}

impl JobSink for KeepsTwo {
    ghost use Rattle.std.specs.Prelude.{◌≡◌, true, ⊤};

    ghost got = { λ sink. sink.kept.items };

    ghost enough = { λ sink. sink.full ≡ true };

    ghost ready = { λ sink. ⊤ };

    ghost goes = { λ before now. ⊤ };

    fn offer(&mut self, hints: Hints, next: State) -> More {
        if self.full {
            self.late = self.late.saturating_add(1);
            return More::Enough;
        }
        if self.kept.len() < 2 && self.kept.push(Offer { hints, next }).is_ok() {
            return More::Yes;
        }
        self.full = true;
        More::Enough
    }

    ghost goes_nowhere = { λ sink. tt };

    ghost goes_on = { λ a b c ab bc. tt };
}

// The hashes of the states that are offered.
fn hashes(alloc: Global, offers: &[Offer]) -> Result<Vec<u64>, Fail> {
    let mut hashes = Vec::new(alloc);
    for offer in offers {
        hashes.push(hash_of(&offer.next))?;
    }
    Ok(hashes)
}

// Whether a sink that keeps two gets the first two of all offers; whether it was offered a third; and how many after
// that.
fn first_two<R: Threads + Sync>(rt: &R, alloc: Global) -> Result<(bool, bool, u32), Fail> {
    let (start, supply) = (start(alloc, &LOCKED)?, supply_of(alloc, b"", 0)?);
    let plan = plan_in(PLAN);
    if start.steps > 1000 || plan.left > 1 << 62 {
        return Err("steps of a run".into());
    }
    let mut racer = ChaosRacer::new(0);
    let mut sink = KeepsTwo {
        kept: Vec::new(alloc),
        full: false,
        late: 0,
    };
    racer.race(rt, alloc, &start, &supply, &plan, &mut sink)?;
    let all = offers_from(rt, alloc, &mut racer, &start, &supply, &plan)?;
    let (kept, all) = (hashes(alloc, &sink.kept)?, hashes(alloc, &all)?);
    let same = kept.len() == 2 && all.len() == 6 && kept.as_slice() == &all[..2];
    Ok((same, sink.full, sink.late))
}

#[test]
fn a_sink_that_takes_two(rt: HostRuntime) -> Result<(), Fail> {
    assert_eq!(rt; first_two(&rt, rt.alloc())?, (true, true, 0));
    Ok(())
}

// How many offers of a round `Gather` keeps if it has this room.
fn gathered<R: Threads + Sync>(
    rt: &R,
    alloc: Global,
    room: u32,
    line: &str,
) -> Result<usize, Fail> {
    let (start, supply) = (start(alloc, &LOCKED)?, supply_of(alloc, b"", 0)?);
    let plan = plan_in(line);
    if start.steps > 1000 || plan.left > 1 << 62 {
        return Err("steps of a run".into());
    }
    let mut sink = Gather::new(alloc, room)?;
    ChaosRacer::new(0).race(rt, alloc, &start, &supply, &plan, &mut sink)?;
    Ok(sink.into_offers().len())
}

#[test]
fn gathers_with_little_room(rt: HostRuntime) -> Result<(), Fail> {
    let alloc = rt.alloc();
    assert_eq!(rt; gathered(&rt, alloc, 0, "0 60 7 1 all 1")?, 0);
    assert_eq!(rt; gathered(&rt, alloc, 0, PLAN)?, 0);
    assert_eq!(rt; gathered(&rt, alloc, 1, PLAN)?, 1);
    assert_eq!(rt; gathered(&rt, alloc, 7, PLAN)?, 6);
    Ok(())
}

// How many offers a racer makes in a round.
fn count_of<R: Threads + Sync, Q: Racer>(
    rt: &R,
    alloc: Global,
    racer: &mut Q,
) -> Result<usize, Fail> {
    let (start, supply) = (start(alloc, &LOCKED)?, supply_of(alloc, b"", 0)?);
    Ok(offers_from(rt, alloc, racer, &start, &supply, &plan_in(PLAN))?.len())
}

#[test]
fn racers_that_offer_nothing(rt: HostRuntime) -> Result<(), Fail> {
    let alloc = rt.alloc();
    assert_eq!(rt; count_of(&rt, alloc, &mut IdleRacer)?, 0);
    assert_eq!(rt; count_of(&rt, alloc, &mut ChaosRacer::new(2))?, 0);
    assert_eq!(rt; count_of(&rt, alloc, &mut ChaosRacer::new(0))?, 6);
    Ok(())
}
