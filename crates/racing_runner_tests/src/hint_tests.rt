// Epochs by the hints of good offers. A model of the schedule by hints, over the machine of the model of the offers,
// says that each ends in the state that is offered.
use crate::cases::{offers_from, plan_in, start, supply_of};
use crate::guests::*;
use epoch_runner::{Bounds, Ran, run_epoch};
use guest_kernel::State;
use racing_runner::{ChaosRacer, Offer, Plan};
use state_compare::equal;
use std::alloc::Global;
use std::test::Fail;
use std::thread::Threads;
use supply::Supply;
use test_files::WRITES_WORDS;

// Whether the epoch from a state by the hints of an offer ends in the offered state.
fn reaches(
    alloc: Global,
    before: State,
    offer: &Offer,
    supply: &Supply,
    plan: &Plan,
) -> Result<bool, Fail> {
    if before.steps > 1000 {
        return Err("few steps".into());
    }
    let bounds = Bounds {
        steps: plan.epoch,
        slice: plan.slice,
        first: plan.first,
    };
    match run_epoch(alloc, before, &offer.hints, supply, bounds)? {
        Ran::Epoch(run) => Ok(equal(&run.end, &offer.next)),
        Ran::Idle(_) => Ok(false),
    }
}

// How many offers there are in a case, and how many are reached from the one before.
fn reached<R: Threads + Sync>(
    rt: &R,
    alloc: Global,
    words: &[u32],
    supply: &Supply,
    line: &str,
) -> Result<(u32, u32), Fail> {
    let plan = plan_in(line);
    let mut before = start(alloc, words)?;
    let offers = offers_from(rt, alloc, &mut ChaosRacer::new(0), &before, supply, &plan)?;
    let (mut count, mut same) = (0u32, 0u32);
    for offer in offers {
        count = count.saturating_add(1);
        if reaches(alloc, before, &offer, supply, &plan)? {
            same = same.saturating_add(1);
        }
        before = offer.next;
    }
    Ok((count, same))
}

#[test]
fn hints_of_one_thread(rt: HostRuntime) -> Result<(), Fail> {
    let alloc = rt.alloc();
    let supply = supply_of(alloc, b"abc", 1)?;
    assert_eq!(rt;
        reached(&rt, alloc, &WRITES_WORDS, &supply, "0 2 1000 16 all 1")?,
        (4, 4)
    );
    assert_eq!(rt;
        reached(&rt, alloc, &CLOCKS, &supply, "0 8 1000 3 all 1")?,
        (2, 2)
    );
    assert_eq!(rt;
        reached(&rt, alloc, &READS_A_PIECE, &supply, "0 4 1000 16 all 1")?,
        (1, 1)
    );
    Ok(())
}

#[test]
fn hints_of_threads(rt: HostRuntime) -> Result<(), Fail> {
    let alloc = rt.alloc();
    let supply = supply_of(alloc, b"", 0)?;
    assert_eq!(rt;
        reached(&rt, alloc, &LOCKED, &supply, "0 60 7 16 all 1")?,
        (6, 6)
    );
    assert_eq!(rt;
        reached(&rt, alloc, &LOCKED, &supply, "0 40 5 10 all 1")?,
        (9, 9)
    );
    assert_eq!(rt;
        reached(&rt, alloc, &WAITS_FIRST, &supply, "0 12 5 5 all 2")?,
        (4, 4)
    );
    Ok(())
}
