// A racer of chosen offers over several rounds, to sinks with little room.
use crate::cases::{plan_in, start, supply_of};
use crate::guests::LOCKED;
use dp_base::{Log, Tid};
use guest_kernel::State;
use racing_runner::{Gather, Offer, Racer, WildRacer};
use std::alloc::Global;
use std::test::Fail;
use std::thread::Threads;
use sync_hints::Hints;

// The offer with this number: its state has taken so many steps, and its hints give so many to the thread of this
// number.
fn pair(alloc: Global, number: u8) -> Result<(Hints, State), Fail> {
    let mut next = start(alloc, &LOCKED)?;
    next.steps = u64::from(number);
    let mut counts = Vec::new(alloc);
    counts.push((Tid(u16::from(number)), u32::from(number)))?;
    let hints = Hints {
        counts: Log::from_vec(counts),
        order: Log::new(alloc),
    };
    Ok((hints, next))
}

// Of the offers 1, 2 and so on.
fn racer_of(alloc: Global, count: u8) -> Result<WildRacer, Fail> {
    let mut list = Vec::new(alloc);
    for number in 1..=count {
        list.push(pair(alloc, number)?)?;
    }
    Ok(WildRacer::new(list))
}

// An offer's number, or 9 if its hints aren't those of its state.
fn number_of(offer: &Offer) -> u64 {
    let steps = offer.next.steps;
    match offer.hints.counts.as_slice() {
        [(tid, count)] if u64::from(tid.0) == steps && u64::from(*count) == steps => steps,
        _ => 9,
    }
}

// The numbers of the offers of a round, as the digits of one number, where the sink keeps this many. It says with the
// last of them that it has enough, and drops each after that.
fn round_of<R: Threads + Sync>(
    rt: &R,
    alloc: Global,
    racer: &mut WildRacer,
    room: u32,
) -> Result<u64, Fail> {
    let (start, supply) = (start(alloc, &LOCKED)?, supply_of(alloc, b"", 0)?);
    let plan = plan_in("0 60 7 8 all 1");
    if start.steps > 1000 || plan.left > 1 << 62 {
        return Err("steps of a run".into());
    }
    let mut sink = Gather::new(alloc, room)?;
    racer.race(rt, alloc, &start, &supply, &plan, &mut sink)?;
    let mut digits = 0u64;
    for offer in &sink.into_offers() {
        digits = digits.wrapping_mul(10).wrapping_add(number_of(offer));
    }
    Ok(digits)
}

// Three rounds of a racer with so many offers, to sinks that keep these many.
fn three_rounds<R: Threads + Sync>(
    rt: &R,
    alloc: Global,
    count: u8,
    rooms: (u32, u32, u32),
) -> Result<(u64, u64, u64), Fail> {
    let mut racer = racer_of(alloc, count)?;
    let first = round_of(rt, alloc, &mut racer, rooms.0)?;
    let second = round_of(rt, alloc, &mut racer, rooms.1)?;
    let third = round_of(rt, alloc, &mut racer, rooms.2)?;
    Ok((first, second, third))
}

#[test]
fn offers_of_a_list(rt: HostRuntime) -> Result<(), Fail> {
    // how many offers there are, how many are kept in each round, and the numbers of those
    let cases: [(u8, (u32, u32, u32), (u64, u64, u64)); 8] = [
        (0, (2, 2, 2), (0, 0, 0)),
        // all in one round, whether the sink takes more after them or has enough
        (2, (3, 3, 3), (12, 0, 0)),
        (2, (2, 2, 2), (12, 0, 0)),
        // one in each round
        (2, (1, 1, 1), (1, 2, 0)),
        (3, (1, 2, 2), (1, 23, 0)),
        // an offer that is dropped isn't made again
        (2, (0, 2, 2), (0, 2, 0)),
        (2, (1, 0, 2), (1, 0, 0)),
        (4, (0, 0, 2), (0, 0, 34)),
    ];
    for (count, rooms, numbers) in cases {
        let found = three_rounds(&rt, rt.alloc(), count, rooms)?;
        assert_eq!(rt; found, numbers, "{count} offers");
    }
    Ok(())
}
