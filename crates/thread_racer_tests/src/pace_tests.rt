// Which rounds of a racer race. A racer learns of a squash by where its next round starts.
use crate::cases::{Case, no_input, plan_of, run, start, supply_of};
use crate::guests::{BOTH_READ, PRIVATE};
use disk_model::Gate;
use guest_kernel::State;
use racing_runner::Gather;
use std::alloc::Global;
use std::sync::atomic::{AtomicBool, Ordering};
use std::test::Fail;
use std::thread::Threads;
use supply::Supply;
use thread_racer::{Gated, ThreadRacer};

// A gate that notes whether it was passed.
#[derive(Drop)]
struct NotingGate {
    passed: AtomicBool,
}

impl Gate for NotingGate {
    fn pass(&self, _worker: u32, _job: u32) {
        self.passed.store(true, Ordering::SeqCst);
    }
}

// A round of one offer: the state that is offered, and whether the threads raced.
fn round<R: Threads + Sync>(
    rt: &R,
    alloc: Global,
    racer: &mut ThreadRacer<Gated<'_, NotingGate>>,
    gate: &NotingGate,
    start: &State,
    supply: &Supply,
    epoch: u32,
) -> Result<(State, bool), Fail> {
    let plan = plan_of(Case::of_two(0, epoch, 2));
    gate.passed.store(false, Ordering::SeqCst);
    let mut sink = Gather::new(alloc, 1)?;
    if start.steps > 1_000_000 {
        return Err("few steps".into());
    }
    racer.race_through(rt, alloc, start, supply, &plan, &mut sink)?;
    let raced = gate.passed.load(Ordering::SeqCst);
    match sink.into_offers().pop() {
        Some(offer) => Ok((offer.next, raced)),
        None => Err("no offer".into()),
    }
}

// Where a round starts.
#[derive(Clone, Copy)]
enum RoundStart {
    // Where the last job of the round before ended: ten steps after the state that was offered.
    LastJob,
    // In a state with as many steps as the one that was offered. The last job was squashed.
    Offered,
    // Where the first of all rounds started. The job after it was squashed.
    First,
}

// A round: where it starts, and whether its threads race.
fn rounds() -> [(RoundStart, bool); 14] {
    [
        (RoundStart::LastJob, true),
        (RoundStart::LastJob, true),
        // After a squash two stretches don't race.
        (RoundStart::First, false),
        (RoundStart::LastJob, false),
        (RoundStart::LastJob, true),
        // After another one, four don't, though the stretch in between paid.
        (RoundStart::Offered, false),
        (RoundStart::LastJob, false),
        (RoundStart::LastJob, false),
        (RoundStart::LastJob, false),
        (RoundStart::LastJob, true),
        // A round that raced was kept, and its next stretch pays. So after a squash two don't race.
        (RoundStart::LastJob, true),
        (RoundStart::First, false),
        (RoundStart::LastJob, false),
        (RoundStart::LastJob, true),
    ]
}

// How many of the rounds race, or don't, as expected.
fn as_expected<R: Threads + Sync>(rt: &R, alloc: Global) -> Result<usize, Fail> {
    let supply = no_input(alloc)?;
    let gate = NotingGate {
        passed: AtomicBool::new(false),
    };
    let mut racer = ThreadRacer::gated(2, &gate);
    let first = start(alloc, &PRIVATE, 5)?;
    let mut last = first.share(alloc)?;
    let mut count = 0usize;
    for (from, races) in rounds() {
        let mut next = match from {
            RoundStart::LastJob => last,
            RoundStart::Offered => last,
            RoundStart::First => first.share(alloc)?,
        };
        if matches!(from, RoundStart::LastJob) {
            run(alloc, &mut next, 1, 10)?;
        }
        let (offered, raced) = round(rt, alloc, &mut racer, &gate, &next, &supply, 32_000)?;
        if raced == races {
            count = count.saturating_add(1);
        }
        last = offered;
    }
    Ok(count)
}

#[test]
fn rests_after_squashes(rt: HostRuntime) -> Result<(), Fail> {
    assert_eq!(rt; as_expected(&rt, rt.alloc())?, 14);
    Ok(())
}

// Whether two threads race again in a round that starts in the offered state, in which both wait for input.
fn waits_and_races<R: Threads + Sync>(rt: &R, alloc: Global) -> Result<(u64, bool), Fail> {
    let gate = NotingGate {
        passed: AtomicBool::new(false),
    };
    let mut racer = ThreadRacer::gated(2, &gate);
    let first = start(alloc, &BOTH_READ, 5)?;
    let supply = no_input(alloc)?;
    let (waits, raced) = round(rt, alloc, &mut racer, &gate, &first, &supply, 81_930)?;
    if !raced {
        return Ok((waits.steps, false));
    }
    let supply = supply_of(alloc, b"abcdefghijklmnopqrstuvwxyz")?;
    let (_offered, raced) = round(rt, alloc, &mut racer, &gate, &waits, &supply, 81_930)?;
    Ok((waits.steps, raced))
}

// A round whose last job takes no step is kept too.
#[test]
fn input_is_no_squash(rt: HostRuntime) -> Result<(), Fail> {
    assert_eq!(rt; waits_and_races(&rt, rt.alloc())?, (81_935, true));
    Ok(())
}

// The first of so many rounds in which two threads race, each of an epoch of so many steps, or 0 if none is.
fn first_race<R: Threads + Sync>(rt: &R, alloc: Global, epoch: u32) -> Result<u32, Fail> {
    let supply = no_input(alloc)?;
    let gate = NotingGate {
        passed: AtomicBool::new(false),
    };
    let mut racer = ThreadRacer::gated(2, &gate);
    let mut last = start(alloc, &PRIVATE, 5)?;
    for number in 1..=20 {
        run(alloc, &mut last, 1, 10)?;
        let (offered, raced) = round(rt, alloc, &mut racer, &gate, &last, &supply, epoch)?;
        if raced {
            return Ok(number);
        }
        last = offered;
    }
    Ok(0)
}

// With epochs that aren't worth a pass the first sixteen stretches don't race, unless the epochs are short.
#[test]
fn looks_late(rt: HostRuntime) -> Result<(), Fail> {
    for (epoch, first) in [(4095, 1), (4096, 17), (20_000, 17), (32_000, 1)] {
        assert_eq!(rt; first_race(&rt, rt.alloc(), epoch)?, first, "epoch {epoch}");
    }
    Ok(())
}
