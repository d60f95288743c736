// Offered states, beside those of slices.
use crate::cases::{
    Case, count_of, end_of, followed, no_input, offers_by, offers_from, plan_of, run, start,
    supply_of,
};
use crate::guests::*;
use disk_mem::HoldGate;
use disk_model::Gate;
use racing_runner::{ChaosRacer, Gather, Offer};
use state_compare::equal;
use std::alloc::Global;
use std::sync::atomic::{AtomicBool, Ordering};
use std::test::Fail;
use std::thread::Threads;
use supply::Supply;
use sync_hints::Hints;
use test_files::WRITES_WORDS;
use thread_racer::ThreadRacer;

// How many states are offered, and how many of them are those after slices of these steps of thread 1, and then of
// thread 2.
fn same_as_slices<R: Threads + Sync>(
    rt: &R,
    alloc: Global,
    words: &[u32],
    case: Case,
    first: u32,
    second: u32,
) -> Result<(u32, u32), Fail> {
    let supply = no_input(alloc)?;
    let mut state = start(alloc, words, case.alone)?;
    let (mut count, mut same) = (0u32, 0u32);
    for offer in offers_from(rt, alloc, &state, &supply, case)? {
        run(alloc, &mut state, 1, first)?;
        if second > 0 {
            run(alloc, &mut state, 2, second)?;
        }
        count = count.saturating_add(1);
        if equal(&state, &offer.next) {
            same = same.saturating_add(1);
        }
    }
    Ok((count, same))
}

// A guest of one thread that ends in its ninth step.
#[test]
fn one_thread(rt: HostRuntime) -> Result<(), Fail> {
    let alloc = rt.alloc();
    let case = Case::of_two(0, 2, 16);
    assert_eq!(rt;
        same_as_slices(&rt, alloc, &WRITES_WORDS, case, 2, 0)?,
        (4, 4)
    );
    assert_eq!(rt; followed(&rt, alloc, &WRITES_WORDS, case)?, (4, 4, 4));
    // The jobs and the steps that are left bound the offers.
    let case = Case::of_two(0, 2, 3);
    assert_eq!(rt;
        same_as_slices(&rt, alloc, &WRITES_WORDS, case, 2, 0)?,
        (2, 2)
    );
    assert_eq!(rt;
        count_of(&rt, alloc, &WRITES_WORDS, Case::of_two(0, 2, 1))?,
        0
    );
    let case = Case {
        left: 5,
        ..Case::of_two(0, 2, 16)
    };
    assert_eq!(rt;
        same_as_slices(&rt, alloc, &WRITES_WORDS, case, 2, 0)?,
        (2, 2)
    );
    let case = Case { left: 4, ..case };
    assert_eq!(rt;
        same_as_slices(&rt, alloc, &WRITES_WORDS, case, 2, 0)?,
        (2, 2)
    );
    Ok(())
}

// Two threads that share no word. Each takes its quota, whichever is faster.
#[test]
fn quotas(rt: HostRuntime) -> Result<(), Fail> {
    let alloc = rt.alloc();
    assert_eq!(rt;
        same_as_slices(&rt, alloc, &PRIVATE, Case::of_two(5, 2, 5), 1, 1)?,
        (4, 4)
    );
    assert_eq!(rt;
        same_as_slices(&rt, alloc, &PRIVATE, Case::of_two(5, 200, 5), 100, 100)?,
        (4, 4)
    );
    // A step that can't be shared is the lower thread's.
    assert_eq!(rt;
        same_as_slices(&rt, alloc, &PRIVATE, Case::of_two(5, 31, 5), 16, 15)?,
        (4, 4)
    );
    // More threads than steps.
    assert_eq!(rt;
        same_as_slices(&rt, alloc, &PRIVATE, Case::of_two(5, 1, 5), 1, 0)?,
        (4, 4)
    );
    // With one worker they take turns.
    let case = Case {
        workers: 1,
        ..Case::of_two(5, 40, 5)
    };
    assert_eq!(rt; same_as_slices(&rt, alloc, &PRIVATE, case, 20, 20)?, (4, 4));
    Ok(())
}

// A gate that holds thread 1 until thread 2 has passed, and notes that worker 1 brought thread 1, and worker 2 thread
// 2.
#[derive(Drop)]
struct WatchedGate {
    hold: HoldGate,
    first: AtomicBool,
    second: AtomicBool,
}

impl Gate for WatchedGate {
    fn pass(&self, worker: u32, job: u32) {
        if worker == 1 && job == 1 {
            self.first.store(true, Ordering::SeqCst);
        }
        if worker == 2 && job == 2 {
            self.second.store(true, Ordering::SeqCst);
        }
        self.hold.pass(worker, job);
    }
}

// What is offered with such a gate; and whether both threads passed it, and thread 1 not before thread 2.
fn held<R: Threads + Sync>(rt: &R, alloc: Global) -> Result<(Vec<Offer>, bool), Fail> {
    let supply = no_input(alloc)?;
    let start = start(alloc, &BOTH_EXIT, 5)?;
    let plan = plan_of(Case::of_two(5, 4, 2));
    let gate = WatchedGate {
        hold: HoldGate::new(),
        first: AtomicBool::new(false),
        second: AtomicBool::new(false),
    };
    let mut sink = Gather::new(alloc, 1)?;
    ThreadRacer::gated(2, &gate).race_through(rt, alloc, &start, &supply, &plan, &mut sink)?;
    let passed = gate.first.load(Ordering::SeqCst) && gate.second.load(Ordering::SeqCst);
    Ok((sink.into_offers(), passed && !gate.hold.ran_out()))
}

// Two threads run at once.
#[test]
fn side_by_side(rt: HostRuntime) -> Result<(), Fail> {
    let alloc = rt.alloc();
    let (offers, at_once) = held(&rt, alloc)?;
    assert!(rt; at_once);
    assert_eq!(rt; offers.len(), 1);
    let mut state = start(alloc, &BOTH_EXIT, 5)?;
    run(alloc, &mut state, 1, 2)?;
    run(alloc, &mut state, 2, 2)?;
    assert_eq!(rt; state.steps, 9);
    assert!(rt; equal(&offers[0].next, &state));
    Ok(())
}

// A guest that writes 65,536 bytes in a stretch: the stretch ends where an epoch does.
fn ends_like_an_epoch<R: Threads + Sync>(rt: &R, alloc: Global) -> Result<(bool, u64), Fail> {
    let supply = no_input(alloc)?;
    let before = start(alloc, &WRITES_MUCH, 0)?;
    let case = Case::of_two(0, 1000, 2);
    let mut offers = offers_from(rt, alloc, &before, &supply, case)?;
    let Some(offer) = offers.pop() else {
        return Ok((false, 0));
    };
    let end = end_of(alloc, before, &Hints::none(alloc), &supply, case)?;
    Ok((equal(&end, &offer.next), offer.next.steps))
}

// The first write is the fifth step, and each of the others comes after four more.
#[test]
fn much_is_written(rt: HostRuntime) -> Result<(), Fail> {
    assert_eq!(rt; ends_like_an_epoch(&rt, rt.alloc())?, (true, 65));
    Ok(())
}

// A thread that loads a flag until another has stored it. With quotas of 10 it is stored in the fifth stretch.
#[test]
fn spins_for_a_flag(rt: HostRuntime) -> Result<(), Fail> {
    let alloc = rt.alloc();
    assert_eq!(rt; count_of(&rt, alloc, &SPINS, Case::of_two(5, 20, 16))?, 4);
    assert!(rt; count_of(&rt, alloc, &SPINS, Case::of_two(5, 200, 16))? < 2);
    Ok(())
}

// A thread that yields leaves its steps to the other: of 600, 298, 147, 72, 34, 15 and 6 that are left, the other gets
// half, and it takes two itself. Of a quota of 300 it would yield 150 times.
#[test]
fn yields(rt: HostRuntime) -> Result<(), Fail> {
    let alloc = rt.alloc();
    let supply = no_input(alloc)?;
    let start = start(alloc, &YIELDS, 5)?;
    let case = Case {
        workers: 1,
        ..Case::of_two(5, 600, 2)
    };
    let offers = offers_from(&rt, alloc, &start, &supply, case)?;
    assert_eq!(rt; offers.len(), 1);
    assert_eq!(rt; offers[0].hints.order.as_slice().len(), 7);
    Ok(())
}

// How many states `ChaosRacer` offers, and how many of them are offered with as many hints. It runs by round robin.
fn same_as_round_robin<R: Threads + Sync>(
    rt: &R,
    alloc: Global,
    words: &[u32],
    supply: &Supply,
    case: Case,
) -> Result<(usize, usize), Fail> {
    let start = start(alloc, words, 0)?;
    let offers = offers_from(rt, alloc, &start, supply, case)?;
    let expected = offers_by(rt, alloc, &mut ChaosRacer::new(0), &start, supply, case)?;
    let mut same = 0usize;
    for index in 0..offers.len().min(expected.len()) {
        let (offer, wanted) = (&offers[index], &expected[index]);
        if equal(&offer.next, &wanted.next)
            && offer.hints.order.as_slice().len() == wanted.hints.order.as_slice().len()
        {
            same = same.saturating_add(1);
        }
    }
    Ok((expected.len().max(offers.len()), same))
}

// One thread that reads, and one that asks for the time.
#[test]
fn input_and_clock(rt: HostRuntime) -> Result<(), Fail> {
    let alloc = rt.alloc();
    let supply = supply_of(alloc, b"abc")?;
    let case = Case::of_two(0, 4, 16);
    assert_eq!(rt;
        same_as_round_robin(&rt, alloc, &READS_A_PIECE, &supply, case)?,
        (1, 1)
    );
    let case = Case::of_two(0, 5, 16);
    assert_eq!(rt;
        same_as_round_robin(&rt, alloc, &READS_A_PIECE, &supply, case)?,
        (1, 1)
    );
    // The input has ended.
    let supply = supply_of(alloc, b"")?;
    let case = Case::of_two(0, 3, 16);
    assert_eq!(rt;
        same_as_round_robin(&rt, alloc, &READS_A_PIECE, &supply, case)?,
        (2, 2)
    );
    let case = Case::of_two(0, 8, 3);
    assert_eq!(rt;
        same_as_round_robin(&rt, alloc, &CLOCKS, &supply, case)?,
        (2, 2)
    );
    Ok(())
}
