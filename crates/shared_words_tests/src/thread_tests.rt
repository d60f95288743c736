// Harts that race for one word in two threads.
ghost use Rattle.std.specs.Prelude.{◌≡◌, ◌≤◌, ◌^◌, [], IfOk};
ghost use Rattle.shared_words.specs.Rule.{all_tickets, view_of};
ghost use Rattle.shared_words.specs.Words.{IsSeatAt, IsSeatOf, table_of};

use crate::page_tests::two_pages;
use dp_base::{Access, AmoOp, Mem, OutOfMemory, Width};
use shared_words::{Naming, RacingMem, Seat, SharedWords};
use std::alloc::Global;
use std::marker::Brand;
use std::test::Fail;
use std::thread::{self, Threads};

// A hart that adds 1 to the word at 00010000, and how often it has.
#[derive(Drop)]
struct Adder<'a, J: Naming> {
    memory: RacingMem<'a, J>,
    added: u32,
}

impl<J: Naming> Adder<'_, J> {
    fn run(&mut self) {
        for _ in 0..300 {
            if let Ok(Access::Done(_)) = self.memory.amo(0x0001_0000, AmoOp::Add, 1) {
                self.added = self.added.saturating_add(1);
            }
        }
    }
}

fn race<J: Naming + Send + Sync, R: Threads + Sync>(rt: &R, adders: &mut [Adder<'_, J>]) {
    thread::for_each_mut(rt, adders, 2, &|_, adder| adder.run());
}

// How often two harts have added 1, by their counts and by their logs, and a seat.
fn add_by_two<J: Naming + Send + Sync, R: Threads + Sync>(
    rt: &R,
    alloc: Global,
    words: &SharedWords,
    seat: Seat,
) -> Result<(u32, usize, Seat), OutOfMemory>
    requires named { table_of words.now ≡ J.table }
    requires seat { IsSeatAt J.table seat }
    requires view { view_of seat ≡ all_tickets }
    ensures { IfOk result (λ r. IsSeatAt J.table r.2) }
{
    let (seat, first) = words.split(seat);
    let (mut seat, second) = words.split(seat);
    let mut adders = Vec::new(alloc);
    adders.push(Adder {
        memory: RacingMem::<J>::new(alloc, words, first)?,
        added: 0,
    })?;
    adders.push(Adder {
        memory: RacingMem::<J>::new(alloc, words, second)?,
        added: 0,
    })?;
    race(rt, &mut adders);
    let mut added = 0u32;
    let mut logged = 0usize;
    for adder in adders {
        added = added.saturating_add(adder.added);
        let (other, log, _marks) = adder.memory.into_parts();
        logged = logged.saturating_add(log.as_slice().len());
        seat = words.join(seat, other);
    }
    Ok((added, logged, seat))
}

// The same, and the word in the end.
fn added<R: Threads + Sync>(
    rt: &R,
    alloc: Global,
) -> Result<(u32, usize, Access<u32>), OutOfMemory> {
    let pages = two_pages(alloc, 6, 6)?;
    let (words, seat) = SharedWords::of_pages(alloc, &pages)?;
    let (added, logged, seat) = add_by_two::<Brand, R>(rt, alloc, &words, seat)?;
    let mut back = words.into_pages(alloc, seat)?;
    Ok((added, logged, back.load(0x0001_0000, Width::Four)))
}

#[test]
fn no_add_is_lost(rt: HostRuntime) -> Result<(), Fail> {
    let (added, logged, word) = added(&rt, rt.alloc())?;
    assert_eq!(rt; word, Access::Done(added));
    assert_eq!(rt; logged, added as usize);
    assert!(rt; added > 0 && added <= 600);
    Ok(())
}
