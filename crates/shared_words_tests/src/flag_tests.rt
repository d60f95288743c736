// Accesses to pages with all kinds of flags, by a racing hart that is alone, and the same by a hart over pages.
ghost use Rattle.std.specs.Prelude.{◌≡◌, ◌≤◌, ◌^◌, [], IfOk};
ghost use Rattle.shared_words.specs.Rule.{view_of};
ghost use Rattle.shared_words.specs.Words.{IsSeatAt, table_of};

use crate::page_tests::{are_same, two_pages};
use dp_base::{Access, AmoOp, Mem, OutOfMemory, Width};
use shared_words::{Naming, RacingMem, Seat, SharedWords};
use std::alloc::Global;
use std::marker::Brand;
use std::test::Fail;

// The flags of page 10 and of page 11, and which accesses aren't denied, a bit for each.
type Row = (u8, u8, u8);

// A fetch, a load and a store across both pages; an AMO, an LR and a look whether a store may be on the first one.
fn rows() -> [Row; 9] {
    [
        (7, 7, 0b111_111),
        (6, 7, 0b011_111),
        (7, 6, 0b011_111),
        (5, 7, 0b110_010),
        (7, 5, 0b110_111),
        (3, 7, 0b101_001),
        (7, 3, 0b101_111),
        (1, 1, 0b100_000),
        (0, 0, 0b000_000),
    ]
}

fn bit_if_done<T: Copy>(answer: Access<T>, bit: u8) -> u8 {
    match answer {
        Access::Done(_) => bit,
        Access::Denied => 0,
        Access::Busy => 0,
    }
}

fn done<M: Mem>(memory: &mut M) -> Result<u8, OutOfMemory> {
    let fetched = bit_if_done(memory.fetch(0x0001_0ffe), 0b100_000);
    let loaded = bit_if_done(memory.load(0x0001_0ffe, Width::Four), 0b010_000);
    let stored = bit_if_done(
        memory.store(0x0001_0ffe, Width::Four, 0x0403_0201)?,
        0b001_000,
    );
    let changed = bit_if_done(memory.amo(0x0001_0ff8, AmoOp::Add, 7)?, 0b000_100);
    let reserved = bit_if_done(memory.load_reserved(0x0001_0ff8), 0b000_010);
    let storable = bit_if_done(memory.can_store(0x0001_0ff8), 0b000_001);
    Ok(fetched | loaded | stored | changed | reserved | storable)
}

fn done_at<J: Naming>(
    alloc: Global,
    words: &SharedWords,
    seat: Seat,
) -> Result<(u8, Seat), OutOfMemory>
    requires named { table_of words.now ≡ J.table }
    requires seat { IsSeatAt J.table seat }
    requires budget { 2 ^ 32 ≤ (view_of seat).budget }
    requires stored { (view_of seat).stored ≡ [] }
    ensures { IfOk result (λ r. IsSeatAt J.table r.1) }
{
    let mut memory = RacingMem::<J>::new(alloc, words, seat)?;
    let done = done(&mut memory)?;
    let (seat, _log, _marks) = memory.into_parts();
    Ok((done, seat))
}

// What is done over words and over the pages, and whether both leave the same pages.
fn both(alloc: Global, low: u8, high: u8) -> Result<(u8, u8, bool), OutOfMemory> {
    let mut pages = two_pages(alloc, low, high)?;
    let (words, seat) = SharedWords::of_pages(alloc, &pages)?;
    let (over_words, seat) = done_at::<Brand>(alloc, &words, seat)?;
    let back = words.into_pages(alloc, seat)?;
    let over_pages = done(&mut pages)?;
    Ok((over_words, over_pages, are_same(&pages, &back)))
}

#[test]
fn flags_on_both_pages(rt: HostRuntime) -> Result<(), Fail> {
    for (low, high, done) in rows() {
        let found = both(rt.alloc(), low, high)?;
        assert_eq!(rt; found, (done, done, true), "flags {low} and {high}");
    }
    Ok(())
}
