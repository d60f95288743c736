// Accesses of a racing hart that is alone.
ghost use Rattle.std.specs.Prelude.{◌≡◌, ◌≤◌, ◌^◌, [], IfOk};
ghost use Rattle.shared_words.specs.Rule.{view_of};
ghost use Rattle.shared_words.specs.Words.{IsSeatAt, table_of};

use crate::page_tests::two_pages;
use cow_pages::Pages;
use dp_base::{Access, AmoOp, Log, Mem, OutOfMemory, Width};
use shared_words::{Naming, RacingMem, Seat, SharedWords};
use std::alloc::Global;
use std::marker::Brand;
use std::test::Fail;
use sync_hints::Sc;

#[derive(Clone, Copy)]
enum Step {
    Fetch(u32),
    Load(u32, Width),
    Store(u32, Width, u32),
    Add(u32, u32),
    LoadReserved(u32),
    StoreConditional(u32, u32),
    CanStore(u32),
}

// A step and its answer. A store answers 0, and an SC 1 if it stored.
type Row = (Step, Access<u32>);

const STORED: Access<u32> = Access::Done(0);

const DENIED: Access<u32> = Access::Denied;

fn rows() -> [Row; 28] {
    [
        // a byte of a word
        (Step::Store(0x0001_0001, Width::One, 0x1ff), STORED),
        (Step::Load(0x0001_0000, Width::Four), Access::Done(0xff05)),
        // steps that synchronise
        (Step::Add(0x0001_0000, 3), Access::Done(0xff05)),
        (Step::LoadReserved(0x0001_0000), Access::Done(0xff08)),
        (Step::StoreConditional(0x0001_0000, 77), Access::Done(1)),
        (Step::StoreConditional(0x0001_0000, 78), Access::Done(0)),
        (Step::CanStore(0x0001_0000), STORED),
        (Step::Load(0x0001_0000, Width::Four), Access::Done(77)),
        // across two words
        (Step::Store(0x0001_0002, Width::Four, 0x0102_0304), STORED),
        (
            Step::Load(0x0001_0002, Width::Four),
            Access::Done(0x0102_0304),
        ),
        (
            Step::Load(0x0001_0000, Width::Four),
            Access::Done(0x0304_004d),
        ),
        (Step::Load(0x0001_0004, Width::Two), Access::Done(0x0102)),
        (Step::Load(0x0001_0003, Width::Two), Access::Done(0x0203)),
        (Step::Load(0x0001_0001, Width::Two), Access::Done(0x0400)),
        // across two pages
        (Step::Store(0x0001_0ffe, Width::Four, 0x0403_0201), STORED),
        (
            Step::Load(0x0001_0ffe, Width::Four),
            Access::Done(0x0403_0201),
        ),
        (Step::Load(0x0001_0fff, Width::Two), Access::Done(0x0302)),
        (Step::Load(0x0001_1000, Width::Four), Access::Done(0x0403)),
        (Step::Store(0x0001_0fff, Width::Two, 0xbbaa), STORED),
        (
            Step::Load(0x0001_0ffc, Width::Four),
            Access::Done(0xaa01_0000),
        ),
        (Step::Load(0x0001_1000, Width::One), Access::Done(0xbb)),
        // past the last page
        (Step::Load(0x0001_1ffe, Width::Four), DENIED),
        (Step::Load(0x0001_1ffe, Width::Two), Access::Done(0)),
        (Step::Store(0x0001_1ffd, Width::Four, 1), DENIED),
        (Step::Load(0x0001_1ffc, Width::Four), Access::Done(0)),
        (Step::Load(0xffff_ffff, Width::Two), DENIED),
        (Step::StoreConditional(0x0001_2000, 1), DENIED),
        (Step::Fetch(0x0001_0000), DENIED),
    ]
}

fn done(answer: Access<()>) -> Access<u32> {
    match answer {
        Access::Done(()) => Access::Done(0),
        Access::Denied => Access::Denied,
        Access::Busy => Access::Busy,
    }
}

fn stored(answer: Access<bool>) -> Access<u32> {
    match answer {
        Access::Done(stored) => Access::Done(u32::from(stored)),
        Access::Denied => Access::Denied,
        Access::Busy => Access::Busy,
    }
}

fn take<M: Mem>(memory: &mut M, step: Step) -> Result<Access<u32>, OutOfMemory> {
    Ok(match step {
        Step::Fetch(address) => memory.fetch(address),
        Step::Load(address, width) => memory.load(address, width),
        Step::Store(address, width, value) => done(memory.store(address, width, value)?),
        Step::Add(address, value) => memory.amo(address, AmoOp::Add, value)?,
        Step::LoadReserved(address) => memory.load_reserved(address),
        Step::StoreConditional(address, value) => stored(memory.store_conditional(address, value)?),
        Step::CanStore(address) => done(memory.can_store(address)),
    })
}

fn take_all<M: Mem>(memory: &mut M, rows: [Row; 28]) -> Result<[Access<u32>; 28], OutOfMemory> {
    let mut answers = [Access::Busy; 28];
    for index in 0..28 {
        answers[index] = take(memory, rows[index].0)?;
    }
    Ok(answers)
}

// The answers of a hart's memory, its seat, and its log.
fn taken<J: Naming>(
    alloc: Global,
    words: &SharedWords,
    seat: Seat,
    rows: [Row; 28],
) -> Result<([Access<u32>; 28], Seat, Log<(u64, Sc)>), OutOfMemory>
    requires named { table_of words.now ≡ J.table }
    requires seat { IsSeatAt J.table seat }
    requires budget { 2 ^ 32 ≤ (view_of seat).budget }
    requires stored { (view_of seat).stored ≡ [] }
    ensures { IfOk result (λ r. IsSeatAt J.table r.1) }
{
    let mut memory = RacingMem::<J>::new(alloc, words, seat)?;
    let answers = take_all(&mut memory, rows)?;
    let (seat, log, _marks) = memory.into_parts();
    Ok((answers, seat, log))
}

// The answers on pages whose first word is 5, and the log.
fn answers(
    alloc: Global,
    rows: [Row; 28],
) -> Result<([Access<u32>; 28], Log<(u64, Sc)>), OutOfMemory> {
    let mut pages = two_pages(alloc, 6, 6)?;
    pages.store(0x0001_0000, Width::Four, 5)?;
    let (words, seat) = SharedWords::of_pages(alloc, &pages)?;
    let (answers, seat, log) = taken::<Brand>(alloc, &words, seat, rows)?;
    let _back = words.into_pages(alloc, seat)?;
    Ok((answers, log))
}

#[test]
fn accesses_of_one_hart(rt: HostRuntime) -> Result<(), Fail> {
    let rows = rows();
    let (answers, log) = answers(rt.alloc(), rows)?;
    for index in 0..28 {
        assert_eq!(rt; answers[index], rows[index].1, "row {index}");
    }
    // The LR has the ticket of the SC that stored.
    assert_eq!(rt;
        log.as_slice(),
        [
            (0, Sc::NotSc),
            (2, Sc::NotSc),
            (2, Sc::Won),
            (3, Sc::Lost),
            (4, Sc::Lost),
        ]
        .as_slice()
    );
    Ok(())
}

// The log of an LR and an SC on the same word, and the seat.
fn pair<J: Naming>(
    alloc: Global,
    words: &SharedWords,
    seat: Seat,
) -> Result<(Seat, Log<(u64, Sc)>), OutOfMemory>
    requires named { table_of words.now ≡ J.table }
    requires seat { IsSeatAt J.table seat }
    requires budget { 2 ^ 32 ≤ (view_of seat).budget }
    requires stored { (view_of seat).stored ≡ [] }
    ensures { IfOk result (λ r. IsSeatAt J.table r.0) }
{
    let mut memory = RacingMem::<J>::new(alloc, words, seat)?;
    memory.load_reserved(0x0001_0000);
    memory.store_conditional(0x0001_0000, 1)?;
    let (seat, log, _marks) = memory.into_parts();
    Ok((seat, log))
}

fn pair_log(alloc: Global) -> Result<Log<(u64, Sc)>, OutOfMemory> {
    let pages = two_pages(alloc, 6, 6)?;
    let (words, seat) = SharedWords::of_pages(alloc, &pages)?;
    let (seat, log) = pair::<Brand>(alloc, &words, seat)?;
    let _back = words.into_pages(alloc, seat)?;
    Ok(log)
}

// The same of an LR that is the first in the log.
#[test]
fn a_pair_first_in_the_log(rt: HostRuntime) -> Result<(), Fail> {
    let log = pair_log(rt.alloc())?;
    assert_eq!(rt; log.as_slice(), [(1, Sc::NotSc), (1, Sc::Won)].as_slice());
    Ok(())
}
