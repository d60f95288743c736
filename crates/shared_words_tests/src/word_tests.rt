// Steps of one seat on words.
ghost use Rattle.std.specs.Prelude.{◌≡◌, ◌≤◌, ◌+◌};
ghost use Rattle.shared_words.specs.Rule.{view_of};
ghost use Rattle.shared_words.specs.Words.{IsSeatOf};

use crate::page_tests::two_pages;
use dp_base::{Access, Mem, OutOfMemory, Width};
use shared_words::{Seat, SharedWords};
use std::alloc::Global;
use std::test::Fail;

#[derive(Clone, Copy)]
enum Step {
    Load(u32),
    Store(u32, u32),
    Exchange(u32, u32, u32),
    Ticket,
}

// A step, and the word that a load found, 1 for an exchange that stored, or the ticket.
type Row = (Step, u64);

fn rows() -> [Row; 15] {
    [
        (Step::Load(0x0001_0000), 5),
        (Step::Exchange(0x0001_0000, 5, 6), 1),
        (Step::Exchange(0x0001_0000, 5, 7), 0),
        (Step::Load(0x0001_0000), 6),
        (Step::Store(0x0001_0000, 8), 0),
        (Step::Load(0x0001_0000), 8),
        (Step::Ticket, 0),
        (Step::Ticket, 1),
        (Step::Load(0x0001_0004), 0),
        (Step::Store(0x0001_0ffc, 0xffff_ffff), 0),
        (Step::Load(0x0001_0ffc), 0xffff_ffff),
        (Step::Exchange(0x0001_1000, 0, 0x8000_0000), 1),
        (Step::Load(0x0001_1000), 0x8000_0000),
        (Step::Load(0x0001_1004), 0),
        (Step::Ticket, 2),
    ]
}

fn load(words: &SharedWords, seat: &mut Seat, address: u32) -> u64
    requires { IsSeatOf words.now seat.old }
    ensures seat { IsSeatOf words.now seat.new }
    ensures budget { (view_of seat.new).budget ≡ (view_of seat.old).budget }
{
    if address % 4 == 0 && words.is_mapped(address / 4096) {
        u64::from(words.load(seat, address))
    } else {
        99
    }
}

fn store(words: &SharedWords, seat: &mut Seat, address: u32, value: u32) -> u64
    requires { IsSeatOf words.now seat.old }
    ensures seat { IsSeatOf words.now seat.new }
    ensures budget { (view_of seat.new).budget ≡ (view_of seat.old).budget }
{
    if address % 4 == 0 && words.is_mapped(address / 4096) {
        words.store(seat, address, value);
        0
    } else {
        99
    }
}

fn exchange(words: &SharedWords, seat: &mut Seat, address: u32, expected: u32, new: u32) -> u64
    requires { IsSeatOf words.now seat.old }
    ensures seat { IsSeatOf words.now seat.new }
    ensures budget { (view_of seat.new).budget ≡ (view_of seat.old).budget }
{
    if address % 4 == 0 && words.is_mapped(address / 4096) {
        u64::from(words.compare_exchange(seat, address, expected, new))
    } else {
        99
    }
}

fn take(words: &SharedWords, seat: &mut Seat, step: Step) -> u64
    requires seat { IsSeatOf words.now seat.old }
    requires budget { 1 ≤ (view_of seat.old).budget }
    ensures seat { IsSeatOf words.now seat.new }
    ensures budget { (view_of seat.old).budget ≤ (view_of seat.new).budget + 1 }
{
    match step {
        Step::Load(address) => load(words, seat, address),
        Step::Store(address, value) => store(words, seat, address, value),
        Step::Exchange(address, expected, new) => exchange(words, seat, address, expected, new),
        Step::Ticket => words.ticket(seat),
    }
}

fn take_all(words: &SharedWords, seat: &mut Seat, rows: [Row; 15]) -> [u64; 15]
    requires seat { IsSeatOf words.now seat.old }
    requires budget { 15 ≤ (view_of seat.old).budget }
    ensures seat { IsSeatOf words.now seat.new }
    ensures budget { (view_of seat.old).budget ≤ (view_of seat.new).budget + 15 }
{
    let mut answers = [0; 15];
    for index in 0..15 {
        answers[index] = take(words, seat, rows[index].0);
    }
    answers
}

// The answers on pages whose first word is 5, and the words at 00010000, 00010FFC and 00011000 of the pages in the end.
fn answers(alloc: Global, rows: [Row; 15]) -> Result<([u64; 15], [Access<u32>; 3]), OutOfMemory> {
    let mut pages = two_pages(alloc, 6, 6)?;
    pages.store(0x0001_0000, Width::Four, 5)?;
    let (words, mut seat) = SharedWords::of_pages(alloc, &pages)?;
    let answers = take_all(&words, &mut seat, rows);
    let (seat, other) = words.split(seat);
    let seat = words.join(seat, other);
    let mut back = words.into_pages(alloc, seat)?;
    let first = back.load(0x0001_0000, Width::Four);
    let last = back.load(0x0001_0ffc, Width::Four);
    let next = back.load(0x0001_1000, Width::Four);
    Ok((answers, [first, last, next]))
}

#[test]
fn steps_of_one_seat(rt: HostRuntime) -> Result<(), Fail> {
    let rows = rows();
    let (answers, words) = answers(rt.alloc(), rows)?;
    for index in 0..15 {
        assert_eq!(rt; answers[index], rows[index].1, "row {index}");
    }
    assert_eq!(rt;
        words,
        [
            Access::Done(8),
            Access::Done(0xffff_ffff),
            Access::Done(0x8000_0000)
        ]
    );
    Ok(())
}
