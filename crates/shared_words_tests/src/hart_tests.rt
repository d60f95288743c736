// Steps of a hart over shared words.
ghost use Rattle.std.specs.Prelude.{◌≡◌, ◌≤◌, ◌^◌, [], IfOk};
ghost use Rattle.shared_words.specs.Rule.{view_of};
ghost use Rattle.shared_words.specs.Words.{IsSeatAt, table_of};

use crate::page_tests::{are_same, two_pages};
use cow_pages::Pages;
use dp_base::{Mem, OutOfMemory, Width};
use guest_state::Hart;
use rv_step::{Stepped, exec};
use shared_words::{Naming, RacingMem, Seat, SharedWords};
use std::alloc::Global;
use std::marker::Brand;
use std::test::Fail;

// Steps until a call, and what x7 and x9 to x15 are then.
type Seen = (u32, [u32; 8]);

fn code() -> [u32; 14] {
    [
        0x0001_12b7, // LUI x5, 11
        0xffe0_0313, // ADDI x6, x0, -2
        0x0062_80a3, // SB x6, 1(x5)
        0x0002_a383, // LW x7, 0(x5)
        0x0070_0413, // ADDI x8, x0, 7
        0x0082_a4af, // AMOADD.W x9, x8, (x5)
        0x1002_a52f, // LR.W x10, (x5)
        0x1862_a5af, // SC.W x11, x6, (x5)
        0x1882_a62f, // SC.W x12, x8, (x5)
        0x0002_a683, // LW x13, 0(x5)
        0xfe82_9fa3, // SH x8, -1(x5)
        0xfff2_d703, // LHU x14, -1(x5)
        0x0002_a783, // LW x15, 0(x5)
        0x0000_0073, // ECALL
    ]
}

// Pages 10, with the code, and 11.
fn pages_with(alloc: Global, code: [u32; 14]) -> Result<Pages, OutOfMemory> {
    let mut pages = two_pages(alloc, 7, 6)?;
    let mut address = 0x0001_0000u32;
    for word in code {
        pages.store(address, Width::Four, word)?;
        address = address.wrapping_add(4);
    }
    Ok(pages)
}

fn run<M: Mem>(memory: &mut M) -> Result<Seen, OutOfMemory> {
    let mut hart = Hart {
        pc: 0x0001_0000,
        x: [0; 31],
        held: None,
    };
    let mut steps = 0u32;
    for _ in 0..20 {
        match exec(&mut hart, memory)? {
            Stepped::Went => steps = steps.saturating_add(1),
            _ => break,
        }
    }
    let x = hart.x;
    Ok((steps, [x[6], x[8], x[9], x[10], x[11], x[12], x[13], x[14]]))
}

// What is seen, and the seat.
fn run_at<J: Naming>(
    alloc: Global,
    words: &SharedWords,
    seat: Seat,
) -> Result<(Seen, Seat), OutOfMemory>
    requires named { table_of words.now ≡ J.table }
    requires seat { IsSeatAt J.table seat }
    requires budget { 2 ^ 32 ≤ (view_of seat).budget }
    requires stored { (view_of seat).stored ≡ [] }
    ensures { IfOk result (λ r. IsSeatAt J.table r.1) }
{
    let mut memory = RacingMem::<J>::new(alloc, words, seat)?;
    let seen = run(&mut memory)?;
    let (seat, _log, _marks) = memory.into_parts();
    Ok((seen, seat))
}

// What is seen over words and over the pages, and whether both leave the same pages.
fn both(alloc: Global, code: [u32; 14]) -> Result<(Seen, Seen, bool), OutOfMemory> {
    let mut pages = pages_with(alloc, code)?;
    let (words, seat) = SharedWords::of_pages(alloc, &pages)?;
    let (over_words, seat) = run_at::<Brand>(alloc, &words, seat)?;
    let back = words.into_pages(alloc, seat)?;
    let over_pages = run(&mut pages)?;
    Ok((over_words, over_pages, are_same(&pages, &back)))
}

#[test]
fn a_hart_alone(rt: HostRuntime) -> Result<(), Fail> {
    let seen = (
        13,
        [
            0x0000_fe00,
            0x0000_fe00,
            0x0000_fe07,
            0,
            1,
            0xffff_fffe,
            0x0000_0007,
            0xffff_ff00,
        ],
    );
    assert_eq!(rt; both(rt.alloc(), code())?, (seen, seen, true));
    Ok(())
}
