// The break, each move worked out by hand.
use crate::guests::started;
use crate::mapping::map;
use dp_base::{Access, Mem, Tid, Width};
use guest_kernel::{End, Hart, Pages, State, Thread, Threads};
use std::alloc::Global;
use std::test::Fail;

// Does brk(new) as thread 1, which is at an ecall at this pc. Returns the answer.
fn brk(alloc: Global, state: &mut State, pc: u32, new: u32) -> Result<u32, Fail> {
    let mut hart = Hart {
        pc,
        x: [7; 31],
        held: None,
    };
    hart.set_register(10, new);
    hart.set_register(17, 9);
    state.threads = Threads::one(alloc, Thread::Runs { hart, clear: 0 })?;
    if state.steps > 9 {
        return Err("these are few steps".into());
    }
    let mut out = Vec::new(alloc);
    state.turn(alloc, Tid(1), None, &mut out)?;
    match state.threads.get(Tid(1)) {
        Some(Thread::Runs { hart, .. }) => Ok(hart.register(10)),
        _ => Err("thread 1 runs".into()),
    }
}

// The last answer, the break, and how many pages are mapped.
type Seen = (u32, u32, u32);

// A guest's start state after so many moves of its break. Its heap starts at 00011000, and 17 pages are mapped.
fn moved(alloc: Global, breaks: &[u32]) -> Result<Seen, Fail> {
    let mut state = started(alloc, &[0x73])?;
    let mut answer = 0;
    for new in breaks {
        answer = brk(alloc, &mut state, 0x10054, *new)?;
    }
    Ok((answer, state.brk, state.pages.pages()))
}

// The breaks, the last answer, and how many pages are mapped.
fn moves() -> [(&'static [u32], u32, u32); 19] {
    [
        // 1,007 pages more, and one too many
        (&[0x40_0000], 0x40_0000, 1024),
        (&[0x40_0000, 0x40_0001], 0x40_0000, 1024),
        (&[0x40_0001], 0x1_1000, 17),
        (&[0x3f_f001, 0x40_0000], 0x40_0000, 1024),
        // all of them unmapped, all but one, and mapped again
        (&[0x40_0000, 0x1_1000], 0x1_1000, 17),
        (&[0x40_0000, 0x1_1001], 0x1_1001, 18),
        (&[0x40_0000, 0x1_1000, 0x40_0000], 0x40_0000, 1024),
        // below the heap's start
        (&[0x1_0fff], 0x1_1000, 17),
        (&[0], 0x1_1000, 17),
        (&[0x1_2345, 0x1_0fff], 0x1_2345, 19),
        // too many pages; past the end of all heaps
        (&[0xffff_f000], 0x1_1000, 17),
        (&[0xffff_f001], 0x1_1000, 17),
        (&[0x1_2345, 0xffff_ffff], 0x1_2345, 19),
        // where it is
        (&[0x1_1000], 0x1_1000, 17),
        // within a page
        (&[0x1_1001], 0x1_1001, 18),
        (&[0x1_1001, 0x1_1fff], 0x1_1fff, 18),
        (&[0x1_1001, 0x1_2000], 0x1_2000, 18),
        (&[0x1_1001, 0x1_2001], 0x1_2001, 19),
        (&[0x1_2001, 0x1_1fff], 0x1_1fff, 18),
    ]
}

#[test]
fn from_the_start(rt: HostRuntime) -> Result<(), Fail> {
    let alloc = rt.alloc();
    for (breaks, answer, pages) in moves() {
        let wanted = (answer, answer, pages);
        let found = moved(alloc, breaks)?;
        assert_eq!(rt; found, wanted, "{answer:x}, {pages} pages");
    }
    Ok(())
}

// The byte at an address of a guest that moved its break, wrote 9 there, and moved its break again, twice.
fn byte_behind(
    alloc: Global,
    first: u32,
    address: u32,
    breaks: [u32; 2],
) -> Result<Option<u32>, Fail> {
    let mut state = started(alloc, &[0x73])?;
    brk(alloc, &mut state, 0x10054, first)?;
    if state.pages.store(address, Width::One, 9)? != Access::Done(()) {
        return Err("the byte may be written".into());
    }
    for new in breaks {
        brk(alloc, &mut state, 0x10054, new)?;
    }
    match state.pages.load(address, Width::One) {
        Access::Done(byte) => Ok(Some(byte)),
        _ => Ok(None),
    }
}

// The first break, the address, the other breaks, and the byte.
fn bytes_behind() -> [(u32, u32, [u32; 2], Option<u32>); 8] {
    [
        // down and up again: zeros
        (0x13000, 0x11000, [0x11000, 0x13000], Some(0)),
        (0x13000, 0x12fff, [0x12000, 0x12001], Some(0)),
        // down for good
        (0x13000, 0x12fff, [0x12001, 0x12000], None),
        (0x13000, 0x11000, [0x12000, 0x11000], None),
        // on a page that stays, also past the break
        (0x13000, 0x12fff, [0x12001, 0x13000], Some(9)),
        (0x11001, 0x11fff, [0x12000, 0x11001], Some(9)),
        (0x13000, 0x11fff, [0x11001, 0x14000], Some(9)),
        // after moves that are refused
        (0x13000, 0x12000, [0x10fff, 0xffff_f000], Some(9)),
    ]
}

#[test]
fn bytes_of_the_heap(rt: HostRuntime) -> Result<(), Fail> {
    for (first, address, breaks, byte) in bytes_behind() {
        let found = byte_behind(rt.alloc(), first, address, breaks)?;
        assert_eq!(rt; found, byte, "at {address:x}, from {first:x}");
    }
    Ok(())
}

// What a move of a break comes to, and the flags of a page after it. The heap starts and ends there before, and pages
// of these numbers are mapped, with flags 4, besides one of the code.
fn moved_from(
    alloc: Global,
    heap: [u32; 2],
    mapped: &[u32],
    new: u32,
    page: u32,
) -> Result<(Seen, Option<u8>), Fail> {
    let [start, end] = heap;
    let mut pages = Pages::new(alloc)?;
    pages.map_above(8, 1, &[0x73])?;
    for number in mapped {
        map(&mut pages, *number, 4)?;
    }
    let hart = Hart {
        pc: 0,
        x: [0; 31],
        held: None,
    };
    let mut state = State {
        pages,
        heap: start,
        brk: end,
        threads: Threads::one(alloc, Thread::Runs { hart, clear: 0 })?,
        input: 0,
        steps: 0,
        end: End::None,
    };
    let answer = brk(alloc, &mut state, 0x8000, new)?;
    let seen = (answer, state.brk, state.pages.pages());
    Ok((seen, state.pages.flags(page)))
}

// The heap's start and its break, the pages, the new break; the answer, how many pages are mapped, and a page's flags.
fn moves_of_other_heaps() -> [([u32; 2], &'static [u32], u32, u32, u32, (u32, Option<u8>)); 15] {
    [
        // up to a page of a segment, over it, and past it
        ([0x11000; 2], &[0x13], 0x13000, 0x13000, 4, (0x12, Some(6))),
        ([0x11000; 2], &[0x13], 0x13001, 0x11000, 2, (0x12, None)),
        ([0x11000; 2], &[0x13], 0x15000, 0x11000, 2, (0x14, None)),
        // up to a page of the stack, and over it
        (
            [0x7ffe_f000; 2],
            &[0x7fff0],
            0x7fff_0000,
            0x7fff_0000,
            3,
            (0x7ffef, Some(6)),
        ),
        (
            [0x7ffe_f000; 2],
            &[0x7fff0],
            0x7fff_0001,
            0x7ffe_f000,
            2,
            (0x7ffef, None),
        ),
        // a page that is missing below the break: by a move to where it is, up and down
        (
            [0x11000, 0x14000],
            &[0x11, 0x13],
            0x14000,
            0x14000,
            4,
            (0x12, Some(6)),
        ),
        (
            [0x11000, 0x14000],
            &[0x11, 0x13],
            0x14001,
            0x14001,
            5,
            (0x12, Some(6)),
        ),
        (
            [0x11000, 0x14000],
            &[0x11, 0x13],
            0x12800,
            0x12800,
            3,
            (0x12, Some(6)),
        ),
        (
            [0x11000, 0x14000],
            &[0x11, 0x13],
            0x11800,
            0x11800,
            2,
            (0x12, None),
        ),
        // pages of the heap keep their flags, also the one in which the break lies
        (
            [0x11000, 0x14000],
            &[0x11, 0x13],
            0x14000,
            0x14000,
            4,
            (0x11, Some(4)),
        ),
        (
            [0x11000, 0x12800],
            &[0x11, 0x12],
            0x13000,
            0x13000,
            3,
            (0x12, Some(4)),
        ),
        // a page past the break stays, and so does one below the heap
        (
            [0x11000, 0x12000],
            &[0x11, 0x12],
            0x11000,
            0x11000,
            2,
            (0x12, Some(4)),
        ),
        (
            [0x11000, 0x12000],
            &[0x10, 0x11],
            0x11000,
            0x11000,
            2,
            (0x10, Some(4)),
        ),
        // up to the end of all heaps, and past it
        (
            [0xffff_e000; 2],
            &[],
            0xffff_f000,
            0xffff_f000,
            2,
            (0xffffe, Some(6)),
        ),
        (
            [0xffff_e000; 2],
            &[],
            0xffff_f001,
            0xffff_e000,
            1,
            (0xffffe, None),
        ),
    ]
}

#[test]
fn other_heaps(rt: HostRuntime) -> Result<(), Fail> {
    for (heap, mapped, new, answer, pages, (page, flags)) in moves_of_other_heaps() {
        let wanted = (answer, answer, pages);
        let found = moved_from(rt.alloc(), heap, mapped, new, page)?;
        assert_eq!(rt; found, (wanted, flags), "to {new:x}");
    }
    Ok(())
}
