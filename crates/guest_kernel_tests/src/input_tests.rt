// The calls that take an answer, worked out by hand. A guest is at an ecall on page 10 (hexadecimal), which may only be
// executed. Pages 11, 13 and 14 may be read and written, page 12 only be read.
use crate::mapping::map;
use dp_base::{Answer, Bytes, OutOfMemory, Tid};
use guest_kernel::{End, Hart, Pages, State, Thread, Threads, Turn};
use std::alloc::Global;
use std::test::Fail;

// An answer, without its memory.
#[derive(Clone, Copy)]
pub(crate) enum Given {
    Read(&'static [u8]),
    // So many bytes `p`.
    Filled(usize),
    Clock(u64),
}

// What a turn at a call came to, a0, a1 and the pc after it, how many bytes were read, and the step count.
pub(crate) type Seen = (Turn, u32, u32, u32, u64, u64);

const USED: Turn = Turn::Stepped {
    used: true,
    yielded: false,
};

const ALONE: Turn = Turn::Stepped {
    used: false,
    yielded: false,
};

// A guest of one thread at a call with this number and these arguments, which has read five bytes.
pub(crate) fn at_call(
    alloc: Global,
    number: u32,
    arguments: [u32; 3],
) -> Result<State, OutOfMemory> {
    let mut pages = Pages::new(alloc)?;
    pages.map_above(0x10, 1, &[0x73])?;
    map(&mut pages, 0x11, 6)?;
    map(&mut pages, 0x12, 4)?;
    map(&mut pages, 0x13, 6)?;
    map(&mut pages, 0x14, 6)?;
    let mut hart = Hart {
        pc: 0x10000,
        x: [7; 31],
        held: None,
    };
    let [a0, a1, a2] = arguments;
    hart.set_register(10, a0);
    hart.set_register(11, a1);
    hart.set_register(12, a2);
    hart.set_register(17, number);
    Ok(State {
        pages,
        heap: 0x20000,
        brk: 0x20000,
        threads: Threads::one(alloc, Thread::Runs { hart, clear: 8 })?,
        input: 5,
        steps: 0,
        end: End::None,
    })
}

pub(crate) fn answer_of(alloc: Global, given: Given) -> Result<Answer, OutOfMemory> {
    Ok(match given {
        Given::Read(bytes) => Answer::Read(Bytes::from_vec(bytes.to_vec(alloc)?)),
        Given::Filled(count) => {
            let mut bytes = Vec::new(alloc);
            bytes.resize(count, b'p')?;
            Answer::Read(Bytes::from_vec(bytes))
        }
        Given::Clock(reading) => Answer::Clock(reading),
    })
}

// One turn of the thread with an answer, or with none.
pub(crate) fn turn_at(
    alloc: Global,
    state: &mut State,
    given: Option<Given>,
) -> Result<Seen, OutOfMemory> {
    let answer = match given {
        Some(given) => Some(answer_of(alloc, given)?),
        None => None,
    };
    let mut out = Vec::new(alloc);
    let turn = if state.steps < 1000 && state.input < 1000 {
        state.turn(alloc, Tid(1), answer.as_ref(), &mut out)?
    } else {
        Turn::NotRunnable
    };
    let (a0, a1, pc) = match state.threads.get(Tid(1)) {
        Some(Thread::Runs { hart, .. }) => (hart.register(10), hart.register(11), hart.pc),
        _ => (0, 0, 0),
    };
    Ok((turn, a0, a1, pc, state.input, state.steps))
}

// A turn of a guest at a call.
fn seen_at(
    alloc: Global,
    number: u32,
    arguments: [u32; 3],
    given: Option<Given>,
) -> Result<Seen, OutOfMemory> {
    let mut state = at_call(alloc, number, arguments)?;
    turn_at(alloc, &mut state, given)
}

// Fd, addr and len; the answer that is given; the turn, a0 and the input's place after it.
fn read_cases() -> [([u32; 3], Option<Given>, Turn, u32, u64); 20] {
    let page = Given::Filled(4096);
    [
        // Other descriptors, no bytes, and bytes that may not be written, whatever is given.
        ([1, 0x11000, 4], None, ALONE, 0xffff_fff7, 5),
        (
            [u32::MAX, 0x11000, 4],
            Some(Given::Read(b"ab")),
            ALONE,
            0xffff_fff7,
            5,
        ),
        ([1, 0x50000, 0], None, ALONE, 0xffff_fff7, 5),
        ([0, 0x50000, 0], Some(Given::Clock(1)), ALONE, 0, 5),
        ([0, 0x50000, 1], None, ALONE, 0xffff_fff2, 5),
        ([0, 0x12000, 1], None, ALONE, 0xffff_fff2, 5),
        (
            [0, 0x11fff, 2],
            Some(Given::Read(b"a")),
            ALONE,
            0xffff_fff2,
            5,
        ),
        ([0, 0xffff_ffff, 2], None, ALONE, 0xffff_fff2, 5),
        // No answer, and wrong ones.
        ([0, 0x11000, 1], None, Turn::NeedsAnswer, 0, 5),
        (
            [0, 0x11000, 1],
            Some(Given::Clock(1)),
            Turn::WrongAnswer,
            0,
            5,
        ),
        (
            [0, 0x11000, 1],
            Some(Given::Read(b"ab")),
            Turn::WrongAnswer,
            0,
            5,
        ),
        // As many as are asked for, fewer, and none at the end of the input.
        ([0, 0x11fff, 1], Some(Given::Read(b"a")), USED, 1, 6),
        ([0, 0x11000, 4], Some(Given::Read(b"abcd")), USED, 4, 9),
        ([0, 0x11000, 4], Some(Given::Read(b"ab")), USED, 2, 7),
        ([0, 0x11000, 4], Some(Given::Read(b"")), USED, 0, 5),
        // No more than 4,096 at once.
        ([0, 0x13001, 4096], Some(page), USED, 4096, 4101),
        ([0, 0x13001, 4097], Some(page), USED, 4096, 4101),
        ([0, 0x13000, u32::MAX], Some(page), USED, 4096, 4101),
        (
            [0, 0x13000, 4097],
            Some(Given::Filled(4097)),
            Turn::WrongAnswer,
            0,
            5,
        ),
        ([0, 0x13000, 4095], Some(page), Turn::WrongAnswer, 0, 5),
    ]
}

#[test]
fn reads(rt: HostRuntime) -> Result<(), Fail> {
    let alloc = rt.alloc();
    for (arguments, given, turn, a0, place) in read_cases() {
        let seen = seen_at(alloc, 3, arguments, given)?;
        let [_, addr, _] = arguments;
        let taken = turn == USED || turn == ALONE;
        let (_, unmoved, ..) = seen;
        let a0 = if taken { a0 } else { unmoved };
        let pc = if taken { 0x10004 } else { 0x10000 };
        let expected = (turn, a0, addr, pc, place, u64::from(taken));
        assert_eq!(rt; seen, expected, "at {arguments:?}");
    }
    Ok(())
}

// The answer that is given; the turn, a0, a1 and the pc after it.
fn clock_cases() -> [(Option<Given>, Turn, u32, u32, u32); 7] {
    [
        (None, Turn::NeedsAnswer, 1, 2, 0x10000),
        (Some(Given::Read(b"")), Turn::WrongAnswer, 1, 2, 0x10000),
        (Some(Given::Clock(0)), USED, 0, 0, 0x10004),
        (
            Some(Given::Clock(0xffff_ffff)),
            USED,
            0xffff_ffff,
            0,
            0x10004,
        ),
        (Some(Given::Clock(0x1_0000_0000)), USED, 0, 1, 0x10004),
        (
            Some(Given::Clock(u64::MAX)),
            USED,
            0xffff_ffff,
            0xffff_ffff,
            0x10004,
        ),
        (
            Some(Given::Clock(0x0123_4567_89ab_cdef)),
            USED,
            0x89ab_cdef,
            0x0123_4567,
            0x10004,
        ),
    ]
}

#[test]
fn clocks(rt: HostRuntime) -> Result<(), Fail> {
    let alloc = rt.alloc();
    for (given, turn, a0, a1, pc) in clock_cases() {
        let seen = seen_at(alloc, 8, [1, 2, 3], given)?;
        let steps = u64::from(turn == USED);
        assert_eq!(rt; seen, (turn, a0, a1, pc, 5, steps));
    }
    Ok(())
}

// The turn and a0 after a read of three bytes across two pages, and whether each page has its part and zeros elsewhere.
fn read_across(alloc: Global) -> Result<(Turn, u32, bool, bool), Fail> {
    let mut state = at_call(alloc, 3, [0, 0x13ffe, 9])?;
    let (turn, a0, ..) = turn_at(alloc, &mut state, Some(Given::Read(b"abc")))?;
    let low = state.pages.page_bytes(0x13).ok_or("mapped")?;
    let high = state.pages.page_bytes(0x14).ok_or("mapped")?;
    Ok((
        turn,
        a0,
        low.ends_with(b"\0ab") && low.starts_with(b"\0\0"),
        high.starts_with(b"c\0") && high.ends_with(b"\0\0"),
    ))
}

// The bytes of a read stand where it asked for them, and nothing else has changed.
#[test]
fn where_bytes_go(rt: HostRuntime) -> Result<(), Fail> {
    assert_eq!(rt; read_across(rt.alloc())?, (USED, 3, true, true));
    Ok(())
}
