// Words and values are from the RISC-V Unprivileged ISA 20191213; the causes of traps are this machine's.
use crate::small_memory::{BASE, SmallMemory};
use dp_base::{Access, OutOfMemory};
use guest_state::Hart;
use rv_step::{Stepped, exec};
use std::test::Fail;

// Where the word lies that x5 points to, and after it another.
const DATA: u32 = 0x0001_0020;

const BEHIND: u32 = 0x4444_3333;

// What the tests look at of a hart and its memory.
#[derive(Clone, Copy, Debug, PartialEq, Eq)]
struct View {
    pc: u32,
    x1: u32,
    x5: u32,
    x6: u32,
    x7: u32,
    held: Option<u32>,
    data: u32,
}

const START: View = View {
    pc: BASE,
    x1: 0x1111_1111,
    x5: DATA,
    x6: 0x6666_6666,
    x7: 0x7fff_ffff,
    held: None,
    data: 0x8000_0000,
};

// One instruction further.
const NEXT: View = View {
    pc: BASE + 4,
    ..START
};

// pc, x5, and what LR.W has reserved.
type Place = (u32, u32, Option<u32>);

const AT_START: Place = (BASE, DATA, None);

const HOLDING: Place = (BASE, DATA, Some(DATA));

// Whether fetches, reads and writes may be.
type Ways = (Access<()>, Access<()>, Access<()>);

const YES: Access<()> = Access::Done(());

const NO: Access<()> = Access::Denied;

const BUSY: Access<()> = Access::Busy;

const OPEN: Ways = (YES, YES, YES);

const NO_FETCH: Ways = (NO, YES, YES);

const NO_READ: Ways = (YES, NO, YES);

const NO_WRITE: Ways = (YES, YES, NO);

const NO_DATA: Ways = (YES, NO, NO);

fn hart_of(view: View) -> Hart {
    let mut x = [0; 31];
    x[0] = view.x1;
    x[4] = view.x5;
    x[5] = view.x6;
    x[6] = view.x7;
    Hart {
        pc: view.pc,
        x,
        held: view.held,
    }
}

fn memory_of(view: View, word: u32) -> SmallMemory {
    let mut memory = SmallMemory::new();
    memory.put(view.pc, 4, word);
    memory.put(DATA, 4, view.data);
    memory.put(DATA + 4, 4, BEHIND);
    memory
}

fn view_of(hart: &Hart, memory: &SmallMemory) -> View {
    View {
        pc: hart.pc,
        x1: hart.x[0],
        x5: hart.x[4],
        x6: hart.x[5],
        x7: hart.x[6],
        held: hart.held,
        data: memory.word(DATA),
    }
}

// A step of a hart over a memory, and both after it.
fn take_step(hart: Hart, memory: SmallMemory) -> Result<(Stepped, Hart, SmallMemory), OutOfMemory> {
    let (mut hart, mut memory) = (hart, memory);
    let stepped = exec(&mut hart, &mut memory)?;
    Ok((stepped, hart, memory))
}

// A step at a word.
fn step(word: u32, view: View) -> Result<(Stepped, View), OutOfMemory> {
    let (stepped, hart, memory) = take_step(hart_of(view), memory_of(view, word))?;
    Ok((stepped, view_of(&hart, &memory)))
}

// Words, and what is seen before and after a step at each.
fn step_cases() -> [(u32, View, View); 8] {
    [
        // LW of four bytes that lie across two words
        (
            0x0002_a303,
            View {
                x5: DATA + 2,
                ..START
            },
            View {
                x5: DATA + 2,
                x6: 0x3333_8000,
                ..NEXT
            },
        ),
        // AMOMAXU.W and AMOMAX.W
        (
            0xe072_a32f,
            START,
            View {
                x6: 0x8000_0000,
                ..NEXT
            },
        ),
        (
            0xa072_a32f,
            START,
            View {
                x6: 0x8000_0000,
                data: 0x7fff_ffff,
                ..NEXT
            },
        ),
        // SRAI x5, x1, 2
        (
            0x4020_d293,
            View {
                x1: 0x8000_0000,
                ..START
            },
            View {
                x1: 0x8000_0000,
                x5: 0xe000_0000,
                ..NEXT
            },
        ),
        // JALR x5, 0(x5)
        (
            0x0002_82e7,
            START,
            View {
                pc: DATA,
                x5: BASE + 4,
                ..START
            },
        ),
        // JALR x1, 1(x5), an odd sum, and JALR x1, -4(x5)
        (
            0x0012_80e7,
            START,
            View {
                pc: DATA,
                x1: BASE + 4,
                ..START
            },
        ),
        (
            0xffc2_80e7,
            START,
            View {
                pc: DATA - 4,
                x1: BASE + 4,
                ..START
            },
        ),
        // BNE x0, x0, 2: where a branch isn't taken, its target isn't looked at
        (0x0000_1163, START, NEXT),
    ]
}

#[test]
fn steps(rt: HostRuntime) -> Result<(), Fail> {
    for (word, before, after) in step_cases() {
        let found = step(word, before)?;
        assert_eq!(rt; found, (Stepped::Went, after), "{word:08x}");
    }
    Ok(())
}

// LR.W, and then SC.W with what is held between them, in a memory where SCs store or never do: what SC answers in x6,
// what is held after LR and after SC, and the word.
fn reserve_and_store(
    kept: bool,
    between: Option<Option<u32>>,
) -> Result<(u32, Option<u32>, Option<u32>, u32), OutOfMemory> {
    let mut memory = memory_of(START, 0x1002_a32f);
    memory.put(BASE + 4, 4, 0x1872_a32f);
    memory.keeps_reservations = kept;
    let (_, mut hart, memory) = take_step(hart_of(START), memory)?;
    let reserved = hart.held;
    if let Some(held) = between {
        hart.held = held;
    }
    let (_, hart, memory) = take_step(hart, memory)?;
    Ok((hart.x[5], reserved, hart.held, memory.word(DATA)))
}

#[test]
fn reservations(rt: HostRuntime) -> Result<(), Fail> {
    let cases = [
        (true, None, 0, 0x7fff_ffff),
        (true, Some(None), 1, 0x8000_0000),
        (true, Some(Some(DATA + 4)), 1, 0x8000_0000),
        (false, None, 1, 0x8000_0000),
    ];
    for (kept, between, answer, word) in cases {
        let found = reserve_and_store(kept, between)?;
        assert_eq!(rt;
            found,
            (answer, Some(DATA), None, word),
            "{between:?}, {kept}"
        );
    }
    Ok(())
}

// A step at a word, and whether it left hart and memory as they were, but for the count of busy answers.
fn stop(word: u32, place: Place, ways: Ways) -> Result<(Stepped, bool), OutOfMemory> {
    let (pc, x5, held) = place;
    let view = View {
        pc,
        x5,
        held,
        ..START
    };
    let before = SmallMemory {
        fetches: ways.0,
        reads: ways.1,
        writes: ways.2,
        ..memory_of(view, word)
    };
    let (stepped, hart, memory) = take_step(hart_of(view), before)?;
    let before = SmallMemory {
        busy: memory.busy,
        ..before
    };
    Ok((stepped, hart == hart_of(view) && memory == before))
}

// Words, from where a step is taken and in which memory; the trap's cause and its value.
fn trap_cases() -> [(u32, Place, Ways, u8, u32); 30] {
    [
        // pc
        (0x0000_0013, (BASE + 1, DATA, None), OPEN, 0, BASE + 1),
        (0x0000_0013, (BASE + 2, DATA, None), NO_FETCH, 0, BASE + 2),
        (0x0000_0013, AT_START, NO_FETCH, 1, BASE),
        // illegal words; FENCE.I
        (0x0000_0000, AT_START, OPEN, 2, 0),
        (0xffff_ffff, AT_START, OPEN, 2, 0xffff_ffff),
        (0x0000_100f, AT_START, OPEN, 2, 0x0000_100f),
        // EBREAK
        (0x0010_0073, (BASE + 8, DATA, None), OPEN, 3, BASE + 8),
        // JALR x1, 2(x5); JAL x1, 2; BEQ x0, x0, 2
        (0x0022_80e7, (BASE, BASE, None), OPEN, 0, 0x0001_0002),
        (0x0020_00ef, AT_START, OPEN, 0, 0x0001_0002),
        (0x0000_0163, AT_START, OPEN, 0, 0x0001_0002),
        // LB, LH, LW, LBU, LHU, at 4(x5)
        (0x0042_8303, AT_START, NO_READ, 5, DATA + 4),
        (0x0042_9303, AT_START, NO_READ, 5, DATA + 4),
        (0x0042_a303, AT_START, NO_READ, 5, DATA + 4),
        (0x0042_c303, AT_START, NO_READ, 5, DATA + 4),
        (0x0042_d303, AT_START, NO_READ, 5, DATA + 4),
        (0x0042_a303, (BASE, DATA + 2, None), NO_READ, 5, DATA + 6),
        // SB, SH, SW, at -4(x5)
        (0xfe72_8e23, AT_START, NO_WRITE, 7, DATA - 4),
        (0xfe72_9e23, AT_START, NO_WRITE, 7, DATA - 4),
        (0xfe72_ae23, AT_START, NO_WRITE, 7, DATA - 4),
        // LR.W
        (0x1002_a32f, (BASE, DATA + 2, None), OPEN, 4, DATA + 2),
        (0x1002_a32f, (BASE, DATA + 1, None), NO_DATA, 4, DATA + 1),
        (0x1002_a32f, HOLDING, NO_READ, 5, DATA),
        // SC.W, also without a reservation
        (0x1872_a32f, (BASE, DATA + 2, None), OPEN, 6, DATA + 2),
        (0x1872_a32f, (BASE, DATA + 3, None), NO_DATA, 6, DATA + 3),
        (0x1872_a32f, HOLDING, NO_WRITE, 7, DATA),
        (0x1872_a32f, AT_START, NO_WRITE, 7, DATA),
        // AMOADD.W
        (0x0072_a32f, (BASE, DATA + 2, None), OPEN, 6, DATA + 2),
        (0x0072_a32f, (BASE, DATA + 1, None), NO_DATA, 6, DATA + 1),
        (0x0072_a32f, HOLDING, NO_READ, 7, DATA),
        (0x0072_a32f, HOLDING, NO_WRITE, 7, DATA),
    ]
}

// Words, from where a step is taken and in which memory; what it comes to, which is no trap.
fn other_stop_cases() -> [(u32, Place, Ways, Stepped); 8] {
    [
        (0x0000_0013, AT_START, (BUSY, YES, YES), Stepped::Busy),
        // ECALL
        (0x0000_0073, AT_START, OPEN, Stepped::Ecall),
        // LW, SW
        (0x0042_a303, AT_START, (YES, BUSY, YES), Stepped::Busy),
        (0xfe72_ae23, AT_START, (YES, YES, BUSY), Stepped::Busy),
        // LR.W, SC.W with a reservation and without one, AMOADD.W
        (0x1002_a32f, HOLDING, (YES, BUSY, YES), Stepped::Busy),
        (0x1872_a32f, HOLDING, (YES, YES, BUSY), Stepped::Busy),
        (0x1872_a32f, AT_START, (YES, YES, BUSY), Stepped::Busy),
        (0x0072_a32f, HOLDING, (YES, YES, BUSY), Stepped::Busy),
    ]
}

#[test]
fn stops(rt: HostRuntime) -> Result<(), Fail> {
    for (word, place, ways, cause, value) in trap_cases() {
        let found = stop(word, place, ways)?;
        let trap = Stepped::Trap { cause, value };
        assert_eq!(rt; found, (trap, true), "{word:08x}, {place:?}, {ways:?}");
    }
    for (word, place, ways, stepped) in other_stop_cases() {
        let found = stop(word, place, ways)?;
        assert_eq!(rt; found, (stepped, true), "{word:08x}, {place:?}, {ways:?}");
    }
    Ok(())
}
