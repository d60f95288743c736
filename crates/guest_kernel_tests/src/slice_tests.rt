// Runs of slices from a guest's start, each worked out by hand.
ghost use Rattle.std.specs.Prelude.{◌≡◌, ◌<◌, ◌^◌, length};
ghost use Rattle.dp_base.specs.Journal.{steps_of};
ghost use Rattle.guest_kernel.specs.Answers.{bytes_read};

use crate::guests::started;
use dp_base::{Answer, OutOfMemory, Slice, Tid};
use guest_kernel::{End, Hart, SliceRun, State, Thread, Threads, Turn};
use std::alloc::Global;
use std::test::Fail;
use test_files::{EXITS_WORDS, WRITES_WORDS};

const ADDI_TO_X0: u32 = 0x0000_0013;

// What a run comes to, the guest's end, its step count, and thread 1's hart where it runs.
pub(crate) type Ran = (SliceRun, End, u64, Option<Hart>);

// What slices of a guest come to from its start, the guest after them, and what it wrote.
pub(crate) fn ran_from(
    alloc: Global,
    start: State,
    slices: &[Slice],
    answers: &[Answer],
) -> Result<(Ran, State, Vec<u8>), OutOfMemory>
    requires no_steps { start.steps ≡ 0 }
    requires no_input { start.input ≡ 0 }
    requires few_steps { steps_of slices.now < 2 ^ 62 }
    requires few_bytes { length (bytes_read answers.now) < 2 ^ 62 }
{
    let mut state = start;
    let mut out = Vec::new(alloc);
    let run = state.run_slices(alloc, slices, answers, &mut out)?;
    let ran = (run, state.end, state.steps, hart_of(&state).copied());
    Ok((ran, state, out))
}

pub(crate) fn ran(
    alloc: Global,
    words: &[u32],
    slices: &[Slice],
    answers: &[Answer],
) -> Result<Ran, Fail>
    requires few_steps { steps_of slices.now < 2 ^ 62 }
    requires few_bytes { length (bytes_read answers.now) < 2 ^ 62 }
{
    let (ran, _, _) = ran_from(alloc, started(alloc, words)?, slices, answers)?;
    Ok(ran)
}

// What one slice of thread 1 comes to.
fn after(alloc: Global, words: &[u32], steps: u32) -> Result<Ran, Fail> {
    ran(alloc, words, &[slice(1, steps)], &[])
}

fn stops(slice: usize, step: u32) -> SliceRun {
    SliceRun::Stops { slice, step }
}

pub(crate) fn trap(cause: u8, value: u32) -> End {
    End::Trap {
        tid: Tid(1),
        cause,
        value,
    }
}

pub(crate) fn hart_of(state: &State) -> Option<&Hart> {
    match state.threads.get(Tid(1)) {
        Some(Thread::Runs { hart, .. }) => Some(hart),
        _ => None,
    }
}

fn pc_of(hart: Option<Hart>) -> Option<u32> {
    Some(hart?.pc)
}

// What one slice comes to where it has so many steps before its last one, and where thread 1 follows it; what one of
// a step more comes to; and whether the guest has ended after one of a step less.
type Around = ((SliceRun, End, u64, Option<u32>), SliceRun, bool);

fn around(alloc: Global, words: &[u32], before: u16) -> Result<Around, Fail> {
    let steps = u32::from(before) + 1;
    let (run, end, count, hart) = after(alloc, words, steps)?;
    let (longer, ..) = after(alloc, words, steps + 1)?;
    let slices = [slice(1, steps - 1)];
    let (_, earlier, _) = ran_from(alloc, started(alloc, words)?, &slices, &[])?;
    Ok(((run, end, count, pc_of(hart)), longer, earlier.ended()))
}

// Around the last step of a guest.
fn ending(before: u16, end: End, pc: u32) -> Around {
    let steps = u32::from(before) + 1;
    let whole = (SliceRun::Whole, end, u64::from(steps), Some(pc));
    (whole, stops(0, steps), false)
}

// The words, how many steps there are before the last one, the end, and where thread 1 follows it.
fn ending_guests() -> [(&'static [u32], u16, End, u32); 5] {
    [
        (&EXITS_WORDS, 2, End::Exit(7), 0x10060),
        // addi x10, x0, -1
        (
            &[0x0010_0893, 0xfff0_0513, 0x73],
            2,
            End::Exit(0xffff_ffff),
            0x10060,
        ),
        // EBREAK
        (
            &[0x0010_0073, 0x0010_0893, 0x73],
            0,
            trap(3, 0x10054),
            0x10054,
        ),
        // no word at all: the zeros after the headers
        (&[], 0, trap(2, 0), 0x10054),
        // addi x17, x0, 11, which is no call; the word after it is no instruction
        (&[0x00b0_0893, 0x73], 2, trap(2, 0), 0x1005c),
    ]
}

#[test]
fn guests_end(rt: HostRuntime) -> Result<(), Fail> {
    for (words, before, end, pc) in ending_guests() {
        let found = around(rt.alloc(), words, before)?;
        assert_eq!(rt; found, ending(before, end, pc));
    }
    Ok(())
}

#[test]
fn a_long_guest_ends(rt: HostRuntime) -> Result<(), Fail> {
    let alloc = rt.alloc();
    let words = vec![in alloc; ADDI_TO_X0; 979]?;
    let found = around(alloc, &words, 979)?;
    assert_eq!(rt; found, ending(979, trap(2, 0), 0x10fa0));
    Ok(())
}

// A register of thread 1 after steps at two words, its pc, and the end.
fn register_after(
    alloc: Global,
    first: u32,
    second: u32,
    number: u8,
) -> Result<(u32, u32, End), Fail> {
    let (_, end, _, hart) = after(alloc, &[first, second], 2)?;
    let hart = hart.ok_or("thread 1 runs")?;
    if number >= 32 {
        return Err("there is such a register".into());
    }
    Ok((hart.register(number), hart.pc, end))
}

fn register_cases() -> [(u32, u32, u8, u32); 11] {
    [
        // addi x5, x6, immediate after addi x6, x0, 1
        (0x0010_0313, 0x7ff3_0293, 5, 0x0000_0800),
        (0x0010_0313, 0x8003_0293, 5, 0xffff_f801),
        (0x0010_0313, 0xfff3_0293, 5, 0x0000_0000),
        // addi x0, x0, 5 after addi x1, x0, 3
        (0x0030_0093, 0x0050_0013, 0, 0),
        (0x0030_0093, 0x0050_0013, 1, 3),
        // lui x10, 0x10; lui x1, 0x80000 after addi x0, x0, 0
        (0x0001_0537, ADDI_TO_X0, 10, 0x0001_0000),
        (ADDI_TO_X0, 0x8000_00b7, 1, 0x8000_0000),
        // lui x0, 0x10 after addi x1, x0, 3
        (0x0030_0093, 0x0001_0037, 1, 3),
        // addi x17, x0, 11; ecall: no such call, and its number stays
        (0x00b0_0893, 0x0000_0073, 10, 0xffff_ffda),
        (0x00b0_0893, 0x0000_0073, 17, 11),
        // addi x17, x0, -1; ecall
        (0xfff0_0893, 0x0000_0073, 10, 0xffff_ffda),
    ]
}

#[test]
fn registers(rt: HostRuntime) -> Result<(), Fail> {
    for (first, second, number, value) in register_cases() {
        let found = register_after(rt.alloc(), first, second, number)?;
        assert_eq!(rt; found, (value, 0x1005c, End::None), "x{number}");
    }
    Ok(())
}

// A slice: its thread and its steps.
pub(crate) type Cut = (u16, u32);

pub(crate) fn slice(tid: u16, steps: u32) -> Slice {
    Slice {
        tid: Tid(tid),
        steps,
    }
}

// What slices of the guest that exits with 7 come to, where a clock's answer is left or none, and its step count after
// them.
fn ran_seven(alloc: Global, slices: &[Slice], clock: Option<u64>) -> Result<(SliceRun, u64), Fail>
    requires few_steps { steps_of slices.now < 2 ^ 62 }
{
    let (run, _, steps, _) = match clock {
        Some(reading) => ran(alloc, &EXITS_WORDS, slices, &[Answer::Clock(reading)])?,
        None => ran(alloc, &EXITS_WORDS, slices, &[])?,
    };
    Ok((run, steps))
}

// The same of two slices, of one or of none.
fn ran_seven_so(
    alloc: Global,
    first: Option<Cut>,
    second: Option<Cut>,
    clock: Option<u64>,
) -> Result<(SliceRun, u64), Fail> {
    match first {
        Some(first) => match second {
            Some(second) => {
                let slices = [slice(first.0, first.1), slice(second.0, second.1)];
                ran_seven(alloc, &slices, clock)
            }
            None => ran_seven(alloc, &[slice(first.0, first.1)], clock),
        },
        None => ran_seven(alloc, &[], clock),
    }
}

// The slices, and the clock's answer that is left; what they come to, and the step count.
fn runs_of_seven() -> [(Option<Cut>, Option<Cut>, Option<u64>, SliceRun, u64); 5] {
    [
        (Some((1, 2)), Some((9, 1)), None, stops(1, 0), 2),
        (Some((1, 1)), Some((1, 4)), None, stops(1, 2), 3),
        (Some((1, 2)), None, Some(5), stops(1, 0), 2),
        (None, None, Some(5), stops(0, 0), 0),
        (Some((9, 0)), None, None, SliceRun::Whole, 0),
    ]
}

#[test]
fn runs_that_stop(rt: HostRuntime) -> Result<(), Fail> {
    for (first, second, clock, run, steps) in runs_of_seven() {
        let found = ran_seven_so(rt.alloc(), first, second, clock)?;
        assert_eq!(rt; found, (run, steps));
    }
    Ok(())
}

// Turns of these threads of the guest that exits with 7, a clock's answer beside each; the end, the step count, and how
// many bytes are written.
fn turns_of(alloc: Global, tids: [u16; 6]) -> Result<([Turn; 6], End, u64, usize), Fail> {
    let mut state = started(alloc, &EXITS_WORDS)?;
    let mut out = Vec::new(alloc);
    let mut turns = [Turn::NotRunnable; 6];
    for (turn, tid) in turns.iter_mut().zip(tids) {
        if state.steps > 9 {
            return Err("these are few steps".into());
        }
        *turn = state.turn(alloc, Tid(tid), Some(&Answer::Clock(5)), &mut out)?;
    }
    Ok((turns, state.end, state.steps, out.len()))
}

#[test]
fn turns(rt: HostRuntime) -> Result<(), Fail> {
    let went = Turn::Stepped {
        used: false,
        yielded: false,
    };
    let none = Turn::NotRunnable;
    assert_eq!(rt;
        turns_of(rt.alloc(), [0, 2, 1, 1, 1, 1])?,
        ([none, none, went, went, went, none], End::Exit(7), 3, 0)
    );
    Ok(())
}

// What thread 1 of the guest that exits with 7 holds after a slice, where it held 4 before.
fn held_after(alloc: Global, steps: u32) -> Result<Option<u32>, Fail> {
    let mut state = started(alloc, &EXITS_WORDS)?;
    let mut hart = *hart_of(&state).ok_or("thread 1 runs")?;
    hart.held = Some(4);
    state.threads = Threads::one(alloc, Thread::Runs { hart, clear: 0 })?;
    let ((_, _, _, hart), _, _) = ran_from(alloc, state, &[slice(1, steps)], &[])?;
    Ok(hart.ok_or("thread 1 runs")?.held)
}

// The end of a slice drops its thread's reservation; a slice that stops has no end.
#[test]
fn reservations(rt: HostRuntime) -> Result<(), Fail> {
    for (steps, held) in [(1, None), (3, None), (4, Some(4))] {
        assert_eq!(rt; held_after(rt.alloc(), steps)?, held, "{steps} steps");
    }
    Ok(())
}

#[test]
fn writes_hi(rt: HostRuntime) -> Result<(), Fail> {
    let alloc = rt.alloc();
    let state = started(alloc, &WRITES_WORDS)?;
    let ((run, end, steps, _), _, out) = ran_from(alloc, state, &[slice(1, 9)], &[])?;
    assert_eq!(rt; (run, end, steps), (SliceRun::Whole, End::Exit(0), 9));
    assert_eq!(rt; out.as_slice(), b"hi\n".as_slice());
    Ok(())
}

// The word at the first thread's stack pointer, by its lowest byte.
fn on_the_stack(state: &State) -> Option<u8> {
    state.pages.page_bytes(0x7ffff)?.get(0xfe0).copied()
}

// What two slices of the guest below come to and its step count; what SC answers, what is held, and the byte on the
// stack.
type Reserved = (SliceRun, u64, (u32, Option<u32>), Option<u8>);

// addi x5, x2, 0; addi x7, x0, 5; lr.w x6, (x5); sc.w x6, x7, (x5)
fn reserved(alloc: Global, first: u32, second: u32) -> Result<Reserved, Fail> {
    let words = [0x0001_0293, 0x0050_0393, 0x1002_a32f, 0x1872_a32f];
    let slices = [slice(1, first), slice(1, second)];
    let ((run, _, steps, hart), state, _) = ran_from(alloc, started(alloc, &words)?, &slices, &[])?;
    let hart = hart.ok_or("thread 1 runs")?;
    let answer = (hart.register(6), hart.held);
    Ok((run, steps, answer, on_the_stack(&state)))
}

// If a slice ends between LR and SC, nothing is stored.
#[test]
fn a_reservation_ends_with_its_slice(rt: HostRuntime) -> Result<(), Fail> {
    for (first, second, failed, stored) in [(3, 1, 1, 0), (2, 2, 0, 5), (4, 0, 0, 5)] {
        assert_eq!(rt;
            reserved(rt.alloc(), first, second)?,
            (SliceRun::Whole, 4, (failed, None), Some(stored))
        );
    }
    Ok(())
}

// addi x5, x0, 3; addi x6, x6, 1; bne x6, x5, -4; and exit_all(7): ten steps, however they are cut into slices.
const LOOP: [u32; 6] = [
    0x0030_0293,
    0x0013_0313,
    0xfe53_1ee3,
    0x0070_0513,
    0x0010_0893,
    0x0000_0073,
];

#[test]
fn a_loop_cut_into_slices(rt: HostRuntime) -> Result<(), Fail> {
    for first in 0..11 {
        let slices = [slice(1, first), slice(1, 10 - first)];
        let (run, end, steps, hart) = ran(rt.alloc(), &LOOP, &slices, &[])?;
        assert_eq!(rt;
            (run, steps, end, pc_of(hart)),
            (SliceRun::Whole, 10, End::Exit(7), Some(0x1006c))
        );
    }
    Ok(())
}
