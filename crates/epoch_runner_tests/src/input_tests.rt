// Epochs of guests that read their input and the clock.
use crate::epoch_guests::Stands::Runs;
use crate::epoch_guests::*;
use dp_base::Answer;
use epoch_runner::{Ran, can_step, input_due};
use guest_kernel::{End, State};
use std::alloc::Global;
use std::test::Fail;
use supply::{MAX_ROOM, Supply};

// lui x11, 11: where a read puts its bytes
const TO_PAGE: u32 = 0x0001_15b7;

// addi x10, x0, 0: standard input
const INPUT: u32 = 0x0000_0513;

// addi x12, x0, 1: one byte
const ONE: u32 = 0x0010_0613;

// jal x0, -8
const BACK: u32 = 0xff9f_f06f;

// at 0: reads a byte, over and over; at 24: a jump to itself
const READS: [u32; 7] = [TO_PAGE, ONE, READ, INPUT, ECALL, BACK, JUMP];

// What a turn took: so many bytes with this one in front, or a reading of the clock.
#[derive(Clone, Copy, Debug, PartialEq, Eq)]
pub(crate) enum Took {
    Nothing,
    Bytes(usize, u8),
    Stamp(u64),
}

use Took::{Bytes, Nothing, Stamp};

// What an epoch has done: its slices, its first answers, how many there are, the place of the input and the step count
// after it, and what thread 1 then has in x10.
#[derive(Clone, Copy, Debug, PartialEq, Eq)]
pub(crate) struct Done {
    slices: [(u16, u32); 6],
    answers: [Took; 3],
    count: usize,
    input: u64,
    steps: u64,
    x10: u32,
}

pub(crate) fn told_answer(answer: &Answer) -> Took {
    match answer {
        Answer::Read(bytes) => Bytes(bytes.len(), bytes.as_slice().first().copied().unwrap_or(0)),
        Answer::Clock(reading) => Stamp(*reading),
    }
}

pub(crate) fn told_answers(answers: &[Answer]) -> [Took; 3] {
    let mut first = [Nothing; 3];
    for (place, answer) in first.iter_mut().zip(answers) {
        *place = told_answer(answer);
    }
    first
}

// What the epoch of a state has done, with a supply, so many steps and so many in a slice, from thread 1 on; or `None`
// if there is nothing to run.
pub(crate) fn run_from(
    alloc: Global,
    start: State,
    supply: &Supply,
    (steps, slice): (u32, u32),
) -> Result<Option<Done>, Fail> {
    match run_within(alloc, start, supply, (steps, slice, 1))? {
        Ran::Idle(_) => Ok(None),
        Ran::Epoch(run) => Ok(Some(Done {
            slices: told(run.epoch.slices.as_slice()),
            answers: told_answers(run.epoch.answers.as_slice()),
            count: run.epoch.answers.as_slice().len(),
            input: run.end.input,
            steps: run.end.steps,
            x10: x10_of(&run.end),
        })),
    }
}

// The same of a guest with these threads that has read so much.
pub(crate) fn read_from(
    alloc: Global,
    code: &[u32],
    threads: &[Stands],
    place: u64,
    supply: &Supply,
    bounds: (u32, u32),
) -> Result<Option<Done>, Fail> {
    let mut start = state_of(alloc, code, threads, End::None)?;
    start.input = place;
    run_from(alloc, start, supply, bounds)
}

// A read of so many bytes, as lui x12 and addi x12, x12 make them.
#[test]
fn reads_that_ask(rt: HostRuntime) -> Result<(), Fail> {
    let alloc = rt.alloc();
    let mut bytes = Vec::new(alloc);
    bytes.resize(5000, b'a')?;
    let supply = supply_of(alloc, &bytes, 1)?;
    // the upper and the lower part of the number; the answer, and the place after it
    let cases = [
        (0, 0, Nothing, 0),
        (0, 1, Bytes(1, b'a'), 1),
        (1, 0, Bytes(4096, b'a'), 4096),
        (1, 1, Bytes(4096, b'a'), 4096),
    ];
    for (upper, lower, answer, place) in cases {
        let code = [
            TO_PAGE,
            (upper << 12) | 0x637,
            (lower << 20) | 0x6_0613,
            READ,
            ECALL,
        ];
        let found = read_from(alloc, &code, &[Runs(0)], 0, &supply, (5, 9))?;
        let expected = Done {
            slices: padded(&[(1, 5)]),
            answers: [answer, Nothing, Nothing],
            count: usize::from(answer != Nothing),
            input: place,
            steps: 5,
            x10: place as u32,
        };
        assert_eq!(rt; found, Some(expected));
    }
    Ok(())
}

#[test]
fn reads_of_a_window(rt: HostRuntime) -> Result<(), Fail> {
    let alloc = rt.alloc();
    let one = [Runs(0)];
    let two = [Runs(0), Runs(0)];
    let other = [Runs(0), Runs(24)];
    let last = [Runs(24), Runs(0)];
    // the threads, and the place where they begin; how many refills of "abc"; the steps of the epoch and of a slice;
    // the slices, the answers, and the place after it
    let cases: [(
        &[Stands],
        u64,
        u32,
        (u32, u32),
        &[(u16, u32)],
        [Took; 3],
        u64,
    ); 7] = [
        // In the middle of the window.
        (
            &one,
            1,
            1,
            (5, 9),
            &[(1, 5)],
            [Bytes(1, b'b'), Nothing, Nothing],
            2,
        ),
        // Two threads read in turn.
        (
            &two,
            0,
            1,
            (14, 5),
            &[(1, 5), (2, 5), (1, 4)],
            [Bytes(1, b'a'), Bytes(1, b'b'), Bytes(1, b'c')],
            3,
        ),
        // The second one sees the end, and then the first.
        (
            &last,
            3,
            2,
            (10, 5),
            &[(1, 5), (2, 5)],
            [Bytes(0, 0), Nothing, Nothing],
            3,
        ),
        (
            &two,
            3,
            2,
            (10, 5),
            &[(1, 5), (2, 5)],
            [Bytes(0, 0), Bytes(0, 0), Nothing],
            3,
        ),
        // One waits after the window while the other runs.
        (
            &other,
            2,
            1,
            (30, 20),
            &[(1, 7), (2, 20), (2, 3)],
            [Bytes(1, b'c'), Nothing, Nothing],
            3,
        ),
        (
            &other,
            3,
            1,
            (7, 20),
            &[(1, 4), (2, 3)],
            [Nothing, Nothing, Nothing],
            3,
        ),
        // Both wait.
        (
            &two,
            2,
            1,
            (30, 20),
            &[(1, 7), (2, 4)],
            [Bytes(1, b'c'), Nothing, Nothing],
            3,
        ),
    ];
    for (threads, place, refills, bounds, slices, answers, behind) in cases {
        let supply = supply_of(alloc, b"abc", refills)?;
        let Some(found) = read_from(alloc, &READS, threads, place, &supply, bounds)? else {
            return Err("it has run".into());
        };
        assert_eq!(rt; (found.slices, found.answers), (padded(slices), answers));
        assert_eq!(rt; found.input, behind);
    }
    Ok(())
}

// A guest whose only thread is at a read: whether it can step, and whether input is due, with a supply; and how many
// steps its next epoch has.
pub(crate) fn at_a_read(alloc: Global, refills: u32) -> Result<(bool, bool, u64), Fail> {
    let start = state_of(alloc, &READS, &[Runs(0)], End::None)?;
    let Ran::Epoch(run) = run_within(alloc, start, &nothing_known(alloc)?, (9, 9, 1))? else {
        return Err("it has run".into());
    };
    let state = run.end;
    let supply = supply_of(alloc, b"a", refills)?;
    let (can, due) = (can_step(&state, &supply), input_due(&state, &supply));
    if state.end != End::None || state.steps != 4 || state.input != 0 {
        return Err("it waits".into());
    }
    match run_within(alloc, state, &supply, (9, 9, 1))? {
        Ran::Idle(state) => Ok((can, due, state.steps)),
        Ran::Epoch(run) => Ok((can, due, run.end.steps)),
    }
}

#[test]
fn a_guest_that_waits_for_input(rt: HostRuntime) -> Result<(), Fail> {
    let alloc = rt.alloc();
    assert_eq!(rt; at_a_read(alloc, 0)?, (false, true, 4));
    // it takes the byte, and waits for the next
    assert_eq!(rt; at_a_read(alloc, 1)?, (true, false, 7));
    Ok(())
}

#[test]
fn a_clock_that_stands(rt: HostRuntime) -> Result<(), Fail> {
    let alloc = rt.alloc();
    // jal x0, -4
    let code = [CLOCK, ECALL, 0xffdf_f06f];
    let supply = supply_of(alloc, b"", 0)?;
    let expected = Done {
        slices: padded(&[(1, 5)]),
        answers: [Stamp(7), Stamp(7), Nothing],
        count: 2,
        input: 0,
        steps: 5,
        x10: 7,
    };
    assert_eq!(rt;
        read_from(alloc, &code, &[Runs(0)], 0, &supply, (5, 9))?,
        Some(expected)
    );
    Ok(())
}

#[test]
fn reads_that_end_an_epoch(rt: HostRuntime) -> Result<(), Fail> {
    let alloc = rt.alloc();
    let mut bytes = Vec::new(alloc);
    bytes.resize(MAX_ROOM as usize, b'a')?;
    let supply = supply_of(alloc, &bytes, 1)?;
    // lui x12, 1, and then addi x12, x12, 0 or -1
    for (adds, steps, count) in [(0x0006_0613, 51, 16), (0xfff6_0613, 54, 17)] {
        let code = [TO_PAGE, 0x0000_1637, adds, READ, INPUT, ECALL, BACK];
        let Some(found) = read_from(alloc, &code, &[Runs(0)], 0, &supply, (1000, 999))? else {
            return Err("it has run".into());
        };
        assert_eq!(rt;
            (found.steps, found.count, found.input),
            (steps, count, 65_536)
        );
    }
    Ok(())
}
