// Guests for the tests of hints, and what their epochs do.
use crate::epoch_guests::*;
use dp_base::limits::MAX_EPOCH_STEPS;
use dp_base::{Log, Tid};
use epoch_runner::{Bounds, EpochRun, Ran, run_epoch};
use guest_kernel::{End, Pages, State, Thread};
use std::alloc::{AllocError, Global};
use std::test::Fail;
use supply::{MAX_ROOM, Supply};
use sync_hints::{Hints, Sc, SyncHint};

// Two plain turns, and the guest ends. At 12 a jump to itself.
pub(crate) const EXITS: [u32; 4] = [
    EXIT_ALL,
    // addi x10, x0, 7
    0x0070_0513,
    ECALL,
    JUMP,
];

// At 0 two plain turns and a yield, over and over. At 16 a jump to itself, at 20 the thread exits, at 24 a trap, at 28
// a wait on page 11 (hexadecimal), at 40 a read of a byte.
pub(crate) const TURNS: [u32; 15] = [
    YIELD,
    // addi x5, x5, 1
    0x0012_8293,
    ECALL,
    // jal x0, -8
    0xff9f_f06f,
    JUMP,
    ECALL,
    // ebreak
    0x0010_0073,
    // lui x10, 11 (hexadecimal)
    0x0001_1537,
    WAIT,
    ECALL,
    // lui x11, 11 (hexadecimal)
    0x0001_15b7,
    // addi x12, x0, 1
    0x0010_0613,
    READ,
    ECALL,
    JUMP,
];

// A plain turn, LR, and SC, whose answer is in x10.
pub(crate) const LOSES: [u32; 4] = [
    // lui x11, 11 (hexadecimal)
    0x0001_15b7,
    // lr.w x10, (x11)
    0x1005_a52f,
    // sc.w x10, x12, (x11)
    0x18c5_a52f,
    JUMP,
];

// Writes 4,096 bytes, over and over. At 24 a jump to itself.
pub(crate) const WRITES: [u32; 7] = [
    // lui x11, 11 (hexadecimal)
    0x0001_15b7,
    // lui x12, 1
    0x0000_1637,
    WRITE,
    // addi x10, x0, 1
    0x0010_0513,
    ECALL,
    // jal x0, -8
    0xff9f_f06f,
    JUMP,
];

// Reads 4,096 bytes, over and over. At 28 a jump to itself.
pub(crate) const READS: [u32; 8] = [
    // lui x11, 11 (hexadecimal)
    0x0001_15b7,
    // lui x12, 1
    0x0000_1637,
    // addi x12, x12, 0
    0x0006_0613,
    READ,
    // addi x10, x0, 0
    0x0000_0513,
    ECALL,
    // jal x0, -8
    0xff9f_f06f,
    JUMP,
];

// Wakes a thread. At 16 a jump to itself, at 20 a yield.
pub(crate) const WAKES: [u32; 8] = [
    // lui x10, 11 (hexadecimal)
    0x0001_1537,
    // addi x11, x0, 1
    0x0010_0593,
    WAKE,
    ECALL,
    JUMP,
    YIELD,
    ECALL,
    JUMP,
];

// Makes a thread that starts at 20, with a yield.
pub(crate) const SPAWNS: [u32; 8] = [
    // lui x10, 10 (hexadecimal)
    0x0001_0537,
    // addi x10, x10, 20
    0x0145_0513,
    SPAWN,
    ECALL,
    JUMP,
    YIELD,
    ECALL,
    JUMP,
];

// Adds one under a lock, over and over: x10 has what the last LR or SC answered.
pub(crate) const LOCK: [u32; 10] = [
    // lui x11, 11 (hexadecimal)
    0x0001_15b7,
    // addi x12, x0, 1
    0x0010_0613,
    // addi x13, x11, 4
    0x0045_8693,
    // lr.w x10, (x11)
    0x1005_a52f,
    // bne x10, x0, -4
    0xfe05_1ee3,
    // sc.w x10, x12, (x11)
    0x18c5_a52f,
    // bne x10, x0, -12
    0xfe05_1ae3,
    // amoadd.w x14, x12, (x13)
    0x00c6_a72f,
    // amoswap.w x0, x0, (x11)
    0x0805_a02f,
    // jal x0, -24
    0xfe9f_f06f,
];

// Writes three bytes, and the guest ends.
pub(crate) const HI: [u32; 10] = [
    // addi x10, x0, 1
    0x0010_0513,
    // lui x11, 10 (hexadecimal)
    0x0001_05b7,
    // addi x11, x11, 36
    0x0245_8593,
    // addi x12, x0, 3
    0x0030_0613,
    WRITE,
    ECALL,
    // addi x10, x0, 0
    0x0000_0513,
    EXIT_ALL,
    ECALL,
    // the bytes of "hi", and a newline
    0x000a_6968,
];

// Asks for the time, over and over.
pub(crate) const CLOCKS: [u32; 3] = [
    CLOCK,
    ECALL,
    // jal x0, -4
    0xffdf_f06f,
];

// At 8 a thread stores an addi over the call at 0. At 28 a yield.
pub(crate) const PATCHES: [u32; 10] = [
    ECALL,
    JUMP,
    // lui x11, 10 (hexadecimal)
    0x0001_05b7,
    // lui x12, 128 (hexadecimal)
    0x0012_8637,
    // addi x12, x12, 659
    0x2936_0613,
    // sw x12, 0(x11)
    0x00c5_a023,
    JUMP,
    YIELD,
    ECALL,
    JUMP,
];

// A row of a table of cases, whose fields have ` | ` in between: the counts of the hints, as `tid:steps`; their order,
// as a thread and one of `n`, `w` and `l` for `NotSc`, `Won` and `Lost`, and `*` with a number for that many in a row;
// the steps of the epoch, those of a slice, and the first thread; and the outcome. This is the slices, as `tid:steps`;
// the end of the guest, if it has ended; the number of bytes that were written and read, if any were; and x10 of
// threads 1 and 2 at the end, 0 for one that doesn't run. A list without items is `-`.
pub(crate) type Row = &'static str;

pub(crate) fn field_of(text: &str) -> (&str, &str) {
    text.split_once(" | ").unwrap_or((text, ""))
}

fn counts_of(alloc: Global, text: &str) -> Result<Log<(Tid, u32)>, Fail> {
    let mut counts = Log::new(alloc);
    for word in text.split(' ') {
        if let Some((thread, steps)) = word.split_once(':') {
            counts.put((Tid(thread.parse().unwrap_or(0)), steps.parse().unwrap_or(0)))?;
        }
    }
    Ok(counts)
}

fn hint_of(word: &str) -> SyncHint {
    let (thread, sc) = match (word.strip_suffix('w'), word.strip_suffix('l')) {
        (Some(thread), _) => (thread, Sc::Won),
        (_, Some(thread)) => (thread, Sc::Lost),
        _ => (word.strip_suffix('n').unwrap_or(""), Sc::NotSc),
    };
    SyncHint {
        tid: Tid(thread.parse().unwrap_or(0)),
        sc,
    }
}

fn order_of(alloc: Global, text: &str) -> Result<Log<SyncHint>, Fail> {
    let mut order = Log::new(alloc);
    for word in text.split(' ') {
        let (hint, times) = word.split_once('*').unwrap_or((word, "1"));
        if hint != "-" {
            for _ in 0..times.parse::<u32>().unwrap_or(0) {
                order.put(hint_of(hint))?;
            }
        }
    }
    Ok(order)
}

pub(crate) fn hints_of(alloc: Global, counts: &str, order: &str) -> Result<Hints, Fail> {
    Ok(Hints {
        counts: counts_of(alloc, counts)?,
        order: order_of(alloc, order)?,
    })
}

pub(crate) fn bounds_of(text: &str) -> (u32, u32, u16) {
    let (steps, rest) = text.split_once(' ').unwrap_or((text, ""));
    let (slice, first) = rest.split_once(' ').unwrap_or((rest, ""));
    (
        steps.parse().unwrap_or(0),
        slice.parse().unwrap_or(0),
        first.parse().unwrap_or(0),
    )
}

// A page of code that may be read, written and run, and a page of zeros that may be read and written.
pub(crate) fn start_of(
    alloc: Global,
    code: &[u32],
    threads: &[Stands],
    input: u64,
) -> Result<State, Fail> {
    let mut bytes = Vec::new(alloc);
    for word in code {
        bytes.extend_from_slice(&word.to_le_bytes())?;
    }
    let mut pages = Pages::new(alloc)?;
    pages.map_above(0x10, 7, &bytes[..bytes.len().min(4096)])?;
    pages.map_above(0x11, 6, &[])?;
    Ok(State {
        pages,
        heap: 0x12000,
        brk: 0x12000,
        threads: threads_of(alloc, threads)?,
        input,
        steps: 0,
        end: End::None,
    })
}

fn x10_of_thread(state: &State, tid: u16) -> u32 {
    match state.threads.get(Tid(tid)) {
        Some(Thread::Runs { hart, .. }) => hart.register(10),
        _ => 0,
    }
}

pub(crate) fn outcome_of(alloc: Global, run: &EpochRun) -> Result<String, AllocError> {
    let mut text = String::new(alloc);
    for slice in run.epoch.slices.as_slice() {
        text.push_str(if text.is_empty() { "" } else { " " })?;
        text.push_str(&format!(in alloc; "{}:{}", slice.tid.0, slice.steps)?)?;
    }
    match run.end.end {
        End::None => {}
        End::Exit(code) => text.push_str(&format!(in alloc; "; exit {code}")?)?,
        End::Trap { cause, .. } => text.push_str(&format!(in alloc; "; trap {cause}")?)?,
        End::Deadlock => text.push_str("; deadlock")?,
    }
    if run.out.len() > 0 {
        text.push_str(&format!(in alloc; "; {} written", run.out.len())?)?;
    }
    let read = run.end.input.saturating_sub(run.start.input);
    if read > 0 {
        text.push_str(&format!(in alloc; "; {read} read")?)?;
    }
    let (first, second) = (x10_of_thread(&run.end, 1), x10_of_thread(&run.end, 2));
    text.push_str(&format!(in alloc; "; x10 {first} {second}")?)?;
    Ok(text)
}

pub(crate) fn outcome(
    alloc: Global,
    start: State,
    hints: &Hints,
    supply: &Supply,
    (steps, slice, first): (u32, u32, u16),
) -> Result<String, Fail> {
    if steps > MAX_EPOCH_STEPS || slice == 0 || start.steps > 1 << 62 || start.input > 1 << 62 {
        return Err("bounds of an epoch".into());
    }
    let bounds = Bounds {
        steps,
        slice,
        first,
    };
    match run_epoch(alloc, start, hints, supply, bounds)? {
        Ran::Idle(_) => Ok(String::from_str(alloc, "idle")?),
        Ran::Epoch(run) => Ok(outcome_of(alloc, &run)?),
    }
}

// A line for each row that has another outcome than its epoch, with these threads, which have read so much of 65,536
// bytes.
pub(crate) fn differences(
    alloc: Global,
    code: &[u32],
    threads: &[Stands],
    input: u64,
    rows: &[Row],
) -> Result<String, Fail> {
    let mut input_bytes = Vec::new(alloc);
    input_bytes.resize(MAX_ROOM as usize, b'a')?;
    let supply = supply_of(alloc, &input_bytes, 1)?;
    let mut text = String::new(alloc);
    for row in rows {
        let (counts, rest) = field_of(*row);
        let (order, rest) = field_of(rest);
        let (bounds, expected) = field_of(rest);
        let start = start_of(alloc, code, threads, input)?;
        let hints = hints_of(alloc, counts, order)?;
        let found = outcome(alloc, start, &hints, &supply, bounds_of(bounds))?;
        if found.as_str() != expected {
            text.push_str(&format!(in alloc; "{row}, but {}\n", found.as_str())?)?;
        }
    }
    Ok(text)
}
