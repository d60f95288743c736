// Guests of a few words of code for the tests, and what an epoch of one has done.
use dp_base::limits::{MAX_EPOCH_STEPS, MAX_THREADS};
use dp_base::{Slice, Tid};
use epoch_runner::{Bounds, Ran, run_epoch};
use guest_kernel::{End, Hart, Pages, State, Thread, Threads};
use std::alloc::{AllocError, Global};
use std::test::Fail;
use supply::{MAX_ROOM, Supply};
use sync_hints::Hints;
use test_worlds::{Failing, inlet_of};

// jal x0, 0: a jump to itself
pub(crate) const JUMP: u32 = 0x0000_006f;

pub(crate) const ECALL: u32 = 0x0000_0073;
// addi x17, x0, n, with the number of a call
pub(crate) const EXIT_THREAD: u32 = 0x0000_0893;

pub(crate) const EXIT_ALL: u32 = 0x0010_0893;

pub(crate) const READ: u32 = 0x0030_0893;

pub(crate) const WRITE: u32 = 0x0020_0893;

pub(crate) const SPAWN: u32 = 0x0040_0893;

pub(crate) const WAIT: u32 = 0x0050_0893;

pub(crate) const WAKE: u32 = 0x0060_0893;

pub(crate) const YIELD: u32 = 0x0070_0893;

pub(crate) const CLOCK: u32 = 0x0080_0893;

// How a thread is at the start: it runs or waits at this place of the code, page 10 (hexadecimal), or it has gone.
#[derive(Clone, Copy)]
pub(crate) enum Stands {
    Runs(u32),
    Waits(u32),
    Gone,
}

use Stands::{Gone, Runs, Waits};

// A guest, the steps of its epoch and of a slice, and the number with which it begins.
#[derive(Clone, Copy)]
pub(crate) struct Case<'a> {
    pub(crate) code: &'a [u32],
    pub(crate) threads: &'a [Stands],
    pub(crate) end: End,
    pub(crate) steps: u32,
    pub(crate) slice: u32,
    pub(crate) first: u16,
}

// What an epoch has done: its slices, as numbers and steps, with zeros after the last; how many bytes it has written;
// the step count and the end of the guest after it; and what thread 1 then has in x10.
#[derive(Clone, Copy, Debug, PartialEq, Eq)]
pub(crate) struct Outcome {
    pub(crate) slices: [(u16, u32); 6],
    pub(crate) written: usize,
    pub(crate) steps: u64,
    pub(crate) end: End,
    pub(crate) x10: u32,
}

fn code_bytes(alloc: Global, code: &[u32]) -> Result<Vec<u8>, AllocError> {
    let mut bytes = Vec::new(alloc);
    for word in code {
        bytes.extend_from_slice(&word.to_le_bytes())?;
    }
    Ok(bytes)
}

// The code on page 10 (hexadecimal), and a page 11 of zeros that may be read and written.
pub(crate) fn pages_of(alloc: Global, code: &[u32]) -> Result<Pages, Fail> {
    let bytes = code_bytes(alloc, code)?;
    let mut pages = Pages::new(alloc)?;
    pages.map_above(0x10, 5, &bytes[..bytes.len().min(4096)])?;
    pages.map_above(0x11, 6, &[])?;
    Ok(pages)
}

pub(crate) fn thread_of(stands: Stands) -> Thread {
    let hart_at = |place: u32| Hart {
        pc: 0x10000_u32.wrapping_add(place),
        x: [0; 31],
        held: None,
    };
    match stands {
        Runs(place) => Thread::Runs {
            hart: hart_at(place),
            clear: 0,
        },
        Waits(place) => Thread::Waits {
            addr: 0x11000,
            hart: hart_at(place),
            clear: 0,
        },
        Gone => Thread::Gone(0),
    }
}

pub(crate) fn threads_of(alloc: Global, threads: &[Stands]) -> Result<Threads, Fail> {
    let mut items = Vec::new(alloc);
    for stands in threads {
        items.push(thread_of(*stands))?;
    }
    if items.len() > MAX_THREADS {
        return Err("few threads".into());
    }
    Ok(Threads::from_vec(items))
}

pub(crate) fn state_of(
    alloc: Global,
    code: &[u32],
    threads: &[Stands],
    end: End,
) -> Result<State, Fail> {
    Ok(State {
        pages: pages_of(alloc, code)?,
        heap: 0x12000,
        brk: 0x12000,
        threads: threads_of(alloc, threads)?,
        input: 0,
        steps: 0,
        end,
    })
}

// An empty window, at whose end the input hasn't ended.
pub(crate) fn nothing_known(alloc: Global) -> Result<Supply, Fail> {
    Ok(Supply::new(alloc, 1)?)
}

// The window after so many refills from an input of these bytes.
pub(crate) fn supply_of(alloc: Global, bytes: &[u8], refills: u32) -> Result<Supply, Fail> {
    let mut inlet = inlet_of(alloc, &[bytes], &[], Failing::Never)?;
    let mut supply = Supply::new(alloc, MAX_ROOM)?;
    for _ in 0..refills {
        if !supply.has_ended() && supply.window_end() < 1 << 62 {
            let _ = supply.refill(&mut inlet);
        }
    }
    supply.set_stamp(7);
    Ok(supply)
}

// The slices, as an outcome has them.
pub(crate) fn told(slices: &[Slice]) -> [(u16, u32); 6] {
    let mut told = [(0, 0); 6];
    for (place, slice) in told.iter_mut().zip(slices) {
        *place = (slice.tid.0, slice.steps);
    }
    told
}

pub(crate) fn padded(slices: &[(u16, u32)]) -> [(u16, u32); 6] {
    let mut padded = [(0, 0); 6];
    for (place, slice) in padded.iter_mut().zip(slices) {
        *place = *slice;
    }
    padded
}

pub(crate) fn x10_of(state: &State) -> u32 {
    match state.threads.get(Tid(1)) {
        Some(Thread::Runs { hart, .. }) => hart.register(10),
        _ => 0,
    }
}

// The epoch of a state without hints, with a supply: so many steps and so many in a slice, from this thread on.
pub(crate) fn run_within(
    alloc: Global,
    start: State,
    supply: &Supply,
    (steps, slice, first): (u32, u32, u16),
) -> Result<Ran, Fail> {
    if steps > MAX_EPOCH_STEPS || slice == 0 || start.steps > 1 << 62 || start.input > 1 << 62 {
        return Err("bounds of an epoch".into());
    }
    let bounds = Bounds {
        steps,
        slice,
        first,
    };
    Ok(run_epoch(alloc, start, &Hints::none(alloc), supply, bounds)?)
}

// What the epoch of a guest has done, or `None` if there is nothing to run.
pub(crate) fn ran(alloc: Global, case: Case<'_>) -> Result<Option<Outcome>, Fail> {
    let start = state_of(alloc, case.code, case.threads, case.end)?;
    let bounds = (case.steps, case.slice, case.first);
    match run_within(alloc, start, &nothing_known(alloc)?, bounds)? {
        Ran::Idle(_) => Ok(None),
        Ran::Epoch(run) => Ok(Some(Outcome {
            slices: told(run.epoch.slices.as_slice()),
            written: run.out.len(),
            steps: run.end.steps,
            end: run.end.end,
            x10: x10_of(&run.end),
        })),
    }
}

// The slices of an epoch.
pub(crate) fn slices(
    alloc: Global,
    code: &[u32],
    threads: &[Stands],
    (steps, slice, first): (u32, u32, u16),
) -> Result<Option<[(u16, u32); 6]>, Fail> {
    let case = Case {
        code,
        threads,
        end: End::None,
        steps,
        slice,
        first,
    };
    Ok(ran(alloc, case)?.map(|outcome| outcome.slices))
}
