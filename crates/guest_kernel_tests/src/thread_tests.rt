// Threads that are made, and the calls that name and yield one, each worked out by hand; and a guest of two threads.
ghost use Rattle.std.specs.Prelude.{◌≡◌, IfOk};

use crate::one_turn::one_turn;
use crate::slice_tests::{Cut, Ran, ran, slice};
use dp_base::Tid;
use dp_base::limits::MAX_THREADS;
use guest_kernel::{End, Hart, Pages, SliceRun, State, Thread, Threads, Turn};
use std::alloc::Global;
use std::test::Fail;

// ecall; addi x0, x0, 0; EBREAK
const CODE: [u8; 12] = [0x73, 0, 0, 0, 0x13, 0, 0, 0, 0x73, 0, 0x10, 0];

// `CODE` is at 00010000.
fn state_of(alloc: Global, threads: Threads) -> Result<State, Fail>
    ensures { IfOk result (λ state. state.steps ≡ 0) }
{
    let mut pages = Pages::new(alloc)?;
    pages.map_above(0x10, 1, &CODE)?;
    Ok(State {
        pages,
        heap: 0x11000,
        brk: 0x11000,
        threads,
        input: 0,
        steps: 0,
        end: End::None,
    })
}

// spawn(23456789, 9abcdef0, 11223344, 55667788)
fn spawner() -> Hart {
    let mut hart = Hart {
        pc: 0x10000,
        x: [7; 31],
        held: Some(4),
    };
    hart.set_register(10, 0x2345_6789);
    hart.set_register(11, 0x9abc_def0);
    hart.set_register(12, 0x1122_3344);
    hart.set_register(13, 0x5566_7788);
    hart.set_register(17, 4);
    hart
}

// A guest's threads: so many that have gone, so many that wait, so many that run, and one that calls spawn.
fn threads_of(alloc: Global, gone: usize, waiting: usize, running: usize) -> Result<Threads, Fail> {
    let hart = spawner();
    let mut items = Vec::new(alloc);
    items.resize(gone.min(1024), Thread::Gone(3))?;
    for _ in 0..waiting {
        items.push(Thread::Waits {
            addr: 8,
            hart,
            clear: 0,
        })?;
    }
    for _ in 0..running {
        items.push(Thread::Runs { hart, clear: 0 })?;
    }
    items.push(Thread::Runs { hart, clear: 12 })?;
    if items.len() > MAX_THREADS {
        return Err("there aren't so many".into());
    }
    Ok(Threads::from_vec(items))
}

// What a spawn comes to: the answer, how many threads were made, and how many are alive.
fn spawned(
    alloc: Global,
    gone: usize,
    waiting: usize,
    running: usize,
) -> Result<(u32, usize, usize), Fail> {
    let threads = threads_of(alloc, gone, waiting, running)?;
    let tid = threads.len() as u16;
    let (_, state, _) = one_turn(alloc, state_of(alloc, threads)?, tid)?;
    match state.threads.get(Tid(tid)) {
        Some(Thread::Runs { hart, clear: 12 }) if hart.pc == 0x10004 => {
            let (made, alive) = (state.threads.len(), state.threads.alive());
            Ok((hart.register(10), made, alive))
        }
        _ => Err("the thread goes on behind its call".into()),
    }
}

// How many have gone, wait and run beside the one that calls; the answer, how many were made, and how many are alive.
fn spawn_cases() -> [(usize, usize, usize, u32, usize, usize); 13] {
    [
        (0, 0, 0, 2, 2, 2),
        (0, 0, 62, 64, 64, 64),
        (0, 0, 63, 0xffff_fff5, 64, 64),
        (0, 62, 0, 64, 64, 64),
        (0, 63, 0, 0xffff_fff5, 64, 64),
        (0, 31, 31, 64, 64, 64),
        (0, 32, 31, 0xffff_fff5, 64, 64),
        (5, 0, 62, 69, 69, 64),
        (5, 0, 63, 0xffff_fff5, 69, 64),
        (1022, 0, 0, 1024, 1024, 2),
        (1023, 0, 0, 0xffff_fff5, 1024, 1),
        (960, 0, 62, 1024, 1024, 64),
        (960, 0, 63, 0xffff_fff5, 1024, 64),
    ]
}

#[test]
fn spawns(rt: HostRuntime) -> Result<(), Fail> {
    for (gone, waiting, running, answer, made, alive) in spawn_cases() {
        let found = spawned(rt.alloc(), gone, waiting, running)?;
        assert_eq!(rt; found, (answer, made, alive), "{gone} have gone");
    }
    Ok(())
}

// Threads 4 and 5 after a spawn of thread 4, the end, and the step count.
fn made_by_spawn(alloc: Global) -> Result<(Option<Thread>, Option<Thread>, End, u64), Fail> {
    let state = state_of(alloc, threads_of(alloc, 2, 1, 0)?)?;
    let (_, state, _) = one_turn(alloc, state, 4)?;
    let spawner = state.threads.get(Tid(4)).copied();
    let made = state.threads.get(Tid(5)).copied();
    Ok((spawner, made, state.end, state.steps))
}

#[test]
fn the_thread_that_is_made(rt: HostRuntime) -> Result<(), Fail> {
    // x2 is at place 1, x10 at place 9
    let mut x = [0; 31];
    x[1] = 0x9abc_def0;
    x[9] = 0x1122_3344;
    let hart = Hart {
        pc: 0x2345_6789,
        x,
        held: None,
    };
    let made = Thread::Runs {
        hart,
        clear: 0x5566_7788,
    };
    // the spawner has its answer
    let mut hart = spawner();
    hart.pc = 0x10004;
    hart.set_register(10, 5);
    let spawner = Thread::Runs { hart, clear: 12 };
    assert_eq!(rt;
        made_by_spawn(rt.alloc())?,
        (Some(spawner), Some(made), End::None, 1)
    );
    Ok(())
}

// What a turn of thread 3 comes to, which stands there with this x17: whether it is a yield, and x10 after it.
fn turned(alloc: Global, pc: u32, number: u32) -> Result<(bool, u32), Fail> {
    let mut threads = threads_of(alloc, 1, 0, 1)?;
    let mut hart = Hart {
        pc,
        x: [0x99; 31],
        held: None,
    };
    hart.set_register(17, number);
    if threads.len() == 3 {
        threads.set(Tid(3), Thread::Runs { hart, clear: 12 });
    }
    let (turn, state, _) = one_turn(alloc, state_of(alloc, threads)?, 3)?;
    let Turn::Stepped {
        used: false,
        yielded,
    } = turn
    else {
        return Err("a turn without an answer".into());
    };
    let a0 = match state.threads.get(Tid(3)) {
        Some(Thread::Runs { hart, .. }) => hart.register(10),
        _ => 0x99,
    };
    Ok((yielded, a0))
}

// Pc, x17; whether the turn is a yield, and x10 after it.
fn turn_cases() -> [(u32, u32, bool, u32); 15] {
    [
        (0x10000, 7, true, 0),
        // gettid
        (0x10000, 10, false, 3),
        // the other calls: two exits, a write to file 99, a spawn, a wait on 99, which is no multiple of 4, a wake, and
        // a break below the heap
        (0x10000, 0, false, 0x99),
        (0x10000, 1, false, 0x99),
        (0x10000, 2, false, 0xffff_fff7),
        (0x10000, 4, false, 4),
        (0x10000, 5, false, 0xffff_ffea),
        (0x10000, 6, false, 0),
        (0x10000, 9, false, 0x11000),
        // no calls
        (0x10000, 11, false, 0xffff_ffda),
        (0x10000, 0x107, false, 0xffff_ffda),
        (0x10000, 0x8000_0007, false, 0xffff_ffda),
        (0x10000, 0xffff_ffff, false, 0xffff_ffda),
        // a plain instruction, and a trap
        (0x10004, 7, false, 0x99),
        (0x10008, 7, false, 0x99),
    ]
}

#[test]
fn yields_and_numbers(rt: HostRuntime) -> Result<(), Fail> {
    for (pc, number, yielded, a0) in turn_cases() {
        let found = turned(rt.alloc(), pc, number)?;
        assert_eq!(rt; found, (yielded, a0), "{number:x} at {pc:x}");
    }
    Ok(())
}

// A guest of two threads. Thread 1, from 00010054 on: addi x5, x0, 1; sw x5, 0(x2); lui x10, 0x10; addi x10, x10, 0x90;
// addi x13, x2, 0; addi x17, x0, 4; ecall: spawn(10090, 0, 0, x2). Then addi x10, x2, 0; addi x11, x0, 1; addi x17, x0,
// 5; ecall: futex_wait(x2, 1). Then lw x10, 0(x2); addi x10, x10, 7; addi x17, x0, 1; ecall: exit_all with 7 more than
// the word. Thread 2, from 00010090 on: addi x10, x0, 3; ecall: exit_thread(3).
const TWO_THREADS: [u32; 17] = [
    0x0010_0293,
    0x0051_2023,
    0x0001_0537,
    0x0905_0513,
    0x0001_0693,
    0x0040_0893,
    0x0000_0073,
    0x0001_0513,
    0x0010_0593,
    0x0050_0893,
    0x0000_0073,
    0x0001_2503,
    0x0075_0513,
    0x0010_0893,
    0x0000_0073,
    0x0030_0513,
    0x0000_0073,
];

// The run, the end, the step count, and the pc and x10 of thread 1 where it runs.
type Outcome = (SliceRun, End, u64, Option<(u32, u32)>);

fn outcome(ran: Ran) -> Outcome {
    let (run, end, steps, hart) = ran;
    let first = match hart {
        Some(hart) => Some((hart.pc, hart.register(10))),
        None => None,
    };
    (run, end, steps, first)
}

// What two slices come to.
fn two(alloc: Global, first: Cut, second: Cut) -> Result<Outcome, Fail> {
    let slices = [slice(first.0, first.1), slice(second.0, second.1)];
    Ok(outcome(ran(alloc, &TWO_THREADS, &slices, &[])?))
}

fn three(alloc: Global, first: Cut, second: Cut, third: Cut) -> Result<Outcome, Fail> {
    let slices = [
        slice(first.0, first.1),
        slice(second.0, second.1),
        slice(third.0, third.1),
    ];
    Ok(outcome(ran(alloc, &TWO_THREADS, &slices, &[])?))
}

// What two slices come to, or three.
fn cut_so(alloc: Global, first: Cut, second: Cut, third: Option<Cut>) -> Result<Outcome, Fail> {
    match third {
        Some(third) => three(alloc, first, second, third),
        None => two(alloc, first, second),
    }
}

// A run to the end, which is the 17th step.
fn to_the_end() -> Outcome {
    (SliceRun::Whole, End::Exit(7), 17, Some((0x10090, 7)))
}

// A run that stops at the first step of a slice, after so many steps.
fn stopped(slice: usize, steps: u64, first: Option<(u32, u32)>) -> Outcome {
    let run = SliceRun::Stops { slice, step: 0 };
    (run, End::None, steps, first)
}

// Three slices that run to the end.
fn whole_runs() -> [(Cut, Cut, Cut); 2] {
    [
        // thread 1 waits, and the exit of thread 2 wakes it
        ((1, 11), (2, 2), (1, 4)),
        // thread 2 is gone before the wait, which finds another word
        ((1, 7), (2, 2), (1, 8)),
    ]
}

#[test]
fn two_threads_to_the_end(rt: HostRuntime) -> Result<(), Fail> {
    for (first, second, third) in whole_runs() {
        assert_eq!(rt; three(rt.alloc(), first, second, third)?, to_the_end());
    }
    Ok(())
}

// Two slices or three, and the pc and x10 of thread 1 after them.
fn waits_of_thread_one() -> [(Cut, Cut, Option<Cut>, u32, u32); 2] {
    [
        // the wait finds another word
        ((1, 10), (2, 2), Some((1, 1)), 0x10080, 0xffff_fff5),
        // after its wake it follows its wait
        ((1, 11), (2, 2), None, 0x10080, 0),
    ]
}

#[test]
fn behind_the_wait(rt: HostRuntime) -> Result<(), Fail> {
    for (first, second, third, pc, a0) in waits_of_thread_one() {
        let (.., stand) = cut_so(rt.alloc(), first, second, third)?;
        assert_eq!(rt; stand, Some((pc, a0)));
    }
    Ok(())
}

// Two slices or three, of which the last has no turn; which one that is, the step count, and the pc and x10 of thread
// 1.
fn slices_without_a_turn() -> [(Cut, Cut, Option<Cut>, usize, u64, Option<(u32, u32)>); 3] {
    [
        // thread 1 while it waits, and thread 2 before it is made and after its exit
        ((1, 11), (1, 1), None, 1, 11, None),
        ((1, 6), (2, 1), None, 1, 6, Some((0x1006c, 0x10090))),
        ((1, 7), (2, 2), Some((2, 1)), 2, 9, Some((0x10070, 2))),
    ]
}

#[test]
fn threads_without_a_turn(rt: HostRuntime) -> Result<(), Fail> {
    for (first, second, third, last, steps, stand) in slices_without_a_turn() {
        let found = cut_so(rt.alloc(), first, second, third)?;
        assert_eq!(rt; found, stopped(last, steps, stand));
    }
    Ok(())
}
