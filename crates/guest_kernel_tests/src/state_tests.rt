// The end of a thread's slice, and turns that there aren't, each worked out by hand.
use crate::one_turn::one_turn;
use dp_base::Tid;
use guest_kernel::{End, Hart, Pages, State, Thread, Threads, Turn};
use std::alloc::Global;
use std::test::Fail;

fn state_of(alloc: Global, thread: Thread) -> Result<State, Fail> {
    Ok(State {
        pages: Pages::new(alloc)?,
        heap: 0,
        brk: 0,
        threads: Threads::one(alloc, thread)?,
        input: 0,
        steps: 0,
        end: End::None,
    })
}

fn hart(held: Option<u32>) -> Hart {
    Hart {
        pc: 4,
        x: [7; 31],
        held,
    }
}

fn runs(held: Option<u32>) -> Thread {
    Thread::Runs {
        hart: hart(held),
        clear: 3,
    }
}

fn waits(held: Option<u32>) -> Thread {
    Thread::Waits {
        addr: 8,
        hart: hart(held),
        clear: 3,
    }
}

// Thread 1 after the end of a thread's slice, and whether the guest has ended.
fn behind_a_slice(alloc: Global, before: Thread, tid: u16) -> Result<(Option<Thread>, bool), Fail> {
    let mut state = state_of(alloc, before)?;
    state.end_slice(Tid(tid));
    Ok((state.threads.get(Tid(1)).copied(), state.ended()))
}

#[test]
fn a_slices_end(rt: HostRuntime) -> Result<(), Fail> {
    let cases = [
        (runs(Some(4)), 1, runs(None)),
        (waits(Some(4)), 1, waits(None)),
        (runs(Some(4)), 2, runs(Some(4))),
        (runs(Some(4)), 0, runs(Some(4))),
        (Thread::Gone(6), 1, Thread::Gone(6)),
    ];
    for (before, tid, left) in cases {
        let found = behind_a_slice(rt.alloc(), before, tid)?;
        assert_eq!(rt; found, (Some(left), false), "thread {tid}");
    }
    Ok(())
}

// Whether a guest of one thread and this end has ended; what a turn of a thread comes to, the end after it, and the
// step count.
fn turn_at(
    alloc: Global,
    thread: Thread,
    end: End,
    tid: u16,
) -> Result<(bool, Turn, End, u64), Fail> {
    let mut state = state_of(alloc, thread)?;
    state.end = end;
    let ended = state.ended();
    if state.steps != 0 {
        return Err("no turn was taken".into());
    }
    let (turn, state, _) = one_turn(alloc, state, tid)?;
    Ok((ended, turn, state.end, state.steps))
}

// If the guest has ended, no such thread was made or the thread doesn't run, there is no turn.
#[test]
fn no_turn(rt: HostRuntime) -> Result<(), Fail> {
    let hart = hart(None);
    let runs = Thread::Runs { hart, clear: 0 };
    let waits = Thread::Waits {
        addr: 4,
        hart,
        clear: 0,
    };
    let trap = End::Trap {
        tid: Tid(1),
        cause: 2,
        value: 0,
    };
    let cases = [
        (runs, End::None, 0),
        (runs, End::None, 2),
        (waits, End::None, 1),
        (Thread::Gone(0), End::None, 1),
        (runs, End::Exit(0), 1),
        (runs, trap, 1),
        (runs, End::Deadlock, 1),
    ];
    for (thread, end, tid) in cases {
        let found = turn_at(rt.alloc(), thread, end, tid)?;
        let ended = end != End::None;
        assert_eq!(rt; found, (ended, Turn::NotRunnable, end, 0), "thread {tid}");
    }
    Ok(())
}
