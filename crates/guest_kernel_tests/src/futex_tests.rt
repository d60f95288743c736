// Waits and wakes, each turn worked out by hand.
use crate::thread_states::{CALLS, Caller, IDLE, Seen, Stand, answered, look, on_a_word, waits};
use guest_kernel::End;
use std::alloc::Global;
use std::test::Fail;

const EAGAIN: u32 = 0xffff_fff5;

const EFAULT: u32 = 0xffff_fff2;

const EINVAL: u32 = 0xffff_ffea;

// Where a call writes nothing.
fn as_wanted(end: End) -> Seen {
    (end, Some(5), None)
}

// The address, the word that is expected, the answer.
fn failing_waits() -> [(u32, u32, u32); 17] {
    [
        // no multiple of 4: on a word as it is expected, on others, and where nothing may be read
        (0x11001, 0x0400_0000, EINVAL),
        (0x11002, 0x0304_0000, EINVAL),
        (0x11003, 0, EINVAL),
        (0x11002, 5, EINVAL),
        (0x13002, 5, EINVAL),
        (0x50001, 0, EINVAL),
        (0xffff_ffff, 0, EINVAL),
        // on a page that may only be executed, one that may only be written, and on none
        (0x10000, 0x73, EFAULT),
        (0x13000, 5, EFAULT),
        (0x13000, 6, EFAULT),
        (0x50000, 0, EFAULT),
        (0xffff_fffc, 0, EFAULT),
        // another word
        (0x11000, 4, EAGAIN),
        (0x11000, 0x105, EAGAIN),
        (0x11000, 0x8000_0005, EAGAIN),
        (0x11004, 5, EAGAIN),
        (0x12000, 0, EAGAIN),
    ]
}

#[test]
fn waits_that_fail(rt: HostRuntime) -> Result<(), Fail> {
    for (addr, expected, answer) in failing_waits() {
        let caller = on_a_word(1, [5, addr, expected]);
        let found = look(rt.alloc(), caller, &[CALLS], &[answered(answer)])?;
        assert_eq!(rt; found, as_wanted(End::None), "at {addr:x}, {expected:x}");
    }
    Ok(())
}

// The address, the word there, threads 1 and 3, and the end.
fn beginning_waits() -> [(u32, u32, Stand, Stand, End); 6] {
    let others = waits(0x11000);
    [
        (0x11004, 0x0102_0304, IDLE, IDLE, End::None),
        (0x12000, 5, IDLE, Stand::Gone(9), End::None),
        (0x12000, 5, others, IDLE, End::None),
        (0x12000, 5, others, others, End::Deadlock),
        (
            0x11004,
            0x0102_0304,
            Stand::Gone(0),
            Stand::Gone(9),
            End::Deadlock,
        ),
        (0x11004, 0x0102_0304, Stand::Gone(0), others, End::Deadlock),
    ]
}

// Thread 2 waits on 00011004 or on 00012000.
#[test]
fn waits_that_begin(rt: HostRuntime) -> Result<(), Fail> {
    for (addr, word, first, last, end) in beginning_waits() {
        let waiting = Stand::Waits {
            on: addr,
            pc: 0x10004,
            a0: addr,
        };
        let caller = on_a_word(2, [5, addr, word]);
        let before = [first, CALLS, last];
        let found = look(rt.alloc(), caller, &before, &[first, waiting, last])?;
        assert_eq!(rt; found, as_wanted(end));
    }
    Ok(())
}

// How a thread stands while one wakes others.
#[derive(Clone, Copy)]
enum Role {
    // It wakes so many.
    Wakes(u32),
    Runs,
    Gone(u32),
    // It waits on an address, before and after.
    Waits(u32),
    // It waits there, and is woken.
    Woken(u32),
}

use Role::{Gone, Runs, Waits, Wakes, Woken};

fn before(role: Role) -> Stand {
    match role {
        Role::Wakes(_) => CALLS,
        Role::Runs => IDLE,
        Role::Gone(code) => Stand::Gone(code),
        Role::Waits(on) => waits(on),
        Role::Woken(on) => waits(on),
    }
}

fn behind(role: Role) -> Stand {
    match role {
        Role::Wakes(count) => answered(count),
        Role::Woken(_) => answered(0),
        _ => before(role),
    }
}

// Who wakes, on which address and at most how many; how threads 1 to 4 stand.
fn cases_of_wakes() -> [(u16, u32, u32, Role, Role, Role, Role); 11] {
    let (waits, woken) = (Waits(0x11000), Woken(0x11000));
    let (waits_elsewhere, woken_elsewhere) = (Waits(0x11004), Woken(0x11004));
    [
        // of threads 2 and 3 the lowest
        (1, 0x11000, 1, Wakes(1), woken, waits, Runs),
        (4, 0x11000, 1, Runs, woken, waits, Wakes(1)),
        (2, 0x11000, 2, woken, Wakes(2), woken, waits),
        // none
        (1, 0x11000, 0, Wakes(0), waits, waits, Runs),
        // more than wait
        (1, 0x11000, 3, Wakes(2), woken, woken, Runs),
        (3, 0x11000, 0xffff_ffff, woken, woken, Wakes(3), woken),
        (3, 0x11000, 0x8000_0000, woken, Gone(1), Wakes(2), woken),
        // only those on the address
        (1, 0x11000, 2, Wakes(2), waits_elsewhere, woken, woken),
        (
            1,
            0x11004,
            9,
            Wakes(2),
            woken_elsewhere,
            waits,
            woken_elsewhere,
        ),
        // none waits there
        (1, 0x11002, 1, Wakes(0), waits_elsewhere, waits, Gone(0)),
        // on an address at which no word can be read
        (1, 0x50001, 1, Wakes(1), Woken(0x50001), waits, Runs),
    ]
}

// What is seen after a wake by a thread.
fn after_wake(
    alloc: Global,
    caller: Caller,
    first: Role,
    second: Role,
    third: Role,
    fourth: Role,
) -> Result<Seen, Fail> {
    let stood = [before(first), before(second), before(third), before(fourth)];
    let stand = [behind(first), behind(second), behind(third), behind(fourth)];
    look(alloc, caller, &stood, &stand)
}

#[test]
fn wakes(rt: HostRuntime) -> Result<(), Fail> {
    for (tid, addr, count, first, second, third, fourth) in cases_of_wakes() {
        let caller = on_a_word(tid, [6, addr, count]);
        let found = after_wake(rt.alloc(), caller, first, second, third, fourth)?;
        assert_eq!(rt; found, as_wanted(End::None), "{count} at {addr:x}");
    }
    Ok(())
}
