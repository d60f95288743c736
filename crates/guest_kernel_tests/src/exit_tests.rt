// Exits of threads, each worked out by hand.
use crate::thread_states::{CALLS, Caller, IDLE, Seen, Stand, answered, look, on_a_word, waits};
use guest_kernel::End;
use std::alloc::Global;
use std::test::Fail;

// What a thread does while one exits.
#[derive(Clone, Copy)]
enum Role {
    // It exits with 9. Its clear-on-exit address is 00011000.
    Exits,
    // It has gone with 3.
    Gone,
    // It runs.
    Runs,
    // It waits on 00011000, and is woken.
    Woken,
    // It waits on 00011004.
    Waits,
}

fn before(role: Role) -> Stand {
    match role {
        Role::Exits => CALLS,
        Role::Gone => Stand::Gone(3),
        Role::Runs => IDLE,
        Role::Woken => waits(0x11000),
        Role::Waits => waits(0x11004),
    }
}

fn behind(role: Role) -> Stand {
    match role {
        Role::Exits => Stand::Gone(9),
        Role::Woken => answered(0),
        _ => before(role),
    }
}

// The thread that exits, what threads 1 to 3 do, and the end.
fn exits() -> [(u16, Role, Role, Role, End); 11] {
    [
        // the last thread, which needn't be thread 1 or the one with the highest number
        (1, Role::Exits, Role::Gone, Role::Gone, End::Exit(9)),
        (2, Role::Gone, Role::Exits, Role::Gone, End::Exit(9)),
        (3, Role::Gone, Role::Gone, Role::Exits, End::Exit(9)),
        // the last one that runs, and others wait
        (1, Role::Exits, Role::Waits, Role::Gone, End::Deadlock),
        (2, Role::Waits, Role::Exits, Role::Waits, End::Deadlock),
        // another runs
        (1, Role::Exits, Role::Runs, Role::Waits, End::None),
        (3, Role::Runs, Role::Gone, Role::Exits, End::None),
        // it wakes the only other thread
        (1, Role::Exits, Role::Woken, Role::Gone, End::None),
        (3, Role::Gone, Role::Woken, Role::Exits, End::None),
        // it wakes all that wait on its word, and none that waits elsewhere
        (2, Role::Woken, Role::Exits, Role::Woken, End::None),
        (2, Role::Woken, Role::Exits, Role::Waits, End::None),
    ]
}

// What is seen after an exit of a thread with 9.
fn after_exit(
    alloc: Global,
    tid: u16,
    first: Role,
    second: Role,
    third: Role,
) -> Result<Seen, Fail> {
    let stood = [before(first), before(second), before(third)];
    let stand = [behind(first), behind(second), behind(third)];
    look(alloc, on_a_word(tid, [0, 9, 0]), &stood, &stand)
}

#[test]
fn ends_of_exits(rt: HostRuntime) -> Result<(), Fail> {
    for (tid, first, second, third, end) in exits() {
        let found = after_exit(rt.alloc(), tid, first, second, third)?;
        assert_eq!(rt; found, (end, Some(0), None));
    }
    Ok(())
}

// Thread 1 exits, and thread 2 waits on its clear-on-exit address: that, the word there, and whether thread 2 is woken.
fn clearings() -> [(u32, Option<u32>, bool); 11] {
    [
        (0x11000, Some(0), true),
        (0x11004, Some(0), true),
        // a page that may only be written
        (0x13000, Some(0), true),
        // no address
        (0, Some(5), false),
        // no multiple of 4
        (0x11001, Some(5), false),
        (0x11002, Some(5), false),
        (0x11003, Some(5), false),
        // pages that may not be written, and none
        (0x12000, Some(5), false),
        (0x10000, Some(0x73), false),
        (0x50000, None, false),
        (0xffff_fffc, None, false),
    ]
}

#[test]
fn clear_addresses(rt: HostRuntime) -> Result<(), Fail> {
    for (clear, word, woken) in clearings() {
        let caller = Caller {
            tid: 1,
            clear,
            registers: [0, 9, 0],
        };
        let (stand, end) = if woken {
            (answered(0), End::None)
        } else {
            (waits(clear), End::Deadlock)
        };
        let before = [CALLS, waits(clear)];
        let found = look(rt.alloc(), caller, &before, &[Stand::Gone(9), stand])?;
        assert_eq!(rt; found, (end, word, None), "clear address {clear:x}");
    }
    Ok(())
}
