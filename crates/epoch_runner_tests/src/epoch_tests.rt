use crate::epoch_guests::Stands::{Gone, Runs, Waits};
use crate::epoch_guests::*;
use dp_base::Tid;
use epoch_runner::{can_step, input_due};
use guest_kernel::End;
use std::test::Fail;

#[test]
fn round_robin(rt: HostRuntime) -> Result<(), Fail> {
    let one = [Runs(0)];
    let two = [Runs(0), Runs(0)];
    let three = [Runs(0), Runs(0), Runs(0)];
    let gap = [Runs(0), Gone, Waits(0), Runs(0), Gone];
    // threads; the steps of the epoch, those of a slice, and the first number; the slices
    let cases: [(&[Stands], (u32, u32, u16), &[(u16, u32)]); 12] = [
        (&two, (7, 3, 2), &[(2, 3), (1, 3), (2, 1)]),
        (&two, (4, 3, 0), &[(1, 3), (2, 1)]),
        (&two, (4, 3, 1), &[(1, 3), (2, 1)]),
        (&two, (4, 3, 3), &[(1, 3), (2, 1)]),
        (&two, (4, 3, u16::MAX), &[(1, 3), (2, 1)]),
        (&two, (3, 3, 1), &[(1, 3)]),
        (&two, (2, 3, 1), &[(1, 2)]),
        (&three, (5, 1, 2), &[(2, 1), (3, 1), (1, 1), (2, 1), (3, 1)]),
        (&one, (7, 3, 1), &[(1, 3), (1, 3), (1, 1)]),
        (&gap, (5, 2, 2), &[(4, 2), (1, 2), (4, 1)]),
        (&gap, (5, 2, 1), &[(1, 2), (4, 2), (1, 1)]),
        (&gap, (3, 2, 5), &[(1, 2), (4, 1)]),
    ];
    for (threads, bounds, expected) in cases {
        assert_eq!(rt;
            slices(rt.alloc(), &[JUMP], threads, bounds)?,
            Some(padded(expected))
        );
    }
    Ok(())
}

#[test]
fn nothing_to_run(rt: HostRuntime) -> Result<(), Fail> {
    let trap = End::Trap {
        tid: Tid(1),
        cause: 2,
        value: 0,
    };
    // threads, end, and the steps of the epoch
    let cases: [(&[Stands], End, u32); 8] = [
        (&[Runs(0)], End::None, 0),
        (&[Runs(0)], End::Exit(0), 5),
        (&[Runs(0)], trap, 5),
        (&[Runs(0)], End::Deadlock, 5),
        (&[Waits(0)], End::None, 5),
        (&[Waits(0), Gone], End::None, 5),
        (&[Gone], End::None, 5),
        (&[], End::None, 5),
    ];
    for (threads, end, steps) in cases {
        let case = Case {
            code: &[JUMP],
            threads,
            end,
            steps,
            slice: 3,
            first: 1,
        };
        assert_eq!(rt; ran(rt.alloc(), case)?, None);
    }
    Ok(())
}

#[test]
fn slices_that_end_early(rt: HostRuntime) -> Result<(), Fail> {
    let yields = [YIELD, ECALL, JUMP];
    let exits = [EXIT_THREAD, ECALL, JUMP];
    // at 0: waits on the first word of page 11; at 16: wakes one that waits there
    let waits = [
        // lui x10, 11
        0x0001_1537,
        WAIT,
        ECALL,
        JUMP,
        // lui x10, 11; addi x11, x0, 1
        0x0001_1537,
        0x0010_0593,
        WAKE,
        ECALL,
        JUMP,
    ];
    // lui x10, 10; addi x10, x10, 16: a thread that starts at the jump
    let spawns = [0x0001_0537, 0x0105_0513, SPAWN, ECALL, JUMP];
    // code and threads; the steps of the epoch, those of a slice, and the first number; the slices
    let cases: [(&[u32], &[Stands], (u32, u32, u16), &[(u16, u32)]); 9] = [
        (
            &yields,
            &[Runs(0), Runs(8)],
            (12, 5, 1),
            &[(1, 2), (2, 5), (1, 5)],
        ),
        (
            &yields,
            &[Runs(0), Runs(8)],
            (6, 2, 1),
            &[(1, 2), (2, 2), (1, 2)],
        ),
        (&yields, &[Runs(0)], (4, 5, 1), &[(1, 2), (1, 2)]),
        (
            &exits,
            &[Runs(0), Runs(8)],
            (9, 4, 1),
            &[(1, 2), (2, 4), (2, 3)],
        ),
        (
            &exits,
            &[Runs(8), Runs(0), Runs(8)],
            (9, 3, 2),
            &[(2, 2), (3, 3), (1, 3), (3, 1)],
        ),
        (
            &waits,
            &[Runs(0), Runs(12), Runs(12)],
            (12, 3, 1),
            &[(1, 3), (2, 3), (3, 3), (2, 3)],
        ),
        (
            &waits,
            &[Runs(0), Runs(16)],
            (14, 4, 1),
            &[(1, 3), (2, 4), (1, 4), (2, 3)],
        ),
        (
            &waits,
            &[Waits(12), Runs(16)],
            (12, 5, 1),
            &[(2, 5), (1, 5), (2, 2)],
        ),
        (&spawns, &[Runs(0)], (12, 5, 1), &[(1, 5), (2, 5), (1, 2)]),
    ];
    for (code, threads, bounds, expected) in cases {
        assert_eq!(rt;
            slices(rt.alloc(), code, threads, bounds)?,
            Some(padded(expected))
        );
    }
    Ok(())
}

#[test]
fn epochs_that_end(rt: HostRuntime) -> Result<(), Fail> {
    let exit = [EXIT_ALL, ECALL, JUMP];
    let last = [EXIT_THREAD, ECALL, JUMP];
    // lui x10, 11
    let wait = [0x0001_1537, WAIT, ECALL, JUMP];
    // lui x11, 11; lui x12, 1; then over and over: addi x10, x0, 1, a write of 4,096 bytes, and a jump back by 8
    let write = [
        0x0001_15b7,
        0x0000_1637,
        WRITE,
        0x0010_0513,
        ECALL,
        0xff9f_f06f,
        JUMP,
    ];
    // addi x12, x12, -1: the same with 4,095 bytes
    let shorter = [
        0x0001_15b7,
        0x0000_1637,
        0xfff6_0613,
        WRITE,
        0x0010_0513,
        ECALL,
        0xff9f_f06f,
    ];
    let trap = End::Trap {
        tid: Tid(1),
        cause: 2,
        value: 0,
    };
    // code and threads; the steps of a slice, of an epoch of at most 1,000; the slices, bytes, steps and the end
    let cases: [(&[u32], &[Stands], u32, &[(u16, u32)], usize, u64, End); 8] = [
        (&exit, &[Runs(0), Runs(8)], 3, &[(1, 2)], 0, 2, End::Exit(0)),
        (
            &exit,
            &[Runs(8), Runs(0)],
            3,
            &[(1, 3), (2, 2)],
            0,
            5,
            End::Exit(0),
        ),
        (&last, &[Runs(0), Gone], 3, &[(1, 2)], 0, 2, End::Exit(0)),
        (
            &wait,
            &[Runs(0), Waits(12)],
            9,
            &[(1, 3)],
            0,
            3,
            End::Deadlock,
        ),
        (&[JUMP], &[Runs(4), Runs(0)], 3, &[(1, 1)], 0, 1, trap),
        (&write, &[Runs(0)], 999, &[(1, 50)], 65_536, 50, End::None),
        (
            &write,
            &[Runs(0), Runs(24)],
            20,
            &[(1, 20), (2, 20), (1, 20), (2, 20), (1, 10)],
            65_536,
            90,
            End::None,
        ),
        (&shorter, &[Runs(0)], 999, &[(1, 54)], 69_615, 54, End::None),
    ];
    for (code, threads, slice, slices, written, steps, end) in cases {
        let case = Case {
            code,
            threads,
            end: End::None,
            steps: 1000,
            slice,
            first: 1,
        };
        let Some(found) = ran(rt.alloc(), case)? else {
            return Err("it has run".into());
        };
        assert_eq!(rt; found.slices, padded(slices));
        assert_eq!(rt;
            (found.written, found.steps, found.end),
            (written, steps, end)
        );
    }
    Ok(())
}

// A reservation doesn't outlive its slice: sc.w after its end fails, with 1 in x10.
#[test]
fn reservations_are_dropped(rt: HostRuntime) -> Result<(), Fail> {
    // lui x11, 11; lr.w x10, (x11); sc.w x10, x12, (x11)
    let code = [0x0001_15b7, 0x1005_a52f, 0x18c5_a52f, JUMP];
    for (slice, x10) in [(2, 1), (3, 0)] {
        let case = Case {
            code: &code,
            threads: &[Runs(0)],
            end: End::None,
            steps: 4,
            slice,
            first: 1,
        };
        assert_eq!(rt; ran(rt.alloc(), case)?.map(|o| o.x10), Some(x10));
    }
    Ok(())
}

#[test]
fn a_guest_that_can_step(rt: HostRuntime) -> Result<(), Fail> {
    let alloc = rt.alloc();
    let cases: [(&[Stands], End, bool); 4] = [
        (&[Gone, Runs(0)], End::None, true),
        (&[Gone, Runs(0)], End::Exit(0), false),
        (&[Gone, Waits(0)], End::None, false),
        (&[], End::None, false),
    ];
    for (threads, end, can) in cases {
        let state = state_of(alloc, &[JUMP], threads, end)?;
        assert_eq!(rt; can_step(&state, &nothing_known(alloc)?), can);
        assert!(rt; !input_due(&state, &nothing_known(alloc)?));
    }
    Ok(())
}
