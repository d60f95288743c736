// Next turns worked out by hand. Page 10 may only be executed, page 11 only be read and page 12 only be written, the
// last page that may be mapped too, and nothing is mapped after them. The instruction is at 00010000; its rs1 is x5,
// its rs2 x6, which is 1, and its rd x7.
use crate::mapping::map;
use dp_base::OutOfMemory;
use guest_kernel::{Hart, Pages, Thread};
use std::alloc::Global;
use std::test::Fail;
use turn_peek::calls::{A0, A1, A2, A7, CLOCK, EBADF, EFAULT, READ};
use turn_peek::{Peek, peek_thread, read_at_once};

const CODE: u32 = 0x0001_0000;

const ECALL: u32 = 0x0000_0073;

const ADDI: u32 = 0x0012_8393;

fn pages_of(alloc: Global, word: u32) -> Result<Pages, OutOfMemory> {
    let mut pages = Pages::new(alloc)?;
    pages.map_above(0x10, 1, &word.to_le_bytes())?;
    map(&mut pages, 0x11, 4)?;
    map(&mut pages, 0x12, 2)?;
    map(&mut pages, 0xffffe, 2)?;
    Ok(pages)
}

fn hart_at(pc: u32, x5: u32) -> Hart {
    let mut hart = Hart {
        pc,
        x: [7; 31],
        held: Some(0x0001_2000),
    };
    hart.set_register(5, x5);
    hart.set_register(6, 1);
    hart
}

// The next turn of a hart at this pc, with this x5 and the reservation of 00012000.
fn at_pc(alloc: Global, pc: u32, word: u32, x5: u32) -> Result<Peek, OutOfMemory> {
    let pages = pages_of(alloc, word)?;
    let thread = Thread::Runs {
        hart: hart_at(pc, x5),
        clear: 0,
    };
    Ok(peek_thread(&thread, &pages, 0))
}

#[test]
fn instructions(rt: HostRuntime) -> Result<(), Fail> {
    // the word, x5, and what the turn is
    let cases = [
        // LUI, AUIPC, ADDI, ADD, FENCE
        (0x0000_03b7, 0, Peek::Plain),
        (0x0000_0397, 0, Peek::Plain),
        (0x0012_8393, 0, Peek::Plain),
        (0x0062_83b3, 0, Peek::Plain),
        (0x0000_000f, 0, Peek::Plain),
        // ECALL, EBREAK, no instruction
        (0x0000_0073, 0, Peek::Sync),
        (0x0010_0073, 0, Peek::Sync),
        (0x0000_0000, 0, Peek::Sync),
        // JAL by 8 and by 6
        (0x0080_03ef, 0, Peek::Plain),
        (0x0060_03ef, 0, Peek::Sync),
        // JALR to 4, 5, 6 and 7, whose lowest bit is cleared
        (0x0002_83e7, 4, Peek::Plain),
        (0x0002_83e7, 5, Peek::Plain),
        (0x0002_83e7, 6, Peek::Sync),
        (0x0002_83e7, 7, Peek::Sync),
        // BEQ by 8, and by 6 where it isn't taken and where it is
        (0x0062_8463, 1, Peek::Plain),
        (0x0062_8363, 2, Peek::Plain),
        (0x0062_8363, 1, Peek::Sync),
        // BNE, BLT, BGE, BLTU and BGEU by 6, with 1 and with -1 against 1
        (0x0062_9363, 1, Peek::Plain),
        (0x0062_9363, 0xffff_ffff, Peek::Sync),
        (0x0062_c363, 1, Peek::Plain),
        (0x0062_c363, 0xffff_ffff, Peek::Sync),
        (0x0062_d363, 1, Peek::Sync),
        (0x0062_d363, 0xffff_ffff, Peek::Plain),
        (0x0062_e363, 0, Peek::Sync),
        (0x0062_e363, 0xffff_ffff, Peek::Plain),
        (0x0062_f363, 0, Peek::Plain),
        (0x0062_f363, 0xffff_ffff, Peek::Sync),
    ];
    for (word, x5, expected) in cases {
        let found = at_pc(rt.alloc(), CODE, word, x5)?;
        assert_eq!(rt; found, expected, "{word:08x} with {x5:08x}");
    }
    Ok(())
}

#[test]
fn accesses(rt: HostRuntime) -> Result<(), Fail> {
    // the word, the address, and what the turn is
    let cases = [
        // LB and LBU at both ends of page 11
        (0x0002_8383, 0x0001_0fff, Peek::Sync),
        (0x0002_8383, 0x0001_1000, Peek::Plain),
        (0x0002_c383, 0x0001_1fff, Peek::Plain),
        (0x0002_c383, 0x0001_2000, Peek::Sync),
        // LH, LHU and LW up to its end and past it
        (0x0002_9383, 0x0001_1ffe, Peek::Plain),
        (0x0002_9383, 0x0001_1fff, Peek::Sync),
        (0x0002_d383, 0x0001_1ffe, Peek::Plain),
        (0x0002_d383, 0x0001_1fff, Peek::Sync),
        (0x0002_a383, 0x0001_1ffc, Peek::Plain),
        (0x0002_a383, 0x0001_1ffd, Peek::Sync),
        (0x0002_a383, 0xffff_fffe, Peek::Sync),
        // SB, SH and SW at both ends of page 12
        (0x0062_8023, 0x0001_1fff, Peek::Sync),
        (0x0062_8023, 0x0001_2000, Peek::Plain),
        (0x0062_8023, 0x0001_2fff, Peek::Plain),
        (0x0062_8023, 0x0001_3000, Peek::Sync),
        (0x0062_9023, 0x0001_2ffe, Peek::Plain),
        (0x0062_9023, 0x0001_2fff, Peek::Sync),
        (0x0062_a023, 0x0001_2ffc, Peek::Plain),
        (0x0062_a023, 0x0001_2ffd, Peek::Sync),
        // LR.W, AMOADD.W and AMOMAXU.W, also where they trap
        (0x1002_a3af, 0x0001_1000, Peek::Sync),
        (0x1002_a3af, 0x0001_1002, Peek::Sync),
        (0x0062_a3af, 0x0001_2000, Peek::Sync),
        (0xe062_a3af, 0x0001_3000, Peek::Sync),
        // SC.W where it is held, where it isn't, and where it traps
        (0x1862_a3af, 0x0001_2000, Peek::Sc),
        (0x1862_a3af, 0x0001_2ffc, Peek::Sc),
        (0x1862_a3af, 0x0001_2002, Peek::Sync),
        (0x1862_a3af, 0x0001_1ffc, Peek::Sync),
        (0x1862_a3af, 0x0001_3000, Peek::Sync),
    ];
    for (word, address, expected) in cases {
        let found = at_pc(rt.alloc(), CODE, word, address)?;
        assert_eq!(rt; found, expected, "{word:08x} at {address:08x}");
    }
    Ok(())
}

#[test]
fn program_counters(rt: HostRuntime) -> Result<(), Fail> {
    let cases = [
        (CODE, Peek::Plain),
        (CODE + 2, Peek::Sync),
        (0x0001_1000, Peek::Sync),
        (0x0001_3000, Peek::Sync),
        (0xffff_fffc, Peek::Sync),
    ];
    for (pc, expected) in cases {
        let found = at_pc(rt.alloc(), pc, ADDI, 0)?;
        assert_eq!(rt; found, expected, "{pc:08x}");
    }
    Ok(())
}

#[test]
fn threads(rt: HostRuntime) -> Result<(), Fail> {
    let hart = hart_at(CODE, 0);
    let waits = Thread::Waits {
        addr: 4,
        hart,
        clear: 0,
    };
    let cases = [
        (Thread::Runs { hart, clear: 0 }, Peek::Plain),
        (waits, Peek::NotRunnable),
        (Thread::Gone(0), Peek::NotRunnable),
    ];
    let pages = pages_of(rt.alloc(), ADDI)?;
    for (thread, expected) in cases {
        let found = peek_thread(&thread, &pages, 0);
        assert_eq!(rt; found, expected);
    }
    Ok(())
}

// What a call is, and what it answers at once if it is a read.
fn at_call(
    alloc: Global,
    call: u32,
    arguments: [u32; 3],
    input: u64,
) -> Result<(Peek, Option<u32>), OutOfMemory> {
    let pages = pages_of(alloc, ECALL)?;
    let mut hart = hart_at(CODE, 0);
    hart.set_register(A0, arguments[0]);
    hart.set_register(A1, arguments[1]);
    hart.set_register(A2, arguments[2]);
    hart.set_register(A7, call);
    let thread = Thread::Runs { hart, clear: 0 };
    Ok((
        peek_thread(&thread, &pages, input),
        read_at_once(&hart, &pages),
    ))
}

#[test]
fn calls(rt: HostRuntime) -> Result<(), Fail> {
    let read = |place, max| Peek::Read { place, max };
    // the call, fd, addr and len, where the input is, what the turn is, and what a read answers at once
    let cases = [
        (READ, [1, 0x12000, 4], 5, Peek::Sync, Some(EBADF)),
        (READ, [0xffff_ffff, 0x12000, 0], 5, Peek::Sync, Some(EBADF)),
        (READ, [0, 0x50000, 0], 5, Peek::Sync, Some(0)),
        (READ, [0, 0x12000, 1], 0, read(0, 1), None),
        (READ, [0, 0x12fff, 1], 5, read(5, 1), None),
        (READ, [0, 0x12fff, 2], 5, Peek::Sync, Some(EFAULT)),
        (READ, [0, 0x11fff, 2], 5, Peek::Sync, Some(EFAULT)),
        (READ, [0, 0x11000, 1], 5, Peek::Sync, Some(EFAULT)),
        (
            READ,
            [0, 0x12000, 4096],
            u64::MAX,
            read(u64::MAX, 4096),
            None,
        ),
        (READ, [0, 0x12000, 4097], 5, read(5, 4096), None),
        (READ, [0, 0x12000, u32::MAX], 0, read(0, 4096), None),
        (READ, [0, 0x12001, 4096], 0, Peek::Sync, Some(EFAULT)),
        (READ, [0, 0xffff_eff0, 16], 5, read(5, 16), None),
        (READ, [0, 0xffff_eff0, 17], 5, Peek::Sync, Some(EFAULT)),
        (READ, [0, 0xffff_f000, 1], 5, Peek::Sync, Some(EFAULT)),
        (READ, [0, 0xffff_ffff, 2], 5, Peek::Sync, Some(EFAULT)),
        (CLOCK, [1, 0, 0], 0, Peek::Clock, Some(EBADF)),
        (CLOCK, [0, 0x12000, 4], u64::MAX, Peek::Clock, None),
        (2, [0, 0x12000, 4], 5, Peek::Sync, None),
        (11, [0, 0x12000, 4], 5, Peek::Sync, None),
    ];
    for (call, arguments, input, turn, at_once) in cases {
        let found = at_call(rt.alloc(), call, arguments, input)?;
        assert_eq!(rt;
            found,
            (turn, at_once),
            "{call} at {input} with {arguments:?}"
        );
    }
    Ok(())
}
