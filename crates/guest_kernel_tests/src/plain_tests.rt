// Stretches of plain turns, each worked out by hand. Page 10 may be read, written and executed, and no other is mapped.
// The word of a case is at 00010004, between `addi x8, x8, 1` before it, two more after it and an EBREAK after those.
ghost use Rattle.std.specs.Prelude.{◌≡◌, IfOk};

use dp_base::Tid;
use guest_kernel::{End, Hart, Pages, State, Thread, Threads};
use std::alloc::Global;
use std::test::Fail;

const CODE: [u8; 20] = [
    0x13, 4, 0x14, 0, 0x13, 4, 0x14, 0, 0x13, 4, 0x14, 0, 0x13, 4, 0x14, 0, 0x73, 0, 0x10, 0,
];

const ADDI: u32 = 0x0014_0413;

// How thread 1 and its guest stand.
#[derive(Clone, Copy, Debug, PartialEq, Eq)]
enum Stand {
    Runs,
    Waits,
    Gone,
    Ended,
}

// Thread 1 at 00010000. x5 is 0001000c, where the last `addi` is, and x6 is an ECALL.
fn hart() -> Hart {
    let mut hart = Hart {
        pc: 0x0001_0000,
        x: [0; 31],
        held: Some(0x0001_000c),
    };
    hart.set_register(5, 0x0001_000c);
    hart.set_register(6, 0x73);
    hart
}

fn thread_of(stand: Stand) -> Thread {
    match stand {
        Stand::Waits => Thread::Waits {
            addr: 4,
            hart: hart(),
            clear: 0,
        },
        Stand::Gone => Thread::Gone(0),
        _ => Thread::Runs {
            hart: hart(),
            clear: 0,
        },
    }
}

fn end_of(stand: Stand) -> End {
    match stand {
        Stand::Ended => End::Exit(0),
        _ => End::None,
    }
}

fn state_of(alloc: Global, stand: Stand, word: u32) -> Result<State, Fail>
    ensures { IfOk result (λ state. state.steps ≡ 5) }
{
    let mut pages = Pages::new(alloc)?;
    pages.map_above(0x10, 7, &CODE)?;
    pages.write_range(0x0001_0004, &word.to_le_bytes())?;
    Ok(State {
        pages,
        heap: 0x0001_1000,
        brk: 0x0001_1000,
        threads: Threads::one(alloc, thread_of(stand))?,
        input: 0,
        steps: 5,
        end: end_of(stand),
    })
}

fn pc_of(state: &State) -> Option<u32> {
    match state.threads.get(Tid(1)) {
        Some(Thread::Runs { hart, .. }) => Some(hart.pc),
        _ => None,
    }
}

// How many turns a thread takes, the guest's step count after them, and the pc of thread 1 if it runs.
fn taken(
    alloc: Global,
    stand: Stand,
    word: u32,
    tid: u16,
    limit: u32,
) -> Result<(u32, u64, Option<u32>), Fail> {
    let mut state = state_of(alloc, stand, word)?;
    let taken = state.go_plain(Tid(tid), limit);
    Ok((taken, state.steps, pc_of(&state)))
}

// How the guest stands, the word, the thread, the limit, how many turns are taken, and where thread 1 stands after
// them.
fn cases() -> [(Stand, u32, u16, u32, u32, Option<u32>); 29] {
    let end = Some(0x0001_0010);
    let word = Some(0x0001_0004);
    [
        // ADDI, up to each limit and to the EBREAK
        (Stand::Runs, ADDI, 1, 0, 0, Some(0x0001_0000)),
        (Stand::Runs, ADDI, 1, 1, 1, word),
        (Stand::Runs, ADDI, 1, 3, 3, Some(0x0001_000c)),
        (Stand::Runs, ADDI, 1, 4, 4, end),
        (Stand::Runs, ADDI, 1, u32::MAX, 4, end),
        // FENCE; LW, also where no page is; SB where no page is
        (Stand::Runs, 0x0000_000f, 1, 9, 4, end),
        (Stand::Runs, 0x0002_a383, 1, 9, 4, end),
        (Stand::Runs, 0x0000_2383, 1, 9, 1, word),
        (Stand::Runs, 0x0060_0023, 1, 9, 1, word),
        // SW of the ECALL over the last ADDI
        (Stand::Runs, 0x0062_a023, 1, 9, 3, Some(0x0001_000c)),
        // JAL by 8, by 6 and to 00020004, where no page is
        (Stand::Runs, 0x0080_03ef, 1, 9, 3, end),
        (Stand::Runs, 0x0060_03ef, 1, 9, 1, word),
        (Stand::Runs, 0x0001_03ef, 1, 9, 2, Some(0x0002_0004)),
        // ECALL, EBREAK
        (Stand::Runs, 0x0000_0073, 1, 9, 1, word),
        (Stand::Runs, 0x0010_0073, 1, 9, 1, word),
        // no instruction: zeros, ones, an AMO of a byte, OP with funct7 1
        (Stand::Runs, 0x0000_0000, 1, 9, 1, word),
        (Stand::Runs, 0xffff_ffff, 1, 9, 1, word),
        (Stand::Runs, 0x0062_83af, 1, 9, 1, word),
        (Stand::Runs, 0x0262_83b3, 1, 9, 1, word),
        // LR.W, SC.W of what is held, AMOADD.W, AMOMAXU.W
        (Stand::Runs, 0x1002_a3af, 1, 9, 1, word),
        (Stand::Runs, 0x1862_a3af, 1, 9, 1, word),
        (Stand::Runs, 0x0062_a3af, 1, 9, 1, word),
        (Stand::Runs, 0xe062_a3af, 1, 9, 1, word),
        // a thread that waits, that has exited, that was never made; a guest that has ended
        (Stand::Waits, ADDI, 1, 9, 0, None),
        (Stand::Gone, ADDI, 1, 9, 0, None),
        (Stand::Runs, ADDI, 2, 9, 0, Some(0x0001_0000)),
        (Stand::Runs, ADDI, 0, 9, 0, Some(0x0001_0000)),
        (Stand::Ended, ADDI, 1, 9, 0, Some(0x0001_0000)),
        (Stand::Ended, 0x0000_0073, 1, 0, 0, Some(0x0001_0000)),
    ]
}

#[test]
fn plain_stretches(rt: HostRuntime) -> Result<(), Fail> {
    for (stand, word, tid, limit, count, pc) in cases() {
        let found = taken(rt.alloc(), stand, word, tid, limit)?;
        assert_eq!(rt;
            found,
            (count, 5 + u64::from(count), pc),
            "{word:08x}, at most {limit}"
        );
    }
    Ok(())
}
