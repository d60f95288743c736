// Guests of which two threads come to a trap at once.
use crate::cases::{Case, count_of};
use std::alloc::Global;
use std::test::Fail;
use std::thread::Threads;

// An instruction, and how many stretches of a step for each thread come before the one with the trap. The trap is the
// second step, and the third if the instruction goes to a page that isn't there.
type Row = (u32, usize);

fn rows() -> [Row; 12] {
    [
        // a word that is no instruction, and EBREAK
        (0x0000_0000, 1),
        (0x0010_0073, 1),
        // LW and SW, at 00000000
        (0x0000_2303, 1),
        (0x0060_2023, 1),
        // JALR to 00000000 and to 00000002
        (0x0000_0067, 2),
        (0x0020_0067, 1),
        // LR, SC and AMOADD at 00000000
        (0x1000_232f, 1),
        (0x1860_23af, 1),
        (0x0060_23af, 1),
        // LR, SC and AMOADD at 00000001
        (0x1002_a32f, 1),
        (0x1862_a3af, 1),
        (0x0062_a3af, 1),
    ]
}

// Thread 1 takes five steps, which spawn thread 2. Then both put 1 in x5 and come to the instruction. Returns the
// offers in stretches of a step for each thread, and of three steps for each.
fn offers<R: Threads + Sync>(rt: &R, alloc: Global, word: u32) -> Result<(usize, usize), Fail> {
    let words = [
        0x0000_0517,
        0x0145_0513,
        0xf001_0593,
        0x0040_0893,
        0x0000_0073,
        0x0012_8293,
        word,
    ];
    Ok((
        count_of(rt, alloc, &words, Case::of_two(5, 2, 16))?,
        count_of(rt, alloc, &words, Case::of_two(5, 6, 16))?,
    ))
}

#[test]
fn traps_of_two_threads(rt: HostRuntime) -> Result<(), Fail> {
    let rows = rows();
    for index in 0..12 {
        let (word, stretches) = rows[index];
        assert_eq!(rt;
            offers(&rt, rt.alloc(), word)?,
            (stretches, 0),
            "row {index}"
        );
    }
    Ok(())
}
