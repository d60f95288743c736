// Epochs by the hints of offers. Of threads that share no word but by steps that synchronise, each ends in the state
// that is offered.
use crate::cases::{Case, followed};
use crate::guests::*;
use std::test::Fail;

// Two threads that share nothing, and two that add to the same word.
#[test]
fn steps_that_synchronise(rt: HostRuntime) -> Result<(), Fail> {
    let alloc = rt.alloc();
    assert_eq!(rt;
        followed(&rt, alloc, &PRIVATE, Case::of_two(5, 100, 5))?,
        (4, 4, 4)
    );
    assert_eq!(rt;
        followed(&rt, alloc, &COUNTS, Case::of_two(5, 600, 5))?,
        (4, 4, 4)
    );
    assert_eq!(rt;
        followed(&rt, alloc, &COUNTS, Case::of_two(0, 60, 5))?,
        (4, 4, 4)
    );
    Ok(())
}

// Threads that are made, exit, wait and are woken in a stretch.
#[test]
fn calls(rt: HostRuntime) -> Result<(), Fail> {
    let alloc = rt.alloc();
    assert_eq!(rt;
        followed(&rt, alloc, &EXITS_FIRST, Case::of_two(4, 40, 5))?,
        (4, 4, 4)
    );
    assert_eq!(rt;
        followed(&rt, alloc, &EXITS_FIRST, Case::of_two(0, 9, 9))?,
        (8, 8, 8)
    );
    assert_eq!(rt;
        followed(&rt, alloc, &WAITS_FIRST, Case::of_two(6, 60, 5))?,
        (4, 4, 4)
    );
    assert_eq!(rt;
        followed(&rt, alloc, &WAITS_FIRST, Case::of_two(0, 7, 9))?,
        (8, 8, 8)
    );
    Ok(())
}

// Two threads exit at once, for both of which a third one waits. It looks for the second by a load, before or after
// that has exited.
#[test]
fn exits(rt: HostRuntime) -> Result<(), Fail> {
    let alloc = rt.alloc();
    assert_eq!(rt;
        followed(&rt, alloc, &TWO_EXIT, Case::of_two(15, 60, 5))?,
        (4, 4, 4)
    );
    assert_eq!(rt;
        followed(
            &rt,
            alloc,
            &TWO_EXIT,
            Case {
                workers: 1,
                ..Case::of_two(15, 60, 5)
            }
        )?,
        (4, 4, 4)
    );
    assert_eq!(rt;
        followed(&rt, alloc, &TWO_EXIT, Case::of_two(0, 7, 9))?,
        (8, 8, 8)
    );
    Ok(())
}

// Four threads that share a word under a lock of LR, SC, wait and wake. A schedule may lose an SC that the race didn't,
// so only the hints of one worker are sure to be followed to the end.
#[test]
fn locks(rt: HostRuntime) -> Result<(), Fail> {
    let alloc = rt.alloc();
    let case = Case {
        workers: 1,
        ..Case::of_two(0, 60, 16)
    };
    let (count, whole, same) = followed(&rt, alloc, &LOCKED, case)?;
    assert!(rt; count > 2 && whole == count && same == count);
    let case = Case {
        workers: 3,
        ..Case::of_two(0, 60, 16)
    };
    let (count, whole, _same) = followed(&rt, alloc, &LOCKED, case)?;
    assert!(rt; count > 2 && whole == count);
    Ok(())
}

// 64 threads, of which 63 are made.
#[test]
fn many_threads(rt: HostRuntime) -> Result<(), Fail> {
    let alloc = rt.alloc();
    let case = Case {
        workers: 4,
        ..Case::of_two(506, 640, 4)
    };
    assert_eq!(rt; followed(&rt, alloc, &MANY, case)?, (3, 3, 3));
    assert_eq!(rt;
        followed(&rt, alloc, &MANY, Case::of_two(0, 700, 3))?,
        (2, 2, 2)
    );
    Ok(())
}
