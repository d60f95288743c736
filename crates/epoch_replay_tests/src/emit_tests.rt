// Emits that fail, by several numbers of workers.
use crate::replays::{by_all, by_workers};
use epoch_replay::ReplayFault;
use std::test::Fail;
use test_worlds::Failing;

// Each epoch is a stretch of its own, and an emit takes one byte. The seventh takes the first byte of the report's line.
#[test]
fn each_byte_of_marked_epochs(rt: HostRuntime) -> Result<(), Fail> {
    let alloc = rt.alloc();
    for number in 1..=7u64 {
        let came = by_all(&rt, alloc, b"emememememex", Failing::At(number), 1)?;
        assert_eq!(rt; came, (Err(ReplayFault::OutputFault), number as usize - 1));
    }
    let came = by_all(&rt, alloc, b"emememememex", Failing::From(3), 1)?;
    assert_eq!(rt; came, (Err(ReplayFault::OutputFault), 2));
    let came = by_all(&rt, alloc, b"emememememex", Failing::At(1000), 1)?;
    assert_eq!(rt; came, (Ok(7), 6));
    Ok(())
}

// How many workers, which emit fails, whether it is one that was made, and how many bytes are sent.
type Emit = (u32, u64, bool, usize);

// A part's output is sent by one emit: by one worker and by 64 that of one stretch, by two that of three, by three that
// of two. The last emit is the report's line.
fn emits() -> [Emit; 25] {
    [
        (1, 1, true, 0),
        (1, 2, true, 1),
        (1, 3, true, 2),
        (1, 4, true, 3),
        (1, 5, true, 4),
        (1, 6, true, 5),
        (1, 7, true, 6),
        (1, 8, false, 6),
        (2, 1, true, 0),
        (2, 2, true, 3),
        (2, 3, true, 6),
        (2, 4, false, 6),
        (3, 1, true, 0),
        (3, 2, true, 2),
        (3, 3, true, 4),
        (3, 4, true, 6),
        (3, 5, false, 6),
        (64, 1, true, 0),
        (64, 2, true, 1),
        (64, 3, true, 2),
        (64, 4, true, 3),
        (64, 5, true, 4),
        (64, 6, true, 5),
        (64, 7, true, 6),
        (64, 8, false, 6),
    ]
}

#[test]
fn each_emit_of_parts(rt: HostRuntime) -> Result<(), Fail> {
    let alloc = rt.alloc();
    for (workers, number, made, sent) in emits() {
        let answer = if made {
            Err(ReplayFault::OutputFault)
        } else {
            Ok(7)
        };
        let came = by_workers(&rt, alloc, b"emememememex", workers, Failing::At(number))?;
        assert_eq!(rt; came, (answer, sent), "{workers} workers, emit {number}");
    }
    Ok(())
}

// Stretches of two epochs, where an emit takes one byte.
#[test]
fn each_byte_of_stretches(rt: HostRuntime) -> Result<(), Fail> {
    let alloc = rt.alloc();
    for number in 1..=6u64 {
        let came = by_all(&rt, alloc, b"eemeemeex", Failing::At(number), 1)?;
        assert_eq!(rt; came, (Err(ReplayFault::OutputFault), number as usize - 1));
    }
    // bytes of the report's line
    for number in [7u64, 60] {
        let came = by_all(&rt, alloc, b"eemeemeex", Failing::At(number), 1)?;
        assert_eq!(rt; came, (Err(ReplayFault::OutputFault), 6));
    }
    Ok(())
}
