// Each emit fails in turn, by itself and with all after it, of a guest that reads its input and of one with two
// threads.
use crate::stopped::{Faults, Left, what_is_left};
use dp_report::Status;
use dp_top_guest_tests::{FILTER, PRODUCER_AND_CONSUMER};
use std::alloc::Global;
use std::sync::Wait;
use std::test::Fail;
use std::thread::Threads;
use test_worlds::Failing;

fn failing(sink: Failing, piece: u32) -> Faults {
    Faults {
        disk: Failing::Never,
        sink,
        piece,
    }
}

// What a recording of the filter comes to where these emits fail, of which one takes so many bytes at most.
fn filtered<R: Threads + Wait + Sync>(
    rt: &R,
    alloc: Global,
    sink: Failing,
    piece: u32,
) -> Result<Left, Fail> {
    let mut words = FILTER.to_vec(alloc)?;
    words.push(4)?;
    let asked = ["dpcli", "record", "g", "j"];
    let pieces: [&[u8]; 2] = [b"abcdef", b"gh"];
    what_is_left(
        rt,
        alloc,
        &asked,
        &words,
        &pieces,
        b"abcdefgh",
        failing(sink, piece),
    )
}

// The same of the guest with a producer and a consumer.
fn produced<R: Threads + Wait + Sync>(
    rt: &R,
    alloc: Global,
    sink: Failing,
    piece: u32,
) -> Result<Left, Fail> {
    let asked = ["dpcli", "record", "g", "j", "--epoch", "17", "--slice", "9"];
    what_is_left(
        rt,
        alloc,
        &asked,
        &PRODUCER_AND_CONSUMER,
        &[],
        b"abc\n",
        failing(sink, piece),
    )
}

// Four epochs, of which the second sends six bytes and the third two. The bytes of an emit at most, the emit that
// fails, the bytes that were sent, and the epochs and the bytes that each image plays to.
#[test]
fn each_emit_of_a_filter(rt: HostRuntime) -> Result<(), Fail> {
    let cases: [(u32, u64, usize, u8, usize); 17] = [
        (1, 1, 0, 2, 6),
        (1, 2, 1, 2, 6),
        (1, 3, 2, 2, 6),
        (1, 4, 3, 2, 6),
        (1, 5, 4, 2, 6),
        (1, 6, 5, 2, 6),
        (1, 7, 6, 3, 8),
        (1, 8, 7, 3, 8),
        (1, 9, 8, 4, 8),
        (2, 1, 0, 2, 6),
        (2, 2, 2, 2, 6),
        (2, 3, 4, 2, 6),
        (2, 4, 6, 3, 8),
        (2, 5, 8, 4, 8),
        (4096, 1, 0, 2, 6),
        (4096, 2, 6, 3, 8),
        (4096, 3, 8, 4, 8),
    ];
    for (piece, number, sent, epochs, bytes) in cases {
        let wanted = Left {
            status: Status::OutputFault,
            disk_failed: false,
            sent,
            plays: [(Status::Ok, epochs, bytes); 3],
        };
        let once = filtered(&rt, rt.alloc(), Failing::At(number), piece)?;
        assert_eq!(rt; once, wanted, "emit {number} of {piece} bytes");
        let ever = filtered(&rt, rt.alloc(), Failing::From(number), piece)?;
        assert_eq!(rt; ever, wanted, "emits from {number} of {piece} bytes");
    }
    Ok(())
}

// Seven epochs, one of which, that isn't said here, sends all four bytes. The bytes of an emit at most, the emit that
// fails, and the bytes that were sent.
#[test]
fn each_emit_of_two_threads(rt: HostRuntime) -> Result<(), Fail> {
    let first = produced(&rt, rt.alloc(), Failing::From(1), 4096)?.plays[0];
    assert_eq!(rt; (first.0, first.2), (Status::Ok, 4));
    assert!(rt; 0 < first.1 && first.1 <= 7);
    let cases: [(u32, u64, usize); 10] = [
        (1, 1, 0),
        (1, 2, 1),
        (1, 3, 2),
        (1, 4, 3),
        (1, 5, 4),
        (2, 1, 0),
        (2, 2, 2),
        (2, 3, 4),
        (4096, 1, 0),
        (4096, 2, 4),
    ];
    for (piece, number, sent) in cases {
        let epochs = if sent < 4 { first.1 } else { 7 };
        let wanted = Left {
            status: Status::OutputFault,
            disk_failed: false,
            sent,
            plays: [(Status::Ok, epochs, 4); 3],
        };
        let once = produced(&rt, rt.alloc(), Failing::At(number), piece)?;
        assert_eq!(rt; once, wanted, "emit {number} of {piece} bytes");
        let ever = produced(&rt, rt.alloc(), Failing::From(number), piece)?;
        assert_eq!(rt; ever, wanted, "emits from {number} of {piece} bytes");
    }
    Ok(())
}
