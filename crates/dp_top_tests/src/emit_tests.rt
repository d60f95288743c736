// Each emit of a recording of nine epochs fails in turn, by itself and with all after it.
//
// The sixth epoch's output has 3 bytes, and the report's line has 117. All of an epoch is on the disk for good before a
// byte of it is sent, so each image is the same.
use crate::stopped::{Faults, Plays, plays, recording};
use dp_report::Status;
use std::alloc::Global;
use std::sync::Wait;
use std::test::Fail;
use std::thread::Threads;
use test_files::WRITES_WORDS;
use test_worlds::Failing;

// What a recording came to, how many bytes it sent and left, and whether they are the first of the output and of the
// journal.
#[derive(Clone, Copy, Debug, PartialEq, Eq)]
struct Came {
    status: Status,
    sent: usize,
    len: usize,
    are_first: bool,
}

// The journal of nine epochs has 314 bytes, and that of the first six 254: the last byte is a closed gate.
fn wanted(number: u64, piece: u64) -> Came {
    let before = number.saturating_sub(1).min(200) * piece.clamp(1, 200);
    Came {
        status: Status::OutputFault,
        sent: before.min(3) as usize,
        len: if before < 3 { 254 } else { 314 },
        are_first: true,
    }
}

// A recording in epochs of one step, where these emits fail, of which one takes so many bytes at most. Its journal is
// looked at beside a whole one.
fn emits_failing<R: Threads + Wait + Sync>(
    rt: &R,
    alloc: Global,
    sink: Failing,
    piece: u32,
    whole: &[u8],
) -> Result<Came, Fail> {
    let faults = Faults {
        disk: Failing::Never,
        sink,
        piece,
    };
    let asked = ["dpcli", "record", "g", "j", "--epoch", "1"];
    let seen = recording(rt, alloc, &asked, &WRITES_WORDS, &[], faults)?;
    let len = seen.kept.len();
    let (records, _) = whole.split_at(len.saturating_sub(1).min(whole.len()));
    let mut journal = records.to_vec(alloc)?;
    journal.push(0)?;
    Ok(Came {
        status: seen.status,
        sent: seen.sent.len(),
        len,
        are_first: b"hi\n".starts_with(&seen.sent)
            && seen.kept.as_slice() == journal.as_slice()
            && seen.read.as_slice() == journal.as_slice()
            && seen.marked.as_slice() == journal.as_slice(),
    })
}

// The journal of nine epochs, from a recording that meets no fault.
fn whole<R: Threads + Wait + Sync>(rt: &R, alloc: Global) -> Result<Vec<u8>, Fail> {
    let faults = Faults {
        disk: Failing::Never,
        sink: Failing::Never,
        piece: 4096,
    };
    let asked = ["dpcli", "record", "g", "j", "--epoch", "1"];
    let seen = recording(rt, alloc, &asked, &WRITES_WORDS, &[], faults)?;
    if seen.status != Status::Ok || seen.sent.as_slice() != b"hi\n".as_slice() {
        return Err("a recording that meets no fault".into());
    }
    Ok(seen.marked)
}

#[test]
fn journals_of_six_epochs_and_of_nine(rt: HostRuntime) -> Result<(), Fail> {
    let all = whole(&rt, rt.alloc())?;
    let (first, _) = all.split_at(all.len().min(253));
    let six: Plays = (Status::Ok, 6, 3);
    let nine: Plays = (Status::Ok, 9, 3);
    assert_eq!(rt; all.len(), 314);
    assert_eq!(rt; plays(&rt, rt.alloc(), first, b"hi\n", b"hi\n")?, six);
    assert_eq!(rt; plays(&rt, rt.alloc(), &all, b"hi\n", b"hi\n")?, nine);
    Ok(())
}

// With the defaults all nine steps are one epoch. Its record is on the disk, and nothing of its output was sent.
#[test]
fn first_emit_of_one_epoch(rt: HostRuntime) -> Result<(), Fail> {
    let faults = Faults {
        disk: Failing::Never,
        sink: Failing::At(1),
        piece: 4096,
    };
    let asked = ["dpcli", "record", "g", "j"];
    let seen = recording(&rt, rt.alloc(), &asked, &WRITES_WORDS, &[], faults)?;
    let came = (seen.status, seen.sent.len(), seen.kept.len());
    assert_eq!(rt; came, (Status::OutputFault, 0, 154));
    let one: Plays = (Status::Ok, 1, 3);
    assert_eq!(rt; plays(&rt, rt.alloc(), &seen.kept, b"", b"hi\n")?, one);
    Ok(())
}

// 3 emits of the output, and 117 of the line.
#[test]
fn each_emit_of_one_byte(rt: HostRuntime) -> Result<(), Fail> {
    let all = whole(&rt, rt.alloc())?;
    for number in 1..=120 {
        let once = emits_failing(&rt, rt.alloc(), Failing::At(number), 1, &all)?;
        assert_eq!(rt; once, wanted(number, 1), "emit {number}");
    }
    Ok(())
}

#[test]
fn each_emit_of_one_byte_and_all_behind(rt: HostRuntime) -> Result<(), Fail> {
    let all = whole(&rt, rt.alloc())?;
    for number in 1..=120 {
        let ever = emits_failing(&rt, rt.alloc(), Failing::From(number), 1, &all)?;
        assert_eq!(rt; ever, wanted(number, 1), "emits from {number}");
    }
    Ok(())
}

#[test]
fn each_emit_of_more(rt: HostRuntime) -> Result<(), Fail> {
    let all = whole(&rt, rt.alloc())?;
    // bytes of an emit at most, and how many emits there are: 2 of the output and 59 of the line, or one of each
    for (piece, last) in [(2, 61), (4096, 2)] {
        for number in 1..=last {
            let once = emits_failing(&rt, rt.alloc(), Failing::At(number), piece, &all)?;
            assert_eq!(rt; once, wanted(number, u64::from(piece)), "emit {number}");
            let ever = emits_failing(&rt, rt.alloc(), Failing::From(number), piece, &all)?;
            assert_eq!(rt;
                ever,
                wanted(number, u64::from(piece)),
                "emits from {number}"
            );
        }
    }
    Ok(())
}

// After the last emit nothing fails.
#[test]
fn emits_behind_the_last(rt: HostRuntime) -> Result<(), Fail> {
    let all = whole(&rt, rt.alloc())?;
    for (piece, last) in [(1, 120), (2, 61), (4096, 2)] {
        let seen = emits_failing(&rt, rt.alloc(), Failing::From(last + 1), piece, &all)?;
        let ok = Came {
            status: Status::Ok,
            sent: 3,
            len: 314,
            are_first: true,
        };
        assert_eq!(rt; seen, ok, "of {piece} bytes");
    }
    Ok(())
}
