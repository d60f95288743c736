// Replays of journals that are cut short or changed: their guest, epochs and marks.
use crate::changed_bytes::all_replaced;
use crate::replay_tests::{NINE_STEPS, ONE_OF_WRITES, REPLAY, plays_as, recorded};
use crate::run_tests::{NOTE_OF_EXITS, journal_of_exits};
use dp_report::Status;
use recorder_tests::mark_of_start;
use std::alloc::Global;
use std::sync::Wait;
use std::test::Fail;
use std::thread::Threads;
use test_files::{EXITS, WRITES, replaced};
use test_journals::{THREE_STEPS, journal_of};

// Of nine epochs of one step.
const NINE_OF_WRITES: &[u8] =
    b"epochs 9 squashes 0 steps 9 sent 3 end exit 0 state 5e7e08b662a2648fef71b4527eed27a6cdaea8232e2b564dfcc9f494b1615bd4\n";

// The state in which `EXITS` starts was written out from the format's tables.
const NONE_OF_EXITS: &[u8] =
    b"epochs 0 squashes 0 steps 0 sent 0 end none state 24deeb4ea2cdc0e5de046938dbdc71e3804051b85a62a8a7e1f54761d7041690\n";

// The journal of 126 bytes, cut to each length. Its header has 105.
#[test]
fn journals_cut_short(rt: HostRuntime) -> Result<(), Fail> {
    let journal = journal_of_exits(rt.alloc())?;
    let cases: [(usize, usize, (Status, u8), &[u8]); 3] = [
        (0, 104, (Status::NoJournal, 14), b"dpcli: no journal\n"),
        (105, 124, (Status::Ok, 0), NONE_OF_EXITS),
        (125, 126, (Status::Ok, 0), NOTE_OF_EXITS),
    ];
    for (first, last, answer, noted) in cases {
        for len in first..=last {
            let (cut, _) = journal.split_at(len.min(journal.len()));
            let came = plays_as(&rt, rt.alloc(), REPLAY, cut, b"", noted)?;
            assert_eq!(rt; (came, cut.len()), (answer, len));
        }
    }
    Ok(())
}

// The journal of nine epochs of one step, with another thread's number in the record whose gate is at this place.
fn with_thread<R: Threads + Wait + Sync>(
    rt: &R,
    alloc: Global,
    gate: usize,
    thread: &[u8],
) -> Result<Vec<u8>, Fail> {
    let words = ["dpcli", "record", "g", "j", "--epoch", "1"];
    let (after, _) = recorded(rt, alloc, &words, &WRITES)?;
    if after.bytes().len() != 314 {
        return Err("the journal of nine epochs has 314 bytes".into());
    }
    Ok(replaced(alloc, after.bytes(), gate.min(314) + 10, 2, thread)?)
}

// What that journal plays to.
fn thread_plays_as<R: Threads + Wait + Sync>(
    rt: &R,
    alloc: Global,
    workers: &str,
    gate: usize,
    thread: &[u8],
    sent: &[u8],
    noted: &[u8],
) -> Result<(Status, u8), Fail> {
    let journal = with_thread(rt, alloc, gate, thread)?;
    plays_as(
        rt,
        alloc,
        &["dpcli", "replay", "j", "--workers", workers],
        &journal,
        sent,
        noted,
    )
}

// The header has 133 bytes, and each record 20. The sixth epoch's output is `hi` and a newline.
#[test]
fn an_epoch_of_no_thread(rt: HostRuntime) -> Result<(), Fail> {
    let second: &[u8] = b"dpcli: record 2 does not run\n";
    let seventh: &[u8] = b"dpcli: record 7 does not run\n";
    let cases: [(usize, &[u8], (Status, u8), &[u8], &[u8]); 4] = [
        (153, b"\x09\0", (Status::BadEpoch(2), 10), b"", second),
        (253, b"\x09\0", (Status::BadEpoch(7), 10), b"hi\n", seventh),
        (153, b"\x01\0", (Status::Ok, 0), b"hi\n", NINE_OF_WRITES),
        (253, b"\x01\0", (Status::Ok, 0), b"hi\n", NINE_OF_WRITES),
    ];
    for (gate, thread, answer, sent, noted) in cases {
        for workers in ["1", "2", "64"] {
            let came = thread_plays_as(&rt, rt.alloc(), workers, gate, thread, sent, noted)?;
            assert_eq!(rt; came, answer, "workers {workers}");
        }
    }
    Ok(())
}

// What the journal of 126 bytes plays to, with so many of its bytes from a place on replaced. Nothing is sent on Out.
fn other_plays_as<R: Threads + Wait + Sync>(
    rt: &R,
    alloc: Global,
    place: usize,
    count: usize,
    by: &[u8],
    noted: &[u8],
) -> Result<(Status, u8), Fail> {
    let journal = journal_of_exits(alloc)?;
    let other = replaced(alloc, &journal, place, count, by)?;
    plays_as(rt, alloc, REPLAY, &other, b"", noted)
}

// In each table a row is an offset in the journal of 126 bytes, how many bytes are replaced, by what, and what comes of
// it.
#[test]
fn records_refused(rt: HostRuntime) -> Result<(), Fail> {
    let malformed: &[u8] = b"dpcli: record 1 is malformed\n";
    let second_malformed: &[u8] = b"dpcli: record 2 is malformed\n";
    let bad_epoch: &[u8] = b"dpcli: record 1 does not run\n";
    let second_bad_epoch: &[u8] = b"dpcli: record 2 does not run\n";
    let cases: [(usize, usize, &[u8], (Status, u8), &[u8]); 7] = [
        // the first record of a third kind; an answer that no step takes, a step too many, and another thread
        (110, 1, b"\x02", (Status::BadJournal(1), 9), malformed),
        (
            106,
            19,
            b"\x12\0\0\0\x00\x01\0\0\0\x01\0\x03\0\0\0\x01\0\0\0\x00\0\0",
            (Status::BadEpoch(1), 10),
            bad_epoch,
        ),
        (117, 4, b"\x04\0\0\0", (Status::BadEpoch(1), 10), bad_epoch),
        (115, 2, b"\x02\0", (Status::BadEpoch(1), 10), bad_epoch),
        // a second record: of a third kind, of no byte, and the first once more, where the guest has ended
        (
            125,
            1,
            b"\x01\x01\0\0\0\x02",
            (Status::BadJournal(2), 9),
            second_malformed,
        ),
        (
            125,
            1,
            b"\x01\0\0\0\0",
            (Status::BadJournal(2), 9),
            second_malformed,
        ),
        (
            125,
            0,
            b"\x01\x0f\0\0\0\x00\x01\0\0\0\x01\0\x03\0\0\0\0\0\0\0",
            (Status::BadEpoch(2), 10),
            second_bad_epoch,
        ),
    ];
    for (place, count, by, answer, noted) in cases {
        let came = other_plays_as(&rt, rt.alloc(), place, count, by, noted)?;
        assert_eq!(rt; came, answer);
    }
    Ok(())
}

#[test]
fn guests_and_lists_of_a_journal(rt: HostRuntime) -> Result<(), Fail> {
    let no_guest: &[u8] = b"dpcli: guest refused: 2 NotElf\n";
    let cases: [(usize, usize, &[u8], (Status, u8), &[u8]); 7] = [
        // another guest's first byte; a guest of no byte, before a record of a third kind
        (9, 1, b"\x7e", (Status::BadImage(2), 4), no_guest),
        (
            0,
            111,
            b"\x01DPJ1\0\0\0\0\x01\x0f\0\0\0\x02",
            (Status::BadImage(2), 4),
            no_guest,
        ),
        // an epoch of two steps, and one of one
        (
            117,
            9,
            b"\x02\0\0\0\0\0\0\0\x01\x0f\0\0\0\x00\x01\0\0\0\x01\0\x01\0\0\0\0\0\0\0\x00",
            (Status::Ok, 0),
            b"epochs 2 squashes 0 steps 3 sent 0 end exit 7 state 7721bc1cff3d699bd42bce08f27668ac407481c96f7b1c17878d62bfbd540ce7\n",
        ),
        // the list ends at a closed gate, at one that is neither, and before a body that isn't there whole, also of the
        // greatest length
        (105, 1, b"\x00", (Status::Ok, 0), NONE_OF_EXITS),
        (125, 1, b"\x02", (Status::Ok, 0), NOTE_OF_EXITS),
        (
            125,
            1,
            b"\x01\x02\0\0\0\x02",
            (Status::Ok, 0),
            NOTE_OF_EXITS,
        ),
        (
            125,
            1,
            b"\x01\xff\xff\xff\xff",
            (Status::Ok, 0),
            NOTE_OF_EXITS,
        ),
    ];
    for (place, count, by, answer, noted) in cases {
        let came = other_plays_as(&rt, rt.alloc(), place, count, by, noted)?;
        assert_eq!(rt; came, answer);
    }
    Ok(())
}

// The guest is judged before the records.
#[test]
fn a_bad_guest_before_a_bad_record(rt: HostRuntime) -> Result<(), Fail> {
    let no_guest: &[u8] = b"dpcli: guest refused: 2 NotElf\n";
    let alloc = rt.alloc();
    let journal = journal_of_exits(alloc)?;
    let both = all_replaced(alloc, &journal, &[(110, 1, b"\x02"), (9, 1, b"\x7e")])?;
    let came = plays_as(&rt, rt.alloc(), REPLAY, &both, b"", no_guest)?;
    assert_eq!(rt; came, (Status::BadImage(2), 4));
    Ok(())
}

// The body of a record of `EXITS`.
#[derive(Clone, Copy)]
enum Body {
    // An epoch of thread 1, of three steps, and of nine.
    Three,
    Nine,
    // A mark of the start, of the end, of the start with another byte at the end of the last page, which is 0, and of
    // the end with a step count of 2^63.
    Start,
    End,
    Other,
    Far,
}

use Body::{End, Far, Nine, Other, Start, Three};

// The state in which `EXITS` ends, as a mark: by the format's tables its x17, x10, pc, end and steps are not those of
// the start.
fn mark_of_the_end(alloc: Global) -> Result<Vec<u8>, Fail> {
    let start = mark_of_start(alloc, &EXITS)?;
    all_replaced(
        alloc,
        &start,
        &[
            (101, 4, b"\x01\0\0\0"),
            (73, 4, b"\x07\0\0\0"),
            (29, 4, b"\x60\0\x01\0"),
            (25, 1, b"\x01\x07\0\0\0"),
            (1, 8, b"\x03\0\0\0\0\0\0\0"),
        ],
    )
}

fn bytes_of(alloc: Global, body: Body) -> Result<Vec<u8>, Fail> {
    match body {
        Body::Three => Ok(THREE_STEPS.to_vec(alloc)?),
        Body::Nine => Ok(NINE_STEPS.to_vec(alloc)?),
        Body::Start => Ok(mark_of_start(alloc, &EXITS)?),
        Body::End => mark_of_the_end(alloc),
        Body::Other => {
            let start = mark_of_start(alloc, &EXITS)?;
            Ok(replaced(alloc, &start, 69_879, 1, b"\x01")?)
        }
        Body::Far => {
            let end = mark_of_the_end(alloc)?;
            Ok(replaced(alloc, &end, 1, 8, b"\0\0\0\0\0\0\0\x80")?)
        }
    }
}

// Of a guest's journal with two records of these bodies.
fn two_play_as<R: Threads + Wait + Sync>(
    rt: &R,
    alloc: Global,
    guest: &[u8],
    first: &[u8],
    second: &[u8],
    sent: &[u8],
    noted: &[u8],
) -> Result<(Status, u8), Fail> {
    let journal = journal_of(alloc, guest, &[first, second])?;
    plays_as(rt, alloc, REPLAY, &journal, sent, noted)
}

fn bodies_play_as<R: Threads + Wait + Sync>(
    rt: &R,
    alloc: Global,
    first: Body,
    second: Body,
    noted: &[u8],
) -> Result<(Status, u8), Fail> {
    let first = bytes_of(alloc, first)?;
    let second = bytes_of(alloc, second)?;
    two_play_as(rt, alloc, &EXITS, &first, &second, b"", noted)
}

#[test]
fn marks_judged(rt: HostRuntime) -> Result<(), Fail> {
    let first_wrong: &[u8] = b"dpcli: record 1 is a wrong mark\n";
    let second_wrong: &[u8] = b"dpcli: record 2 is a wrong mark\n";
    let second_bad: &[u8] = b"dpcli: record 2 does not run\n";
    let cases: [(Body, Body, (Status, u8), &[u8]); 8] = [
        (Start, Three, (Status::Ok, 0), NOTE_OF_EXITS),
        // A mark is a record too.
        (Start, Nine, (Status::BadEpoch(2), 10), second_bad),
        (Start, End, (Status::BadMark(2), 15), second_wrong),
        (Three, End, (Status::Ok, 0), NOTE_OF_EXITS),
        (Three, Start, (Status::BadMark(2), 15), second_wrong),
        (End, Three, (Status::BadMark(1), 15), first_wrong),
        (Other, Three, (Status::BadMark(1), 15), first_wrong),
        (Three, Far, (Status::BadMark(2), 15), second_wrong),
    ];
    for (first, second, answer, noted) in cases {
        assert_eq!(rt;
            bodies_play_as(&rt, rt.alloc(), first, second, noted)?,
            answer
        );
    }
    Ok(())
}

// Nothing is run from a mark whose step count is 2^63: its guest would write `hi` and a newline. The mark is of the
// start but for that.
#[test]
fn a_mark_of_too_many_steps(rt: HostRuntime) -> Result<(), Fail> {
    let alloc = rt.alloc();
    let start = mark_of_start(alloc, &WRITES)?;
    let far = replaced(alloc, &start, 1, 8, b"\0\0\0\0\0\0\0\x80")?;
    let journal = journal_of(alloc, &WRITES, &[&far, NINE_STEPS])?;
    let wrong: &[u8] = b"dpcli: record 1 is a wrong mark\n";
    for workers in ["1", "2", "64"] {
        let words = ["dpcli", "replay", "j", "--workers", workers];
        let came = plays_as(&rt, alloc, &words, &journal, b"", wrong)?;
        assert_eq!(rt; came, (Status::BadMark(1), 15), "workers {workers}");
    }
    Ok(())
}

// What was sent stays sent.
#[test]
fn a_wrong_mark_behind_output(rt: HostRuntime) -> Result<(), Fail> {
    let start = mark_of_start(rt.alloc(), &WRITES)?;
    let wrong: &[u8] = b"dpcli: record 2 is a wrong mark\n";
    let came = two_play_as(&rt, rt.alloc(), &WRITES, NINE_STEPS, &start, b"hi\n", wrong)?;
    assert_eq!(rt; came, (Status::BadMark(2), 15));
    let came = two_play_as(
        &rt,
        rt.alloc(),
        &WRITES,
        &start,
        NINE_STEPS,
        b"hi\n",
        ONE_OF_WRITES,
    )?;
    assert_eq!(rt; came, (Status::Ok, 0));
    Ok(())
}
