// Where marks stand in a recording, and replays that compare them.
use crate::marked::{left_by, options, records_in};
use crate::recorded::replayed;
use disk_model::Stream;
use epoch_replay::ReplayFault;
use std::alloc::Global;
use std::sync::Wait;
use std::test::Fail;
use std::thread::Threads;
use test_files::replaced;
use test_worlds::Failing;

// The journal of nine epochs of one step with a mark after every so many of them, if the recording sends the guest's
// output.
fn journal_with<R: Threads + Wait + Sync>(
    rt: &R,
    alloc: Global,
    mark: u32,
) -> Result<Vec<u8>, Fail> {
    let options = options(1, mark.min(1000), 1 << 30);
    let left = left_by(rt, alloc, 0, options, Failing::Never, Failing::Never)?;
    if left.answer.is_err() || left.world.sent(Stream::Out) != b"hi\n".as_slice() {
        return Err("a recording where nothing fails".into());
    }
    Ok(left.world.bytes().to_vec(alloc)?)
}

// No mark is after the ninth epoch, in which the guest ends.
#[test]
fn marks_of_nine_epochs(rt: HostRuntime) -> Result<(), Fail> {
    let alloc = rt.alloc();
    // the epochs from one mark to the next, the records, and the journal's bytes: 314, and 270 for each mark
    let cases = [
        (1u32, "EM1EM2EM3EM4EM5EM6EM7EM8E.", 2_474usize),
        (2, "EEM2EEM4EEM6EEM8E.", 1_394),
        (3, "EEEM3EEEM6EEE.", 854),
        (4, "EEEEM4EEEEM8E.", 854),
        (8, "EEEEEEEEM8E.", 584),
        (9, "EEEEEEEEE.", 314),
        (16, "EEEEEEEEE.", 314),
        (0, "EEEEEEEEE.", 314),
    ];
    for (mark, records, len) in cases {
        let journal = journal_with(&rt, alloc, mark)?;
        let found = records_in(alloc, &journal)?;
        assert_eq!(rt;
            (found.as_str(), journal.len()),
            (records, len),
            "mark {mark}"
        );
        for workers in [1u32, 2, 64] {
            assert_eq!(rt;
                replayed(&rt, alloc, &journal, workers, b"hi\n")?,
                (Ok(9), true),
                "mark {mark}, workers {workers}"
            );
        }
    }
    Ok(())
}

// What a replay of a journal comes to of which one byte is replaced.
fn changed<R: Threads + Wait + Sync>(
    rt: &R,
    alloc: Global,
    journal: &[u8],
    place: usize,
    byte: u8,
    workers: u32,
    sent: &[u8],
) -> Result<(Result<u32, ReplayFault>, bool), Fail> {
    let changed = replaced(alloc, journal, place, 1, &[byte])?;
    replayed(rt, alloc, &changed, workers, sent)
}

// A mark's sixth byte in its record is the first of its step count, and its last byte says whether the last page's
// bytes follow.
#[test]
fn marks_that_are_changed(rt: HostRuntime) -> Result<(), Fail> {
    let alloc = rt.alloc();
    let journal = journal_with(&rt, alloc, 1)?;
    let wrong = ReplayFault::BadMark;
    let malformed = ReplayFault::BadJournal;
    // the place, its byte and the new one, the answer, and what is sent before: an epoch and its mark have 290 bytes
    let cases: [(usize, u8, u8, ReplayFault, &[u8]); 7] = [
        (159, 1, 2, wrong(2), b""),
        (449, 2, 1, wrong(4), b""),
        (1_319, 5, 0xa5, wrong(10), b""),
        (1_609, 6, 0xa5, wrong(12), b"hi\n"),
        (2_189, 8, 0, wrong(16), b"hi\n"),
        (422, 0, 1, malformed(2), b""),
        (1_872, 0, 2, malformed(12), b"hi\n"),
    ];
    for (place, old, new, answer, sent) in cases {
        assert_eq!(rt; journal.get(place).copied(), Some(old), "place {place}");
        for workers in [1u32, 2] {
            assert_eq!(rt;
                changed(&rt, alloc, &journal, place, new, workers, sent)?,
                (Err(answer), true),
                "place {place}, workers {workers}"
            );
        }
    }
    Ok(())
}
