// Journals byte by byte, and such as no recording writes.
use super::*;
use crate::recorded::{STEPS, record, replay};
use dp_report::Status;
use std::alloc::Global;
use std::sync::Wait;
use std::test::Fail;
use std::thread::Threads;
use test_files::{EXITS_WORDS, file_of};
use test_journals::{THREE_STEPS, journal_of};
use test_worlds::{Failing, inlet_of};

// The journal of a guest of these words whose records have these bodies.
fn journal_of_words(alloc: Global, words: &[u32], bodies: &[&[u8]]) -> Result<Vec<u8>, Fail> {
    Ok(journal_of(alloc, &file_of(alloc, words)?, bodies)?)
}

// The bodies of epochs of one slice of thread 1: two steps, of which one reads `abc`; three, of which the first sees
// the end; and five, of which one takes a reading of 5.
const READS: &[u8] = b"\x00\x01\x00\x00\x00\x01\x00\x02\x00\x00\x00\x01\x00\x00\x00\x00\x03\x00abc";

const SEES_END: &[u8] = b"\x00\x01\x00\x00\x00\x01\x00\x03\x00\x00\x00\x01\x00\x00\x00\x00\x00\x00";

const TAKES_READING: &[u8] =
    b"\x00\x01\x00\x00\x00\x01\x00\x05\x00\x00\x00\x01\x00\x00\x00\x01\x05\x00\x00\x00\x00\x00\x00\x00";

// Whether a recording writes the journal of these bodies.
fn is_written<R: Threads + Wait + Sync>(
    rt: &R,
    alloc: Global,
    words: &[u32],
    pieces: &[&[u8]],
    clocks: &[u64],
    bodies: &[&[u8]],
) -> Result<bool, Fail> {
    let inlet = inlet_of(alloc, pieces, clocks, Failing::Never)?;
    let seen = record(rt, alloc, words, inlet, STEPS)?;
    let journal = journal_of_words(alloc, words, bodies)?;
    Ok(seen.status == Status::Ok && seen.journal == journal)
}

#[test]
fn journals_of_recordings(rt: HostRuntime) -> Result<(), Fail> {
    let reads: &[&[u8]] = &[&THREE_STEPS, READS, SEES_END];
    assert!(rt; is_written(&rt, rt.alloc(), &READS_TWICE, &[b"abc"], &[], reads)?);
    assert!(rt; is_written(&rt, rt.alloc(), &READS_TWICE, &[b"abc"], &[9, 8], reads)?);
    assert!(rt; is_written(&rt, rt.alloc(), &READS_CLOCK, &[], &[5], &[TAKES_READING])?);
    assert!(rt;
        is_written(
            &rt,
            rt.alloc(),
            &READS_CLOCK,
            &[b"abc"],
            &[5, 6],
            &[TAKES_READING]
        )?
    );
    let exits: &[&[u8]] = &[&THREE_STEPS];
    assert!(rt; is_written(&rt, rt.alloc(), &EXITS_WORDS, &[], &[], exits)?);
    assert!(rt;
        is_written(
            &rt,
            rt.alloc(),
            &EXITS_WORDS,
            &[b"abc", b"", b"d"],
            &[5, 6],
            exits
        )?
    );
    Ok(())
}

// The status of a replay of these bodies, where it sends this on Note and nothing on Out.
fn plays<R: Threads + Wait + Sync>(
    rt: &R,
    alloc: Global,
    words: &[u32],
    bodies: &[&[u8]],
    note: &[u8],
) -> Result<Status, Fail> {
    let journal = journal_of_words(alloc, words, bodies)?;
    let seen = replay(rt, alloc, &journal)?;
    if !seen.sent.is_empty() || seen.noted.as_slice() != note {
        return Err("the replay's output and its note".into());
    }
    Ok(seen.status)
}

#[test]
fn journals_with_other_answers(rt: HostRuntime) -> Result<(), Fail> {
    // the guest, the bodies; the status, and the note
    let cases: [(&[u32], &[&[u8]], Status, &[u8]); 13] = [
        (
            &READS_TWICE,
            &[&THREE_STEPS, READS, SEES_END],
            Status::Ok,
            b"epochs 3 squashes 0 steps 8 sent 0 end exit 0 state 44e085ae0ee54d6520e1458b2e88945eb49ddcda4841a97589c6f175eb5502b3\n",
        ),
        // As many bytes as are asked for, one more, and a reading of the clock.
        (
            &READS_TWICE,
            &[
                &THREE_STEPS,
                b"\x00\x01\x00\x00\x00\x01\x00\x02\x00\x00\x00\x01\x00\x00\x00\x00\n\x00abcdefghij",
                SEES_END,
            ],
            Status::Ok,
            b"epochs 3 squashes 0 steps 8 sent 0 end exit 0 state c020bf25b2306e7390f7cc7b27bd2d935306697b8cd97e7e07d0e26f00385a90\n",
        ),
        (
            &READS_TWICE,
            &[
                &THREE_STEPS,
                b"\x00\x01\x00\x00\x00\x01\x00\x02\x00\x00\x00\x01\x00\x00\x00\x00\x0b\x00abcdefghijk",
                SEES_END,
            ],
            Status::BadEpoch(2),
            b"dpcli: record 2 does not run\n",
        ),
        (
            &READS_TWICE,
            &[
                &THREE_STEPS,
                b"\x00\x01\x00\x00\x00\x01\x00\x02\x00\x00\x00\x01\x00\x00\x00\x01\x05\x00\x00\x00\x00\x00\x00\x00",
                SEES_END,
            ],
            Status::BadEpoch(2),
            b"dpcli: record 2 does not run\n",
        ),
        // No answer, and one more than is taken.
        (
            &READS_TWICE,
            &[
                &THREE_STEPS,
                b"\x00\x01\x00\x00\x00\x01\x00\x02\x00\x00\x00\x00\x00\x00\x00",
                SEES_END,
            ],
            Status::BadEpoch(2),
            b"dpcli: record 2 does not run\n",
        ),
        (
            &READS_TWICE,
            &[
                &THREE_STEPS,
                b"\x00\x01\x00\x00\x00\x01\x00\x02\x00\x00\x00\x02\x00\x00\x00\x00\x03\x00abc\x00\x00\x00",
                SEES_END,
            ],
            Status::BadEpoch(2),
            b"dpcli: record 2 does not run\n",
        ),
        (
            &READS_TWICE,
            &[
                b"\x00\x01\x00\x00\x00\x01\x00\x03\x00\x00\x00\x01\x00\x00\x00\x00\x00\x00",
                READS,
                SEES_END,
            ],
            Status::BadEpoch(1),
            b"dpcli: record 1 does not run\n",
        ),
        // The same of the third record.
        (
            &READS_TWICE,
            &[
                &THREE_STEPS,
                READS,
                b"\x00\x01\x00\x00\x00\x01\x00\x03\x00\x00\x00\x01\x00\x00\x00\x01\x05\x00\x00\x00\x00\x00\x00\x00",
            ],
            Status::BadEpoch(3),
            b"dpcli: record 3 does not run\n",
        ),
        (
            &READS_TWICE,
            &[
                &THREE_STEPS,
                READS,
                b"\x00\x01\x00\x00\x00\x01\x00\x03\x00\x00\x00\x01\x00\x00\x00\x00\x0b\x00abcdefghijk",
            ],
            Status::BadEpoch(3),
            b"dpcli: record 3 does not run\n",
        ),
        // A clock that takes a reading, bytes, and nothing.
        (
            &READS_CLOCK,
            &[TAKES_READING],
            Status::Ok,
            b"epochs 1 squashes 0 steps 5 sent 0 end exit 0 state b8ed83f765e58375078dad9a8cfb76d7b20442f76bdcc357e2731adabac6a29f\n",
        ),
        (
            &READS_CLOCK,
            &[b"\x00\x01\x00\x00\x00\x01\x00\x05\x00\x00\x00\x01\x00\x00\x00\x00\x00\x00"],
            Status::BadEpoch(1),
            b"dpcli: record 1 does not run\n",
        ),
        (
            &READS_CLOCK,
            &[b"\x00\x01\x00\x00\x00\x01\x00\x05\x00\x00\x00\x01\x00\x00\x00\x00\x08\x00abcdefgh"],
            Status::BadEpoch(1),
            b"dpcli: record 1 does not run\n",
        ),
        (
            &READS_CLOCK,
            &[b"\x00\x01\x00\x00\x00\x01\x00\x05\x00\x00\x00\x00\x00\x00\x00"],
            Status::BadEpoch(1),
            b"dpcli: record 1 does not run\n",
        ),
    ];
    for (words, bodies, status, note) in cases {
        assert_eq!(rt; plays(&rt, rt.alloc(), words, bodies, note)?, status);
    }
    Ok(())
}
