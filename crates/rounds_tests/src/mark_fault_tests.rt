// Recordings in five epochs of two steps with marks, in which a call on the disk or an emit fails, or a record doesn't
// fit. Each image that a crash may leave then is replayed.
use crate::marked::{FIRST_GATE, left_by, options, records_in};
use crate::recorded::{Left, replayed};
use disk_model::Stream;
use epoch_replay::ReplayFault;
use recorder::RecordFault;
use std::alloc::Global;
use std::sync::Wait;
use std::test::Fail;
use std::thread::Threads;
use test_journals::{Kind, seen};
use test_worlds::Failing;

// The count of records of an image that is no journal.
const NO_JOURNAL: u32 = 100;

// That of one whose records aren't the first of the journal.
const OTHERS: u32 = 101;

// The epochs of the first records of a journal with a mark after every so many epochs, and whether one of them is the
// third, which writes.
fn epochs_in(every: u32, records: u32) -> (u32, bool) {
    let row = every.clamp(1, 1000) + 1;
    let epochs = (records / row)
        .saturating_mul(row - 1)
        .saturating_add((records % row).min(row - 1));
    (epochs, epochs >= 3)
}

fn output_of(writes: bool) -> &'static [u8] {
    if writes { b"hi\n" } else { b"" }
}

// How many records an image holds, if they are the first of the journal.
fn held(image: &[u8], journal: &[u8]) -> u32 {
    if (image.len() as u64) < FIRST_GATE || !image.starts_with(b"\x01DPJ1") {
        return NO_JOURNAL;
    }
    let mut at = FIRST_GATE;
    for count in 0..10u32 {
        match seen(image, at) {
            (Kind::Epoch | Kind::Partial, next, _) => at = next,
            (Kind::End, at, _) => {
                let end = at as usize;
                return if image.get(..end) == journal.get(..end) {
                    count
                } else {
                    OTHERS
                };
            }
            _ => return OTHERS,
        }
    }
    OTHERS
}

// How many records each of the three images of a world holds, if each is replayed to the output of its epochs, and a
// prefix of that was sent.
fn held_by_all<R: Threads + Wait + Sync>(
    rt: &R,
    alloc: Global,
    every: u32,
    left: &Left,
    journal: &[u8],
) -> Result<[u32; 3], Fail> {
    let mut counts = [0; 3];
    for (pick, count) in [0u32, 1, 2].into_iter().zip(counts.iter_mut()) {
        let image = left.world.crash(alloc, pick)?;
        let records = held(&image, journal);
        let (answer, output) = if records == NO_JOURNAL {
            (Err(ReplayFault::NoJournal), output_of(false))
        } else {
            let (epochs, writes) = epochs_in(every, records);
            (Ok(epochs), output_of(writes))
        };
        if replayed(rt, alloc, &image, 2, output)? != (answer, true) {
            return Err("an image is replayed to the output of its epochs".into());
        }
        if !output.starts_with(left.world.sent(Stream::Out)) {
            return Err("a prefix of an image's output was sent".into());
        }
        *count = records;
    }
    Ok(counts)
}

// How many records are acknowledged by a recording whose call with this number fails, and how many the images hold:
// without what is pending, as it reads, and with each pending byte 1. Call 1 is the length, and the header has three
// writes and three syncs. A record has four calls, that of a mark too: its frame is written and synced, and then its
// gate.
fn expected(number: u32) -> (u32, [u32; 3]) {
    let none = NO_JOURNAL;
    if number < 8 {
        return match number {
            6 => (0, [none, none, 0]),
            7 => (0, [none, 0, 0]),
            _ => (0, [none, none, none]),
        };
    }
    let before = (number - 8) / 4;
    let after = before + 1;
    match number % 4 {
        2 => (before, [before, before, after]),
        3 => (before, [before, after, after]),
        _ => (before, [before, before, before]),
    }
}

// A recording with a mark after every so many epochs.
fn marked_by<R: Threads + Wait + Sync>(
    rt: &R,
    alloc: Global,
    every: u32,
    number: u32,
    room: u64,
    disk: Failing,
    sink: Failing,
) -> Result<Left, Fail> {
    let options = options(2, every.min(1000), room.min(1 << 30));
    left_by(rt, alloc, number, options, disk, sink)
}

// A mark after every so many epochs, the whole journal's records, and their count: 134 bytes, 20 for each epoch and 270
// for each mark.
#[derive(Clone, Copy)]
struct Marked {
    every: u32,
    records: &'static str,
    count: u32,
    bytes: usize,
}

const FIRST: Marked = Marked {
    every: 1,
    records: "EM2EM4EM6EM8E.",
    count: 9,
    bytes: 1_314,
};

const SECOND: Marked = Marked {
    every: 2,
    records: "EEM4EEM8E.",
    count: 7,
    bytes: 774,
};

const THIRD: Marked = Marked {
    every: 3,
    records: "EEEM6EE.",
    count: 6,
    bytes: 504,
};

const SIXTEENTH: Marked = Marked {
    every: 16,
    records: "EEEEE.",
    count: 5,
    bytes: 234,
};

// The whole journal.
fn journal<R: Threads + Wait + Sync>(
    rt: &R,
    alloc: Global,
    marked: Marked,
) -> Result<Vec<u8>, Fail> {
    let (disk, sink) = (Failing::Never, Failing::Never);
    let left = marked_by(rt, alloc, marked.every, 0, 1 << 30, disk, sink)?;
    let journal = left.world.bytes();
    let records = records_in(alloc, journal)?;
    if left.answer.is_err() || journal.len() != marked.bytes || records.as_str() != marked.records {
        return Err("a recording where nothing fails".into());
    }
    Ok(journal.to_vec(alloc)?)
}

// Whether a recording answers this fault and has sent this, and how many records the images hold.
fn faulted<R: Threads + Wait + Sync>(
    rt: &R,
    alloc: Global,
    every: u32,
    left: &Left,
    fault: RecordFault,
    journal: &[u8],
    sent: &[u8],
) -> Result<(bool, bool, [u32; 3]), Fail> {
    let answers = match left.answer {
        Ok(_) => false,
        Err(other) => other == fault,
    };
    let same = left.world.sent(Stream::Out) == sent;
    Ok((answers, same, held_by_all(rt, alloc, every, left, journal)?))
}

// Whether a recording whose calls fail answers so, has sent the output of its epochs, and leaves images with as many
// records as expected.
fn fails_at<R: Threads + Wait + Sync>(
    rt: &R,
    alloc: Global,
    every: u32,
    number: u32,
    racer: u32,
    disk: Failing,
    journal: &[u8],
) -> Result<bool, Fail> {
    let (before, held) = expected(number);
    let sent = output_of(epochs_in(every, before).1);
    let left = marked_by(rt, alloc, every, racer, 1 << 30, disk, Failing::Never)?;
    let came = faulted(
        rt,
        alloc,
        every,
        &left,
        RecordFault::DiskFault,
        journal,
        sent,
    )?;
    Ok(came == (true, true, held))
}

// Whether a recording with these marks does as expected at each call that fails: there are seven, and four for each
// record.
fn fails_at_each<R: Threads + Wait + Sync>(
    rt: &R,
    alloc: Global,
    marked: Marked,
) -> Result<bool, Fail> {
    let journal = journal(rt, alloc, marked)?;
    for number in 1..=marked.count.min(9) * 4 + 7 {
        let disk = Failing::At(u64::from(number));
        if !fails_at(rt, alloc, marked.every, number, 0, disk, &journal)? {
            return Ok(false);
        }
    }
    Ok(true)
}

// Seven records make 35 calls. The racer's offers are good, or the third one of each round is spoilt.
#[test]
fn disk_calls_that_fail(rt: HostRuntime) -> Result<(), Fail> {
    let alloc = rt.alloc();
    let journal = journal(&rt, alloc, SECOND)?;
    for number in 1..=35u32 {
        let disk = Failing::At(u64::from(number));
        let fails = fails_at(&rt, alloc, 2, number, 0, disk, &journal)?;
        assert!(rt; fails, "call {number}");
        let disk = Failing::From(u64::from(number));
        let fails = fails_at(&rt, alloc, 2, number, 9, disk, &journal)?;
        assert!(rt; fails, "calls from {number}");
    }
    Ok(())
}

#[test]
fn disk_calls_of_many_marks(rt: HostRuntime) -> Result<(), Fail> {
    assert!(rt; fails_at_each(&rt, rt.alloc(), FIRST)?);
    Ok(())
}

#[test]
fn disk_calls_of_few_marks(rt: HostRuntime) -> Result<(), Fail> {
    assert!(rt; fails_at_each(&rt, rt.alloc(), THIRD)?);
    assert!(rt; fails_at_each(&rt, rt.alloc(), SIXTEENTH)?);
    Ok(())
}

// The output of the third epoch is sent in three emits, once its record is in the journal. The fourth emit is the first
// of the report.
#[test]
fn emits_that_fail(rt: HostRuntime) -> Result<(), Fail> {
    let alloc = rt.alloc();
    let journal = journal(&rt, alloc, SECOND)?;
    // the emit, how many records the images hold, and what was sent
    let cases: [(u64, u32, &[u8]); 4] = [(1, 4, b""), (2, 4, b"h"), (3, 4, b"hi"), (4, 7, b"hi\n")];
    for (number, records, sent) in cases {
        let held = [records, records, records];
        let sink = Failing::At(number);
        let left = marked_by(&rt, alloc, 2, 0, 1 << 30, Failing::Never, sink)?;
        let came = faulted(
            &rt,
            alloc,
            2,
            &left,
            RecordFault::OutputFault,
            &journal,
            sent,
        )?;
        assert_eq!(rt; came, (true, true, held), "emit {number}");
        let sink = Failing::From(number);
        let left = marked_by(&rt, alloc, 2, 9, 1 << 30, Failing::Never, sink)?;
        let came = faulted(
            &rt,
            alloc,
            2,
            &left,
            RecordFault::OutputFault,
            &journal,
            sent,
        )?;
        assert_eq!(rt; came, (true, true, held), "emits from {number}");
    }
    Ok(())
}

// With a mark after every third epoch, it is due where the third one's output fails, and it isn't there.
#[test]
fn emits_before_a_mark(rt: HostRuntime) -> Result<(), Fail> {
    let alloc = rt.alloc();
    // the emit that fails, and the records
    let cases = [(1u64, "EEE."), (2, "EEE."), (3, "EEE."), (4, "EEEM6EE.")];
    for (number, records) in cases {
        let (disk, sink) = (Failing::Never, Failing::At(number));
        let left = left_by(&rt, alloc, 0, options(2, 3, 1 << 30), disk, sink)?;
        let found = records_in(alloc, left.world.bytes())?;
        assert_eq!(rt; found.as_str(), records, "emit {number}");
    }
    Ok(())
}

// The journal's bytes at most, what the recording answers, and how many records there are.
#[test]
fn rooms_of_marks(rt: HostRuntime) -> Result<(), Fail> {
    let alloc = rt.alloc();
    let journal = journal(&rt, alloc, SECOND)?;
    let full = |end, need| RecordFault::JournalFull { end, need };
    let cases = [
        // The second epoch doesn't fit, the first mark, the third epoch, the fourth, the second mark, and the fifth
        // epoch.
        (173u64, full(154, 20), 1u32),
        (174, full(174, 270), 2),
        (443, full(174, 270), 2),
        (444, full(444, 20), 3),
        (463, full(444, 20), 3),
        (464, full(464, 20), 4),
        (484, full(484, 270), 5),
        (753, full(484, 270), 5),
        (754, full(754, 20), 6),
        (773, full(754, 20), 6),
    ];
    for (room, fault, records) in cases {
        let sent = output_of(epochs_in(2, records).1);
        for number in [0u32, 9] {
            let left = marked_by(&rt, alloc, 2, number, room, Failing::Never, Failing::Never)?;
            let came = faulted(&rt, alloc, 2, &left, fault, &journal, sent)?;
            assert_eq!(rt;
                came,
                (true, true, [records, records, records]),
                "room {room}, racer {number}"
            );
        }
    }
    let left = marked_by(&rt, alloc, 2, 0, 774, Failing::Never, Failing::Never)?;
    assert_eq!(rt;
        (left.answer.is_ok(), left.world.bytes().len()),
        (true, 774)
    );
    Ok(())
}
