// Each call on the disk and each emit fails in turn within a round of five jobs, and each image that a crash may leave
// then is replayed.
use crate::guests::FIVE_LETTERS;
use crate::recorded::{Left, recorded, replayed};
use disk_model::Stream;
use epoch_replay::ReplayFault;
use journal_text::{Head, Rec, header, next_record};
use racing_runner::ChaosRacer;
use recorder::{Options, RecordFault};
use std::alloc::Global;
use std::sync::Wait;
use std::test::Fail;
use std::thread::Threads;
use test_files::file_of;
use test_worlds::{Failing, inlet_of, world_of};

// What is sent once this many epochs are committed.
fn sent_after(epochs: u32) -> &'static [u8] {
    match epochs {
        0 => b"",
        1 => b"a",
        2 => b"ab",
        3 => b"abc",
        _ => b"abcde",
    }
}

// The count of epochs of an image that is no journal.
const NO_JOURNAL: u32 = 100;

// That of one whose epochs aren't the first of the journal.
const OTHERS: u32 = 101;

// A recording in epochs of 9 steps, by two workers, where some calls on the disk and some emits of one byte fail.
fn left_by<R: Threads + Wait + Sync>(
    rt: &R,
    alloc: Global,
    number: u32,
    disk: Failing,
    sink: Failing,
) -> Result<Left, Fail> {
    let file = file_of(alloc, &FIVE_LETTERS)?;
    let options = Options {
        workers: 2,
        epoch: 9,
        slice: 1000,
        ahead: 16,
        mark: 0,
        limit: 1_000_000_000,
        room: 1 << 30,
    };
    let inlet = inlet_of(alloc, &[], &[], Failing::Never)?;
    let world = world_of(alloc, disk, sink, 1)?;
    let racer = ChaosRacer::new(number);
    recorded(rt, alloc, &file, options, inlet, world, racer)
}

// How many epochs an image holds, if they are the first of the journal.
fn held(image: &[u8], journal: &[u8]) -> u32 {
    let mut at = match header(image) {
        Head::Whole { guest_len } => 9 + u64::from(guest_len),
        Head::NoJournal => return NO_JOURNAL,
    };
    for count in 0..10u32 {
        match next_record(image, at) {
            Rec::Epoch { next, .. } => at = next,
            Rec::End { at } => {
                let end = at as usize;
                return if image.get(..end) == journal.get(..end) {
                    count
                } else {
                    OTHERS
                };
            }
            _ => return OTHERS,
        }
    }
    OTHERS
}

// How many epochs each of the three images of a world holds, if each is replayed to the output of its epochs, and a
// prefix of that was sent.
fn held_by_all<R: Threads + Wait + Sync>(
    rt: &R,
    alloc: Global,
    left: &Left,
    journal: &[u8],
) -> Result<[u32; 3], Fail> {
    let mut counts = [0; 3];
    for (pick, count) in [0u32, 1, 2].into_iter().zip(counts.iter_mut()) {
        let image = left.world.crash(alloc, pick)?;
        let epochs = held(&image, journal);
        let (answer, output) = if epochs == NO_JOURNAL {
            (Err(ReplayFault::NoJournal), sent_after(0))
        } else {
            (Ok(epochs), sent_after(epochs))
        };
        if replayed(rt, alloc, &image, 2, output)? != (answer, true) {
            return Err("an image is replayed to the output of its epochs".into());
        }
        if !output.starts_with(left.world.sent(Stream::Out)) {
            return Err("a prefix of an image's output was sent".into());
        }
        *count = epochs;
    }
    Ok(counts)
}

// What a recording whose call with this number fails has sent, in epochs, and how many the images hold: without what is
// pending, as it reads, and with each pending byte 1. Call 1 is the length. The header has three writes and three
// syncs. An epoch has four calls: its frame is written and synced, and then its gate.
fn expected(number: u32) -> (u32, [u32; 3]) {
    let none = NO_JOURNAL;
    if number < 8 {
        return match number {
            6 => (0, [none, none, 0]),
            7 => (0, [none, 0, 0]),
            _ => (0, [none, none, none]),
        };
    }
    let before = (number - 8) / 4;
    let after = before + 1;
    match number % 4 {
        2 => (before, [before, before, after]),
        3 => (before, [before, after, after]),
        _ => (before, [before, before, before]),
    }
}

// The whole journal, of 154 bytes and 20 for each epoch.
fn journal<R: Threads + Wait + Sync>(rt: &R, alloc: Global) -> Result<Vec<u8>, Fail> {
    let left = left_by(rt, alloc, 0, Failing::Never, Failing::Never)?;
    if left.answer.is_err() || left.world.bytes().len() != 254 {
        return Err("a recording where nothing fails".into());
    }
    Ok(left.world.bytes().to_vec(alloc)?)
}

// Whether a recording answers this fault and has sent this, and how many epochs the images hold.
fn faulted<R: Threads + Wait + Sync>(
    rt: &R,
    alloc: Global,
    left: &Left,
    fault: RecordFault,
    journal: &[u8],
    sent: &[u8],
) -> Result<(bool, bool, [u32; 3]), Fail> {
    let answers = match left.answer {
        Ok(_) => false,
        Err(other) => other == fault,
    };
    let same = left.world.sent(Stream::Out) == sent;
    Ok((answers, same, held_by_all(rt, alloc, left, journal)?))
}

// Five epochs make 27 calls. The racer's offers are good, or the third one of each round is spoilt.
#[test]
fn disk_calls_that_fail(rt: HostRuntime) -> Result<(), Fail> {
    let alloc = rt.alloc();
    let journal = journal(&rt, alloc)?;
    for number in 1..=27u32 {
        let (sent, held) = expected(number);
        let sent = sent_after(sent);
        let disk = Failing::At(u64::from(number));
        let left = left_by(&rt, alloc, 0, disk, Failing::Never)?;
        let came = faulted(&rt, alloc, &left, RecordFault::DiskFault, &journal, sent)?;
        assert_eq!(rt; came, (true, true, held), "call {number}");
        let disk = Failing::From(u64::from(number));
        let left = left_by(&rt, alloc, 9, disk, Failing::Never)?;
        let came = faulted(&rt, alloc, &left, RecordFault::DiskFault, &journal, sent)?;
        assert_eq!(rt; came, (true, true, held), "calls from {number}");
    }
    Ok(())
}

// The epoch's record is in the journal by the time that its output is sent. The fourth epoch sends two bytes, the fifth
// none. The sixth emit is the first of the report.
#[test]
fn emits_that_fail(rt: HostRuntime) -> Result<(), Fail> {
    let alloc = rt.alloc();
    let journal = journal(&rt, alloc)?;
    let cases: [(u64, u32, &[u8]); 6] = [
        (1, 1, b""),
        (2, 2, b"a"),
        (3, 3, b"ab"),
        (4, 4, b"abc"),
        (5, 4, b"abcd"),
        (6, 5, b"abcde"),
    ];
    for (number, epochs, sent) in cases {
        let sink = Failing::At(number);
        let left = left_by(&rt, alloc, 0, Failing::Never, sink)?;
        let came = faulted(&rt, alloc, &left, RecordFault::OutputFault, &journal, sent)?;
        assert_eq!(rt;
            came,
            (true, true, [epochs, epochs, epochs]),
            "emit {number}"
        );
        let sink = Failing::From(number);
        let left = left_by(&rt, alloc, 9, Failing::Never, sink)?;
        let came = faulted(&rt, alloc, &left, RecordFault::OutputFault, &journal, sent)?;
        assert_eq!(rt;
            came,
            (true, true, [epochs, epochs, epochs]),
            "emits from {number}"
        );
    }
    Ok(())
}
