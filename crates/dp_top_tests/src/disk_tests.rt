// Each call on the disk fails in turn, by itself or with all after it, and each image that a crash may leave then is
// replayed.
//
// A recording attaches the disk (call 1), looks at its length (2), and begins the journal: the header's gate is written
// closed and synced (3, 4), the header after it (5, 6), and the gate is opened (7, 8). A record is written after the
// closed gate and synced, then its gate is opened: the first by the calls 9 to 12, each other one by the next four. An
// epoch's output is sent after that.
use crate::stopped::{Faults, Left, NO_JOURNAL, Plays, what_is_left};
use dp_report::Status;
use dp_top_guest_tests::{FILTER, PRODUCER_AND_CONSUMER};
use std::alloc::Global;
use std::sync::Wait;
use std::test::Fail;
use std::thread::Threads;
use test_files::WRITES_WORDS;
use test_worlds::Failing;

// The records of a journal: how many there are, and after how many epochs each mark is. 0 stands for no mark.
#[derive(Clone, Copy)]
struct Records {
    count: u8,
    mark: u8,
}

// The calls up to the last record.
fn calls_of(records: Records) -> u64 {
    1 + 1 + 6 + 4 * u64::from(records.count)
}

// How many records were acknowledged where the calls from this one on fail.
fn acknowledged(number: u64, records: Records) -> u8 {
    (number.saturating_sub(9) / 4).min(u64::from(records.count)) as u8
}

// How many of the first so many records are epochs.
fn epochs_among(first: u8, mark: u8) -> u8 {
    if mark == 0 {
        return first;
    }
    first.saturating_sub(first / mark.saturating_add(1))
}

// How many records an image has where the calls from this one on fail, or `None` where it is no journal. The call that
// fails is pending: if it opens a gate, that is open where each pending byte is 1; if it syncs an open gate, then also
// as the disk reads.
fn records_of(number: u64, pick: u64, records: Records) -> Option<u8> {
    let opens = number % 4 == 3 && pick == 2;
    let syncs = number % 4 == 0 && pick >= 1;
    if number < 7 {
        return None;
    }
    if number < 9 {
        return if opens || syncs { Some(0) } else { None };
    }
    let more = if opens || syncs { 1 } else { 0 };
    Some(
        acknowledged(number, records)
            .saturating_add(more)
            .min(records.count),
    )
}

// What such an image plays to, where so many bytes of output were sent by the end of each epoch.
fn plays_of(number: u64, pick: u64, records: Records, output: &[usize]) -> Plays {
    match records_of(number, pick, records) {
        Some(count) => {
            let epochs = epochs_among(count, records.mark);
            let sent = output.get(usize::from(epochs)).copied().unwrap_or(0);
            (Status::Ok, epochs, sent)
        }
        None => NO_JOURNAL,
    }
}

// What a recording comes to whose calls from this one on fail, and what each image plays to.
fn left_of(number: u64, records: Records, output: &[usize]) -> Left {
    let epochs = epochs_among(acknowledged(number, records), records.mark);
    let sent = output.get(usize::from(epochs)).copied().unwrap_or(0);
    let fails = number <= calls_of(records);
    Left {
        status: if fails { Status::DiskFault } else { Status::Ok },
        disk_failed: fails,
        sent,
        plays: [
            plays_of(number, 0, records, output),
            plays_of(number, 1, records, output),
            plays_of(number, 2, records, output),
        ],
    }
}

fn failing(disk: Failing, sink: Failing) -> Faults {
    Faults {
        disk,
        sink,
        piece: 4096,
    }
}

fn from(number: u64) -> Faults {
    failing(Failing::From(number), Failing::Never)
}

// Nine epochs of one step, of which the sixth writes, with a mark after the fourth and after the eighth.
const NINE_EPOCHS: Records = Records { count: 11, mark: 4 };

// How many bytes were sent by the end of each.
const NINE_OUTPUTS: [usize; 10] = [0, 0, 0, 0, 0, 0, 3, 3, 3, 3];

fn nine_epochs<R: Threads + Wait + Sync>(
    rt: &R,
    alloc: Global,
    faults: Faults,
) -> Result<Left, Fail> {
    let asked = ["dpcli", "record", "g", "j", "--epoch", "1", "--mark", "4"];
    what_is_left(rt, alloc, &asked, &WRITES_WORDS, &[], b"hi\n", faults)
}

#[test]
fn disk_calls_of_nine_epochs_from_each_on(rt: HostRuntime) -> Result<(), Fail> {
    assert_eq!(rt; calls_of(NINE_EPOCHS), 52);
    for number in 1..=53 {
        let came = nine_epochs(&rt, rt.alloc(), from(number))?;
        let wanted = left_of(number, NINE_EPOCHS, &NINE_OUTPUTS);
        assert_eq!(rt; came, wanted, "calls from {number}");
    }
    Ok(())
}

// Nothing is asked of the disk after a call that failed, so that it leaves the same if only that one fails.
#[test]
fn each_disk_call_of_nine_epochs(rt: HostRuntime) -> Result<(), Fail> {
    for number in 1..=53 {
        let once = failing(Failing::At(number), Failing::Never);
        let came = nine_epochs(&rt, rt.alloc(), once)?;
        let wanted = left_of(number, NINE_EPOCHS, &NINE_OUTPUTS);
        assert_eq!(rt; came, wanted, "call {number}");
    }
    Ok(())
}

// The sixth epoch's output and the report's line are an emit each. What is sent is on the disk for good by then.
#[test]
fn each_emit_of_nine_epochs(rt: HostRuntime) -> Result<(), Fail> {
    let cases: [(u64, Status, usize, u8); 3] = [
        (1, Status::OutputFault, 0, 6),
        (2, Status::OutputFault, 3, 9),
        (3, Status::Ok, 3, 9),
    ];
    for (number, status, sent, epochs) in cases {
        let once = failing(Failing::Never, Failing::At(number));
        let came = nine_epochs(&rt, rt.alloc(), once)?;
        let wanted = Left {
            status,
            disk_failed: false,
            sent,
            plays: [(Status::Ok, epochs, 3); 3],
        };
        assert_eq!(rt; came, wanted, "emit {number}");
    }
    Ok(())
}

// Four epochs, by the takes of the input: before the first take, two pieces, and the end. The guest reads four bytes at
// a time.
#[test]
fn each_disk_call_of_a_filter(rt: HostRuntime) -> Result<(), Fail> {
    let mut words = FILTER.to_vec(rt.alloc())?;
    words.push(4)?;
    let asked = ["dpcli", "record", "g", "j"];
    let records = Records { count: 4, mark: 0 };
    let output = [0, 0, 6, 8, 8];
    for number in 1..=25 {
        let pieces: [&[u8]; 2] = [b"abcdef", b"gh"];
        let came = what_is_left(
            &rt,
            rt.alloc(),
            &asked,
            &words,
            &pieces,
            b"abcdefgh",
            from(number),
        )?;
        assert_eq!(rt; came, left_of(number, records, &output), "call {number}");
    }
    Ok(())
}

// Seven epochs of 17 steps at most, in slices of 9. The four bytes of output are one write, of an epoch that isn't said
// here.
#[test]
fn disk_calls_of_two_threads(rt: HostRuntime) -> Result<(), Fail> {
    let asked = ["dpcli", "record", "g", "j", "--epoch", "17", "--slice", "9"];
    let records = Records { count: 7, mark: 0 };
    for number in 1..=36 {
        let came = what_is_left(
            &rt,
            rt.alloc(),
            &asked,
            &PRODUCER_AND_CONSUMER,
            &[],
            b"abc\n",
            from(number),
        )?;
        let wanted = left_of(number, records, &[]);
        assert_eq!(rt; came.status, wanted.status, "call {number}");
        for (plays, wants) in came.plays.iter().zip(&wanted.plays) {
            assert_eq!(rt; (plays.0, plays.1), (wants.0, wants.1), "call {number}");
            assert!(rt; plays.2 == 0 || plays.2 == 4, "call {number}");
        }
    }
    let came = what_is_left(
        &rt,
        rt.alloc(),
        &asked,
        &PRODUCER_AND_CONSUMER,
        &[],
        b"abc\n",
        from(37),
    )?;
    assert_eq!(rt; (came.status, came.sent), (Status::Ok, 4));
    assert_eq!(rt; came.plays, [(Status::Ok, 7, 4); 3]);
    Ok(())
}
