// Recordings by racers whose offers are followed, and by one whose threads run side by side.
use super::RACING_ADDERS;
use crate::recorded::replay;
use disk_mem::{HoldGate, MemWorld};
use disk_model::{Gate, OpenGate, Stream};
use dp_base::{Log, Tid};
use dp_top::{Status, run};
use guest_kernel::start_from_file;
use racing_runner::{ChaosRacer, Racer, WildRacer};
use std::alloc::Global;
use std::sync::Wait;
use std::test::Fail;
use std::thread::Threads;
use sync_hints::{Hints, Sc, SyncHint};
use test_files::{WRITES, file_of};
use test_journals::journal_of;
use test_worlds::{Failing, disk_of, file_named, inlet_of, texts_of};
use thread_racer::ThreadRacer;

// `WRITES` in epochs of two steps.
const WORDS: [&str; 8] = [
    "dpcli",
    "record",
    "g",
    "j",
    "--epoch",
    "2",
    "--workers",
    "2",
];

// The bodies of an epoch of two steps of thread 1, and of one step.
const TWO_STEPS: [u8; 15] = [0, 1, 0, 0, 0, 1, 0, 2, 0, 0, 0, 0, 0, 0, 0];

const ONE_STEP: [u8; 15] = [0, 1, 0, 0, 0, 1, 0, 1, 0, 0, 0, 0, 0, 0, 0];

// A run by these words of a racer and a gate, on an empty disk, where `g` is this file.
fn ran_by<R: Threads + Wait + Sync, Q: Racer + Drop + Send, G: Gate + Sync>(
    rt: &R,
    alloc: Global,
    words: &[&str],
    file: &[u8],
    racer: Q,
    gate: &G,
) -> Result<(MemWorld, Status), Fail> {
    let texts = texts_of(alloc, words)?;
    let mut files = file_named(alloc, "g", file, Failing::Never)?;
    let mut inlet = inlet_of(alloc, &[], &[], Failing::Never)?;
    let world = disk_of(alloc, &[], Failing::Never)?;
    Ok(run(
        rt, alloc, &texts, &mut files, &mut inlet, world, racer, gate,
    ))
}

// Whether a world has the journal of `WRITES` in epochs of 2, 2, 2, 2 and 1 steps, and its output and its report with
// this digit as the squashes.
fn is_in_five_epochs(alloc: Global, world: &MemWorld, squashes: u8) -> Result<bool, Fail> {
    let journal = journal_of(
        alloc,
        &WRITES,
        &[&TWO_STEPS, &TWO_STEPS, &TWO_STEPS, &TWO_STEPS, &ONE_STEP],
    )?;
    let note = world.sent(Stream::Note);
    Ok(
        journal.len() == 234
            && world.bytes() == journal.as_slice()
            && world.sent(Stream::Out) == b"hi\n".as_slice()
            && note.starts_with(b"epochs 5 squashes ")
            && note.get(18).copied() == Some(squashes),
    )
}

// ChaosRacer 0 offers the states between the epochs: one round. ChaosRacer 1 spoils the first offer of each round: five
// rounds. ChaosRacer 2 offers nothing: five rounds of one job.
#[test]
fn rounds_of_chaos(rt: HostRuntime) -> Result<(), Fail> {
    let alloc = rt.alloc();
    for (number, squashes) in [(0u32, b'0'), (1, b'4'), (2, b'0')] {
        let racer = ChaosRacer::new(number);
        let (world, status) = ran_by(&rt, alloc, &WORDS, &WRITES, racer, &OpenGate)?;
        assert_eq!(rt; status, Status::Ok);
        assert!(rt; is_in_five_epochs(alloc, &world, squashes)?);
    }
    Ok(())
}

// Offers one state of `WRITES`, with the greatest step count, after hints of a thread that is never made: the greatest
// number of steps, and an SC that stores.
fn wild_racer(alloc: Global) -> Result<WildRacer, Fail> {
    let tid = Tid(u16::MAX);
    let mut counts = Vec::new(alloc);
    counts.push((tid, u32::MAX))?;
    let mut order = Vec::new(alloc);
    order.push(SyncHint { tid, sc: Sc::Won })?;
    let hints = Hints {
        counts: Log::from_vec(counts),
        order: Log::from_vec(order),
    };
    let mut next = start_from_file(alloc, &WRITES)?;
    next.steps = u64::MAX;
    let mut list = Vec::new(alloc);
    list.push((hints, next))?;
    Ok(WildRacer::new(list))
}

// The first epoch is run without the hints, and the state in which the second would start is squashed. In rounds of one
// job nobody is asked for offers.
#[test]
fn an_offer_that_no_run_has(rt: HostRuntime) -> Result<(), Fail> {
    let alloc = rt.alloc();
    for (ahead, squashes) in [("16", b'1'), ("2", b'1'), ("1", b'0')] {
        let words = [
            "dpcli", "record", "g", "j", "--epoch", "2", "--ahead", ahead,
        ];
        let racer = wild_racer(alloc)?;
        let (world, status) = ran_by(&rt, alloc, &words, &WRITES, racer, &OpenGate)?;
        assert_eq!(rt; status, Status::Ok, "ahead {ahead}");
        assert!(rt;
            is_in_five_epochs(alloc, &world, squashes)?,
            "ahead {ahead}"
        );
    }
    Ok(())
}

// With two workers job 2 passes the gate while job 1 is held.
#[test]
fn jobs_of_a_round_run_side_by_side(rt: HostRuntime) -> Result<(), Fail> {
    let alloc = rt.alloc();
    let gate = HoldGate::new();
    let racer = ChaosRacer::new(0);
    let (world, status) = ran_by(&rt, alloc, &WORDS, &WRITES, racer, &gate)?;
    assert_eq!(rt; status, Status::Ok);
    assert!(rt; is_in_five_epochs(alloc, &world, b'0')?);
    assert!(rt; !gate.ran_out());
    Ok(())
}

// So do those of a racer whose threads run side by side. Of a guest of one thread it offers the same.
#[test]
fn jobs_of_a_thread_racer(rt: HostRuntime) -> Result<(), Fail> {
    let alloc = rt.alloc();
    let gate = HoldGate::new();
    let racer = ThreadRacer::new(2);
    let (world, status) = ran_by(&rt, alloc, &WORDS, &WRITES, racer, &gate)?;
    assert_eq!(rt; status, Status::Ok);
    assert!(rt; is_in_five_epochs(alloc, &world, b'0')?);
    assert!(rt; !gate.ran_out());
    Ok(())
}

// Whether these bytes are four times `a` and four times `b` in any order, and a digit and a line feed.
fn is_output_of_adders(sent: &[u8]) -> bool {
    let (mut first, mut second) = (0u32, 0u32);
    for byte in sent {
        if *byte == b'a' {
            first = first.saturating_add(1);
        }
        if *byte == b'b' {
            second = second.saturating_add(1);
        }
    }
    sent.len() == 10
        && first == 4
        && second == 4
        && sent.get(8).is_some_and(|byte| byte.is_ascii_digit())
        && sent.last() == Some(&b'\n')
}

// A report's line without the number of squashes.
fn without_squashes(alloc: Global, note: &[u8]) -> Result<(String, String), Fail> {
    let text = String::from_utf8_lossy(alloc, note)?;
    let Some((epochs, rest)) = text.split_once(" squashes ") else {
        return Err("squashes".into());
    };
    let Some((_, rest)) = rest.split_once(" steps ") else {
        return Err("steps".into());
    };
    Ok((
        String::from_str(alloc, epochs)?,
        String::from_str(alloc, rest)?,
    ))
}

// Two threads that race, in epochs of so many steps, at most so many in a round, by so many workers, with a mark after
// so many epochs. How the recording is cut, and what the guest writes, differs from run to run. The replay of each
// sends the same.
#[test]
fn a_race_is_replayed(rt: HostRuntime) -> Result<(), Fail> {
    let alloc = rt.alloc();
    let file = file_of(alloc, &RACING_ADDERS)?;
    for (epoch, ahead, workers, mark) in [
        ("7", "64", "2", "0"),
        ("20", "16", "4", "0"),
        ("31", "2", "1", "0"),
        ("50", "3", "2", "2"),
    ] {
        let words = [
            "dpcli",
            "record",
            "g",
            "j",
            "--epoch",
            epoch,
            "--ahead",
            ahead,
            "--workers",
            workers,
            "--mark",
            mark,
        ];
        let racer = ThreadRacer::new(2);
        let (world, status) = ran_by(&rt, alloc, &words, &file, racer, &OpenGate)?;
        assert_eq!(rt; status, Status::Ok, "epoch {epoch}");
        let sent = world.sent(Stream::Out);
        assert!(rt; is_output_of_adders(sent), "epoch {epoch}");
        let again = replay(&rt, alloc, world.bytes())?;
        assert_eq!(rt; again.status, Status::Ok, "epoch {epoch}");
        assert!(rt; again.sent.as_slice() == sent, "epoch {epoch}");
        assert!(rt;
            without_squashes(alloc, &again.noted)?
                == without_squashes(alloc, world.sent(Stream::Note))?,
            "epoch {epoch}"
        );
    }
    Ok(())
}
