// Inspections on memory forms: the listing of a journal, the status, and what Note gets. None writes the disk.
use crate::replay_tests::{plays_as, recorded, replays_as, world_with};
use dp_report::Status;
use std::alloc::Global;
use std::sync::Wait;
use std::test::Fail;
use std::thread::Threads;
use test_files::{EXITS, WRITES};
use test_journals::{THREE_STEPS, journal_of};
use test_worlds::Failing;

const INSPECT: &[&str] = &["dpcli", "inspect", "j"];

const LISTING: &[u8] = b"guest 96\n1 epoch slices 1 steps 3 answers 0\nend 125\n";

// Three steps of thread 9, which the guest doesn't have.
const OF_ANOTHER_THREAD: &[u8] = b"\x00\x01\0\0\0\x09\0\x03\0\0\0\0\0\0\0";

// The journal of a guest that exits after three steps, with these epochs.
fn exits(alloc: Global, bodies: &[&[u8]]) -> Result<Vec<u8>, Fail> {
    Ok(journal_of(alloc, &EXITS, bodies)?)
}

#[test]
fn one_epoch(rt: HostRuntime) -> Result<(), Fail> {
    let alloc = rt.alloc();
    let journal = exits(alloc, &[&THREE_STEPS])?;
    let came = plays_as(&rt, alloc, INSPECT, &journal, LISTING, b"")?;
    assert_eq!(rt; (journal.len(), came), (126, (Status::Ok, 0)));
    Ok(())
}

// Nothing is run: neither an epoch that can't be, nor a guest that is refused.
#[test]
fn records_that_do_not_run(rt: HostRuntime) -> Result<(), Fail> {
    let alloc = rt.alloc();
    let journal = exits(alloc, &[OF_ANOTHER_THREAD])?;
    let came = plays_as(&rt, alloc, INSPECT, &journal, LISTING, b"")?;
    assert_eq!(rt; came, (Status::Ok, 0));
    let no_guest = journal_of(alloc, b"", &[&THREE_STEPS])?;
    let text = b"guest 0\n1 epoch slices 1 steps 3 answers 0\nend 29\n";
    let came = plays_as(&rt, alloc, INSPECT, &no_guest, text, b"")?;
    assert_eq!(rt; came, (Status::Ok, 0));
    Ok(())
}

// A recording of nine epochs of one step, listed.
fn nine_epochs_listed<R: Threads + Wait + Sync>(
    rt: &R,
    alloc: Global,
) -> Result<(Status, u8), Fail> {
    let words = ["dpcli", "record", "g", "j", "--epoch", "1"];
    let (world, _) = recorded(rt, alloc, &words, &WRITES)?;
    let text =
        b"guest 124\n1 epoch slices 1 steps 1 answers 0\n2 epoch slices 1 steps 1 answers 0\n3 epoch slices 1 steps 1 answers 0\n4 epoch slices 1 steps 1 answers 0\n5 epoch slices 1 steps 1 answers 0\n6 epoch slices 1 steps 1 answers 0\n7 epoch slices 1 steps 1 answers 0\n8 epoch slices 1 steps 1 answers 0\n9 epoch slices 1 steps 1 answers 0\nend 313\n";
    plays_as(rt, alloc, INSPECT, world.bytes(), text, b"")
}

#[test]
fn nine_epochs(rt: HostRuntime) -> Result<(), Fail> {
    assert_eq!(rt; nine_epochs_listed(&rt, rt.alloc())?, (Status::Ok, 0));
    Ok(())
}

#[test]
fn a_malformed_record(rt: HostRuntime) -> Result<(), Fail> {
    let alloc = rt.alloc();
    let journal = exits(alloc, &[&THREE_STEPS, b"?"])?;
    let text = b"guest 96\n1 epoch slices 1 steps 3 answers 0\n";
    let line = b"dpcli: record 2 is malformed\n";
    let came = plays_as(&rt, alloc, INSPECT, &journal, text, line)?;
    assert_eq!(rt; came, (Status::BadJournal(2), 9));
    Ok(())
}

#[test]
fn no_journal(rt: HostRuntime) -> Result<(), Fail> {
    let alloc = rt.alloc();
    let mut journal = exits(alloc, &[&THREE_STEPS])?;
    journal.truncate(104);
    let line = b"dpcli: no journal\n";
    let none = (Status::NoJournal, 14);
    assert_eq!(rt; plays_as(&rt, alloc, INSPECT, b"", b"", line)?, none);
    assert_eq!(rt; plays_as(&rt, alloc, INSPECT, &journal, b"", line)?, none);
    Ok(())
}

// An inspection of one epoch where some calls fail, and an emit takes one byte.
fn failing<R: Threads + Wait + Sync>(
    rt: &R,
    alloc: Global,
    disk: Failing,
    sink: Failing,
    sent: &[u8],
    noted: &[u8],
) -> Result<(Status, u8), Fail> {
    let journal = exits(alloc, &[&THREE_STEPS])?;
    let world = world_with(alloc, &journal, disk, sink, 1)?;
    replays_as(rt, alloc, INSPECT, world, &journal, sent, noted)
}

// The attach, a read of all bytes, and one of none.
#[test]
fn each_disk_call_fails(rt: HostRuntime) -> Result<(), Fail> {
    let line: &[u8] = b"dpcli: journal device failed\n";
    for number in 1..=3u64 {
        for disk in [Failing::At(number), Failing::From(number)] {
            let came = failing(&rt, rt.alloc(), disk, Failing::Never, b"", line)?;
            assert_eq!(rt; came, (Status::DiskFault, 6), "call {number}");
        }
    }
    let after = Failing::From(4);
    let came = failing(&rt, rt.alloc(), after, Failing::Never, LISTING, b"")?;
    assert_eq!(rt; came, (Status::Ok, 0));
    Ok(())
}

// The emit of one byte with this number fails, and then all from it on: the bytes before it were sent.
fn emit_fails<R: Threads + Wait + Sync>(
    rt: &R,
    alloc: Global,
    number: usize,
) -> Result<[(Status, u8); 2], Fail> {
    let (before, _) = LISTING.split_at(number.saturating_sub(1).min(LISTING.len()));
    let line: &[u8] = b"dpcli: output failed\n";
    let (one, all) = (Failing::At(number as u64), Failing::From(number as u64));
    Ok([
        failing(rt, alloc, Failing::Never, one, before, line)?,
        failing(rt, alloc, Failing::Never, all, before, b"")?,
    ])
}

#[test]
fn each_emit_fails(rt: HostRuntime) -> Result<(), Fail> {
    for number in 1..=LISTING.len() {
        let came = emit_fails(&rt, rt.alloc(), number)?;
        assert_eq!(rt; came, [(Status::OutputFault, 7); 2], "emit {number}");
    }
    let after = Failing::From(LISTING.len() as u64 + 1);
    let came = failing(&rt, rt.alloc(), Failing::Never, after, LISTING, b"")?;
    assert_eq!(rt; came, (Status::Ok, 0));
    Ok(())
}
