// Epochs by hints of guests that call, and ends of epochs under hints. Each outcome is that of a model of the
// machine and of its schedule, which was written apart from this code.
use crate::epoch_guests::Stands::{Runs, Waits};
use crate::epoch_guests::{ECALL, EXIT_ALL, nothing_known};
use crate::hinted_guests::*;
use guest_kernel::start_from_file;
use std::test::Fail;
use test_files::file_of;

fn exits_under_hints_rows() -> [Row; 6] {
    [
        // A thread exits, and has steps left.
        "1:2 2:3 | 1n 2n | 8 2 1 | 2:2 1:1 2:1 3:1; trap 3; x10 0 0",
        // Or none.
        "1:1 2:3 | 1n 2n | 8 2 1 | 2:2 1:1 2:1; x10 0 0",
        // A trap is a step that an entry takes.
        "2:2 3:1 | 3n | 8 2 1 | 2:2 3:1; trap 3; x10 0 0",
        "2:2 3:4 | 3w 2n | 8 2 1 | 3:1; trap 3; x10 0 0",
        // And is never taken by itself.
        "2:2 3:1 | - | 8 2 2 | 2:2 3:1; trap 3; x10 0 0",
        "2:2 3:1 | 1n | 4 2 1 | 2:2 3:1; trap 3; x10 0 0",
    ]
}

// Thread 1 exits, thread 3 traps.
#[test]
fn exits_under_hints(rt: HostRuntime) -> Result<(), Fail> {
    let (rows, threads) = (exits_under_hints_rows(), [Runs(20), Runs(0), Runs(24)]);
    let found = differences(rt.alloc(), &TURNS, &threads, 65536, &rows)?;
    assert_eq!(rt; found.as_str(), "");
    Ok(())
}

fn waits_under_hints_rows() -> [Row; 3] {
    [
        // Nobody is left who can step.
        "1:9 | 1n 1n | 8 2 1 | 1:3; deadlock; x10 0 0",
        "1:3 | 1n | 8 2 1 | 1:3; deadlock; x10 0 0",
        "1:2 | 1n | 8 2 1 | 1:2; x10 69632 0",
    ]
}

// Thread 1 waits too.
#[test]
fn waits_under_hints(rt: HostRuntime) -> Result<(), Fail> {
    let (rows, threads) = (waits_under_hints_rows(), [Runs(28), Waits(0)]);
    let found = differences(rt.alloc(), &TURNS, &threads, 65536, &rows)?;
    assert_eq!(rt; found.as_str(), "");
    Ok(())
}

fn the_guest_ends_under_hints_rows() -> [Row; 4] {
    [
        "1:9 2:9 | 1n | 99 3 1 | 2:9 1:3; exit 7; x10 7 0",
        "1:3 2:4 | 1w | 99 3 1 | 1:3; exit 7; x10 7 0",
        "1:2 2:4 | 1w | 99 3 1 | 1:2 2:3 1:1; exit 7; x10 7 0",
        "1:4 2:2 | 1l 2n | 99 3 1 | 2:2 1:2 1:1; exit 7; x10 7 0",
    ]
}

#[test]
fn the_guest_ends_under_hints(rt: HostRuntime) -> Result<(), Fail> {
    let (rows, threads) = (the_guest_ends_under_hints_rows(), [Runs(0), Runs(12)]);
    let found = differences(rt.alloc(), &EXITS, &threads, 65536, &rows)?;
    assert_eq!(rt; found.as_str(), "");
    Ok(())
}

fn writes_under_hints_rows() -> [Row; 7] {
    [
        // At the last of the entries.
        "1:50 | 1n*16 | 1000 9 1 | 1:50; 65536 written; x10 4096 0",
        "1:60 2:10 | 1w*16 | 1000 9 1 | 1:50; 65536 written; x10 4096 0",
        // Entries and steps are left.
        "1:90 2:10 | 1n*20 | 1000 9 1 | 2:10 1:50; 65536 written; x10 4096 0",
        "1:90 2:1 | 1w*15 1l 1l | 1000 9 1 | 1:47 2:1 1:2 1:1; 65536 written; x10 4096 0",
        // Dropped on the way.
        "1:90 | 1n*15 2n | 1000 40 1 | 1:49 2:40 1:1; 65536 written; x10 4096 0",
        "1:23 | 1n*7 | 1000 40 1 | 1:23; 28672 written; x10 4096 0",
        // Just before.
        "1:49 | 1n*16 | 1000 9 1 | 1:49; 61440 written; x10 1 0",
    ]
}

// The sixteenth write ends the epoch.
#[test]
fn writes_under_hints(rt: HostRuntime) -> Result<(), Fail> {
    let (rows, threads) = (writes_under_hints_rows(), [Runs(0), Runs(24)]);
    let found = differences(rt.alloc(), &WRITES, &threads, 65536, &rows)?;
    assert_eq!(rt; found.as_str(), "");
    Ok(())
}

fn reads_under_hints_rows() -> [Row; 6] {
    [
        // At the last of the entries.
        "1:51 | 1n*16 | 1000 9 1 | 1:51; 65536 read; x10 4096 0",
        "1:60 2:10 | 1w*16 | 1000 9 1 | 1:51; 65536 read; x10 4096 0",
        // Entries and steps are left.
        "1:90 2:10 | 1n*20 | 1000 9 1 | 2:10 1:51; 65536 read; x10 4096 0",
        "1:90 2:1 | 1w*15 1l 1l | 1000 9 1 | 1:48 2:1 1:2 1:1; 65536 read; x10 4096 0",
        // Dropped on the way.
        "1:90 | 1n*15 2n | 1000 40 1 | 1:50 2:40 1:1; 65536 read; x10 4096 0",
        // Just before.
        "1:50 | 1n*16 | 1000 9 1 | 1:50; 61440 read; x10 0 0",
    ]
}

// The sixteenth read ends the epoch.
#[test]
fn reads_under_hints(rt: HostRuntime) -> Result<(), Fail> {
    let (rows, threads) = (reads_under_hints_rows(), [Runs(0), Runs(28)]);
    let found = differences(rt.alloc(), &READS, &threads, 0, &rows)?;
    assert_eq!(rt; found.as_str(), "");
    Ok(())
}

fn reads_without_an_answer_rows() -> [Row; 3] {
    [
        "1:9 | 1n 1n | 12 4 1 | 1:8 2:4; 1000 read; x10 0 0",
        "1:9 2:2 | 1w 1w | 12 4 1 | 1:8 2:4; 1000 read; x10 0 0",
        "1:7 2:2 | 1n 1n | 12 4 1 | 2:2 1:7; 1000 read; x10 1000 0",
    ]
}

// There are 1,000 bytes left for the first read.
#[test]
fn reads_without_an_answer(rt: HostRuntime) -> Result<(), Fail> {
    let (rows, threads) = (reads_without_an_answer_rows(), [Runs(0), Runs(28)]);
    let found = differences(rt.alloc(), &READS, &threads, 64536, &rows)?;
    assert_eq!(rt; found.as_str(), "");
    Ok(())
}

fn reads_without_an_answer_alone_rows() -> [Row; 2] {
    [
        "1:9 | 1n 1n | 12 4 1 | 1:8; 1000 read; x10 0 0",
        "1:9 | 1n | 12 4 1 | 1:8; 1000 read; x10 0 0",
    ]
}

#[test]
fn reads_without_an_answer_alone(rt: HostRuntime) -> Result<(), Fail> {
    let (rows, threads) = (reads_without_an_answer_alone_rows(), [Runs(0)]);
    let found = differences(rt.alloc(), &READS, &threads, 64536, &rows)?;
    assert_eq!(rt; found.as_str(), "");
    Ok(())
}

fn clock_under_hints_rows() -> [Row; 1] {
    ["1:4 | 1n 1n | 9 1 1 | 1:4; x10 7 0"]
}

#[test]
fn clock_under_hints(rt: HostRuntime) -> Result<(), Fail> {
    let (rows, threads) = (clock_under_hints_rows(), [Runs(0)]);
    let found = differences(rt.alloc(), &CLOCKS, &threads, 0, &rows)?;
    assert_eq!(rt; found.as_str(), "");
    Ok(())
}

fn wakes_under_hints_rows() -> [Row; 3] {
    [
        // It runs after the wake.
        "1:3 2:4 | 2n | 99 2 1 | 2:4 1:3; x10 0 1",
        // And before, its entry cannot be followed.
        "1:3 2:4 | 1n 2n | 9 2 1 | 2:3 2:2 1:2 2:2; x10 0 1",
        "1:3 2:6 | 2n 2n | 12 2 1 | 2:4 1:3 2:2; x10 0 1",
    ]
}

// Thread 1 waits, and runs on at 16.
#[test]
fn wakes_under_hints(rt: HostRuntime) -> Result<(), Fail> {
    let (rows, threads) = (wakes_under_hints_rows(), [Waits(16), Runs(0)]);
    let found = differences(rt.alloc(), &WAKES, &threads, 65536, &rows)?;
    assert_eq!(rt; found.as_str(), "");
    Ok(())
}

fn a_woken_thread_takes_an_entry_rows() -> [Row; 3] {
    [
        "1:3 2:5 | 2n 1n | 99 2 1 | 2:5 1:3; x10 0 1",
        "1:3 2:5 | 2w 1w | 99 2 1 | 2:4 1:3 2:1; x10 0 1",
        "1:3 2:5 | 1w 2w | 9 3 1 | 2:3 2:3 1:2 2:1; x10 0 1",
    ]
}

// Thread 1 waits, and runs on at 20.
#[test]
fn a_woken_thread_takes_an_entry(rt: HostRuntime) -> Result<(), Fail> {
    let (rows, threads) = (a_woken_thread_takes_an_entry_rows(), [Waits(20), Runs(0)]);
    let found = differences(rt.alloc(), &WAKES, &threads, 65536, &rows)?;
    assert_eq!(rt; found.as_str(), "");
    Ok(())
}

fn spawns_under_hints_rows() -> [Row; 6] {
    [
        // The thread that is made has counts and entries.
        "1:5 2:3 | 1n 2n | 99 2 1 | 1:5 2:3; x10 2 0",
        "1:5 2:3 | 1w 2w | 99 2 1 | 1:4 2:2 1:1 2:1; x10 2 0",
        "2:4 1:4 | 1n 2n | 99 2 1 | 1:4 2:4; x10 2 0",
        // But not before it is made.
        "1:5 2:3 | 2n 1n | 9 2 1 | 1:3 1:2 2:2 1:2; x10 2 0",
        "1:5 2:3 | 2w 1n | 9 3 1 | 1:3 1:3 2:2 1:1; x10 2 0",
        // And none after it.
        "1:4 2:1 3:1 | 1n 3n | 9 2 1 | 1:4 2:1 1:2 2:1 1:1; x10 2 0",
    ]
}

#[test]
fn spawns_under_hints(rt: HostRuntime) -> Result<(), Fail> {
    let (rows, threads) = (spawns_under_hints_rows(), [Runs(0)]);
    let found = differences(rt.alloc(), &SPAWNS, &threads, 65536, &rows)?;
    assert_eq!(rt; found.as_str(), "");
    Ok(())
}

fn a_lock_under_hints_rows() -> [Row; 7] {
    [
        // One after the other.
        "1:9 2:9 | 1n 1w 1n 1n 2n 2w 2n 2n | 99 3 1 | 2:3 1:9 2:6; x10 0 0",
        // Both load; the second wins.
        "1:8 2:9 | 1n 2n 2w 1l 2n 2n | 21 3 1 | 2:3 1:5 2:4 1:2 2:2 1:3 2:2; x10 0 1",
        // And the first tries once more.
        "1:13 2:9 | 1n 2n 2w 1l 2n 2n 1n 1w 1n 1n | 99 3 1 | 2:3 1:5 2:4 1:2 2:2 1:6; x10 0 0",
        // The first finds it taken.
        "1:11 2:9 | 2n 2w 1n 2n 2n 1n 1w 1n 1n | 99 3 1 | 1:3 2:7 1:2 2:2 1:6; x10 0 0",
        // That it won is not known: turns of the other in between.
        "1:9 2:4 | 1n 1n 2n | 17 3 1 | 2:3 1:7 2:1 1:3 2:3; x10 0 0",
        "1:9 2:4 | 2n 1n 1n 1n | 18 3 1 | 1:3 2:4 1:5 2:3 1:3; x10 0 1",
        // An entry more than there are.
        "1:9 2:9 | 1n 1w 1n 1n 1n 2n | 22 3 1 | 2:3 1:9 2:3 1:3 2:3 1:1; x10 0 0",
    ]
}

// Hints as a run of two threads side by side gives them.
#[test]
fn a_lock_under_hints(rt: HostRuntime) -> Result<(), Fail> {
    let (rows, threads) = (a_lock_under_hints_rows(), [Runs(0), Runs(0)]);
    let found = differences(rt.alloc(), &LOCK, &threads, 65536, &rows)?;
    assert_eq!(rt; found.as_str(), "");
    Ok(())
}

fn hints_of_hi_rows() -> [Row; 4] {
    [
        "1:9 | 1n 1n | 99 3 1 | 1:9; exit 0; 3 written; x10 0 0",
        "1:9 | 1n 1n | 8 3 1 | 1:8; 3 written; x10 0 0",
        "1:9 | 1n | 99 3 1 | 1:8 1:1; exit 0; 3 written; x10 0 0",
        "1:8 | 1n | 99 3 1 | 1:8; 3 written; x10 0 0",
    ]
}

#[test]
fn hints_of_hi(rt: HostRuntime) -> Result<(), Fail> {
    let (rows, threads) = (hints_of_hi_rows(), [Runs(0)]);
    let found = differences(rt.alloc(), &HI, &threads, 65536, &rows)?;
    assert_eq!(rt; found.as_str(), "");
    Ok(())
}

// A guest from its file, whose start has a stack too: addi x10, x0, 7; addi x17, x0, 1; ecall.
#[test]
fn counts_of_a_file(rt: HostRuntime) -> Result<(), Fail> {
    let alloc = rt.alloc();
    let file = file_of(alloc, &[0x0070_0513, EXIT_ALL, ECALL])?;
    for (counts, expected) in [
        ("1:2", "1:2; x10 7 0"),
        ("1:3", "1:2 1:1; exit 7; x10 7 0"),
        ("-", "1:3; exit 7; x10 7 0"),
    ] {
        let start = start_from_file(alloc, &file)?;
        let hints = hints_of(alloc, counts, "-")?;
        let supply = nothing_known(alloc)?;
        let found = outcome(alloc, start, &hints, &supply, (20_000, 1_000, 1))?;
        assert_eq!(rt; found.as_str(), expected);
    }
    Ok(())
}
