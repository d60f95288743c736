// Epochs by hints: which threads take which turns, and when the hints are dropped. Each outcome is that of a model of
// the machine and of its schedule, which was written apart from this code.
use crate::epoch_guests::Stands::{Gone, Runs, Waits};
use crate::hinted_guests::*;
use std::test::Fail;

fn counts_without_an_order_rows() -> [Row; 16] {
    [
        // One epoch of two steps.
        "1:2 | - | 9 9 1 | 1:2; x10 7 0",
        // No hints: round robin.
        "- | - | 5 2 2 | 2:2 1:2 2:1; x10 7 0",
        // No thread has steps left: round robin, whatever the order is.
        "1:0 2:0 | 1n 2n | 5 2 2 | 2:2 1:2 2:1; x10 7 0",
        "- | 1n 2w | 5 2 2 | 2:2 1:2 2:1; x10 7 0",
        // A thread has steps that are no plain turns: the hints are dropped.
        "1:3 | - | 9 2 1 | 1:2 2:2 1:1; exit 7; x10 7 0",
        // The first count of a thread is the one.
        "1:1 1:5 | - | 9 9 1 | 1:1; x10 0 0",
        "1:0 1:5 | - | 5 2 2 | 2:2 1:2 2:1; x10 7 0",
        "1:0 2:1 1:5 | - | 9 9 1 | 2:1; x10 0 0",
        // Threads that were never made.
        "3:1 | - | 5 2 2 | 2:2 1:2 2:1; x10 7 0",
        "3:1 1:2 | - | 9 4 1 | 1:2 2:4 1:1; exit 7; x10 7 0",
        "0:1 | - | 5 2 2 | 2:2 1:2 2:1; x10 7 0",
        "1:1 65535:4294967295 | - | 5 2 1 | 1:1 2:2 1:2; exit 7; x10 7 0",
        "1:4294967295 2:4294967295 | - | 9 2 1 | 1:2 2:7; x10 7 0",
        "1:65536 2:2 | - | 6 2 2 | 1:2 2:2 1:1; exit 7; x10 7 0",
        "2:4294967295 1:4294967295 0:4294967295 | - | 9 2 1 | 1:2 2:7; x10 7 0",
        // Nothing to run.
        "1:2 | - | 0 2 1 | idle",
    ]
}

// Steps of threads alone: their plain turns, and then round robin if steps are left.
#[test]
fn counts_without_an_order(rt: HostRuntime) -> Result<(), Fail> {
    let (rows, threads) = (counts_without_an_order_rows(), [Runs(0), Runs(12)]);
    let found = differences(rt.alloc(), &EXITS, &threads, 65536, &rows)?;
    assert_eq!(rt; found.as_str(), "");
    Ok(())
}

fn entries_of_threads_that_were_never_made_rows() -> [Row; 5] {
    [
        // The others take their plain turns first, and then the hints are dropped.
        "1:1 2:2 | 0n | 9 9 1 | 1:1 2:2; x10 0 0",
        "1:1 2:2 0:1 | 0n | 6 2 1 | 1:1 2:2 1:2; exit 7; x10 7 0",
        "1:2 2:2 3:1 | 65535n | 6 2 1 | 1:2 2:2 1:1; exit 7; x10 7 0",
        "2:2 3:1 | 3l | 6 2 2 | 2:2 1:2 2:2; x10 7 0",
        "1:1 2:2 3:1 | 3w | 5 2 2 | 2:2 1:2 2:1; x10 7 0",
    ]
}

// The other threads take their plain turns before such an entry ends the hints.
#[test]
fn entries_of_threads_that_were_never_made(rt: HostRuntime) -> Result<(), Fail> {
    let (rows, threads) = (
        entries_of_threads_that_were_never_made_rows(),
        [Runs(0), Runs(12)],
    );
    let found = differences(rt.alloc(), &EXITS, &threads, 65536, &rows)?;
    assert_eq!(rt; found.as_str(), "");
    Ok(())
}

fn turns_before_an_entry_rows() -> [Row; 13] {
    [
        // The plain turns of the others first, in order of number.
        "1:3 2:3 3:3 | 2n 1n 3n | 99 2 1 | 1:2 3:2 2:3 1:1 3:1; x10 0 0",
        "1:3 2:3 3:3 | 3l 2l 1l | 99 2 1 | 1:2 2:2 3:2 3:1 2:1 1:1; x10 0 0",
        // But not before an SC that won.
        "1:3 2:3 3:3 | 2w 1w 3w | 99 2 1 | 2:3 1:3 3:3; x10 0 0",
        "1:3 2:3 3:3 | 2w 1n 3n | 99 2 1 | 2:3 3:2 1:3 3:1; x10 0 0",
        "1:9 2:9 3:3 | 1n 1w 2n 2w 1n 2w 3n | 99 2 1 | 2:2 3:2 1:8 2:6 1:1 2:1 3:1; x10 0 0",
        // No more plain turns than are left.
        "1:1 2:3 3:2 | 2n | 99 2 1 | 1:1 3:2 2:3; x10 0 0",
        "1:2 2:4 3:0 | 2n | 99 2 1 | 1:2 2:4; x10 0 0",
        // All of one thread in one slice, through yields.
        "1:9 | 1n 1n 1n | 99 2 1 | 1:9; x10 0 0",
        // Counts that are used up before the entries are.
        "1:3 | 1n 1n 2n | 99 2 1 | 1:3; x10 0 0",
        "1:3 2:2 | 1n 1n | 99 2 1 | 2:2 1:3; x10 0 0",
        // After the last entry, all plain turns, in order of number.
        "1:2 2:2 3:2 | - | 99 2 1 | 1:2 2:2 3:2; x10 0 0",
        "1:5 2:5 3:2 | 1n 2n | 99 2 1 | 2:2 3:2 1:5 2:3; x10 0 0",
        "3:5 2:2 1:2 | 3w | 99 2 1 | 3:3 1:2 2:2 3:2; x10 0 0",
    ]
}

#[test]
fn turns_before_an_entry(rt: HostRuntime) -> Result<(), Fail> {
    let (rows, threads) = (turns_before_an_entry_rows(), [Runs(0), Runs(0), Runs(0)]);
    let found = differences(rt.alloc(), &TURNS, &threads, 65536, &rows)?;
    assert_eq!(rt; found.as_str(), "");
    Ok(())
}

fn entries_that_cannot_be_followed_rows() -> [Row; 12] {
    [
        // Its turn is plain, since nothing is left: at the first entry.
        "2:1 1:3 | 2n 1n | 9 2 1 | 1:2 2:1 3:2 1:1 2:2 3:1; x10 0 0",
        "2:1 1:3 | 2w 1n | 9 2 1 | 2:1 3:2 1:2 2:2 3:1 1:1; x10 0 0",
        // Nothing left for it at all.
        "2:3 | 1n 2n | 8 2 1 | 2:2 3:2 1:2 2:1 3:1; x10 0 0",
        "2:3 | 1w 2n | 8 2 3 | 3:2 1:2 2:2 3:1 1:1; x10 0 0",
        "1:6 2:1 | 1n 2w 1n | 9 2 1 | 2:1 1:3 2:2 3:2 1:1; x10 0 0",
        // At the last entry.
        "1:4 2:4 3:7 4:1 | 3n 3n 2n 1n 3l | 19 2 1 | 1:2 2:2 3:7 2:2 1:2 2:2 3:2; x10 0 0",
        "1:3 2:3 3:7 | 1n 2n 3n 1n | 14 2 1 | 2:2 3:2 1:3 2:1 3:3 1:2 2:1; x10 0 0",
        "1:3 2:3 3:5 | 1n 2n 3n 1n | 14 2 1 | 2:2 3:2 1:3 2:1 3:3; x10 0 0",
        // After it.
        "1:4 2:3 3:3 | 1n 2n | 14 2 1 | 2:2 3:2 1:4 2:1 3:1 1:2 2:2; x10 0 0",
        "1:3 2:3 3:6 | 1n 2n 3n | 14 2 1 | 2:2 3:2 1:3 2:1 3:3 1:2 2:1; x10 0 0",
        // The thread that ran last goes on in a slice of its own.
        "1:3 4:1 | 1n | 7 4 1 | 1:3 2:3 3:1; x10 0 0",
        "3:3 4:1 | 3n | 7 4 1 | 3:3 1:3 2:1; x10 0 0",
    ]
}

// From there on the epoch goes by round robin, from the thread after the one that ran last.
#[test]
fn entries_that_cannot_be_followed(rt: HostRuntime) -> Result<(), Fail> {
    let (rows, threads) = (
        entries_that_cannot_be_followed_rows(),
        [Runs(0), Runs(0), Runs(0)],
    );
    let found = differences(rt.alloc(), &TURNS, &threads, 65536, &rows)?;
    assert_eq!(rt; found.as_str(), "");
    Ok(())
}

fn the_only_thread_rows() -> [Row; 8] {
    [
        // Dropped hints: a new slice of the same thread.
        "1:4 2:1 | 1n 2n | 7 2 1 | 1:4 1:2 1:1; x10 0 0",
        "1:4 2:1 | 1n 2n | 7 9 1 | 1:4 1:2 1:1; x10 0 0",
        "1:4 2:1 | 1w 2w | 3 9 1 | 1:3; x10 0 0",
        "1:4 2:1 | 1l 2l | 7 9 1 | 1:2 1:2 1:2 1:1; x10 0 0",
        "1:4 | 1w 1w | 7 9 1 | 1:4; x10 0 0",
        "1:6 | 1n 1l | 9 9 1 | 1:5 1:1; x10 0 0",
        "2:1 | 1n | 7 9 1 | 1:3 1:3 1:1; x10 0 0",
        "1:9 | - | 7 9 1 | 1:2 1:1 1:3 1:1; x10 0 0",
    ]
}

// Dropped hints begin a new slice, also of the thread that ran last.
#[test]
fn the_only_thread(rt: HostRuntime) -> Result<(), Fail> {
    let (rows, threads) = (the_only_thread_rows(), [Runs(0)]);
    let found = differences(rt.alloc(), &TURNS, &threads, 65536, &rows)?;
    assert_eq!(rt; found.as_str(), "");
    Ok(())
}

fn threads_that_cannot_step_rows() -> [Row; 7] {
    [
        // One that waits.
        "1:2 2:1 | 2n | 8 3 1 | 1:2 4:1 1:1 1:3 1:1; x10 0 0",
        "1:2 2:1 | 2w | 5 3 4 | 4:1 1:3 1:1; x10 0 0",
        // One that has exited.
        "1:2 3:1 | 3n | 8 3 1 | 1:2 4:1 1:1 1:3 1:1; x10 0 0",
        "1:2 3:1 | 3w | 5 3 4 | 4:1 1:3 1:1; x10 0 0",
        // One at a read whose answer is not known.
        "1:2 4:5 | 4n | 8 3 1 | 1:2 4:1 1:1 1:3 1:1; x10 0 0",
        "4:5 | 4w | 8 3 2 | 4:1 1:3 1:3 1:1; x10 0 0",
        // Counts of all of these, and no entry.
        "1:2 2:2 3:2 4:2 | - | 8 3 1 | 1:2 4:1 1:1 1:3 1:1; x10 0 0",
    ]
}

// Thread 2 waits, thread 3 has exited, thread 4 comes to a read whose answer is not known.
#[test]
fn threads_that_cannot_step(rt: HostRuntime) -> Result<(), Fail> {
    let (rows, threads) = (
        threads_that_cannot_step_rows(),
        [Runs(0), Waits(0), Gone, Runs(52)],
    );
    let found = differences(rt.alloc(), &TURNS, &threads, 65536, &rows)?;
    assert_eq!(rt; found.as_str(), "");
    Ok(())
}

fn steps_of_the_epoch_rows() -> [Row; 16] {
    [
        "1:9 2:9 3:9 | 2n 2n 1n 1n 3n | 1 9 1 | 1:1; x10 0 0",
        // Before an entry.
        "1:9 2:9 3:9 | 2n 2n 1n 1n 3n | 3 9 1 | 1:2 3:1; x10 0 0",
        "1:9 2:9 3:9 | 2n 2n 1n 1n 3n | 4 9 1 | 1:2 3:2; x10 0 0",
        "1:9 2:9 3:9 | 2n 2n 1n 1n 3n | 5 9 1 | 1:2 3:2 2:1; x10 0 0",
        // At an entry.
        "1:9 2:9 3:9 | 2n 2n 1n 1n 3n | 6 9 1 | 1:2 3:2 2:2; x10 0 0",
        "1:9 2:9 3:9 | 2n 2n 1n 1n 3n | 7 9 1 | 1:2 3:2 2:3; x10 0 0",
        "1:9 2:9 3:9 | 2n 2n 1n 1n 3n | 9 9 1 | 1:2 3:2 2:5; x10 0 0",
        "1:9 2:9 3:9 | 2n 2n 1n 1n 3n | 17 9 1 | 1:2 3:2 2:8 1:5; x10 0 0",
        // After the last entry.
        "1:5 2:5 3:5 | 1n | 8 9 1 | 2:2 3:2 1:4; x10 0 0",
        "1:5 2:5 3:5 | 1n | 9 9 1 | 2:2 3:2 1:5; x10 0 0",
        "1:5 2:5 3:5 | - | 6 9 1 | 1:2 2:2 3:2; x10 0 0",
        "1:5 2:5 3:5 | - | 5 9 1 | 1:2 2:2 3:1; x10 0 0",
        // At an entry that cannot be followed.
        "1:3 2:3 | 1n 1n 2n | 5 9 1 | 2:2 1:3; x10 0 0",
        "1:3 2:3 | 1n 1n 2n | 6 9 1 | 2:2 1:3 2:1; x10 0 0",
        // After that.
        "1:3 2:3 | 1n 1n 2n | 7 9 1 | 2:2 1:3 2:1 3:1; x10 0 0",
        "1:3 2:3 | 1n 1n 2n | 9 2 1 | 2:2 1:3 2:1 3:2 1:1; x10 0 0",
    ]
}

// The bound on the steps of an epoch, at each of the rules.
#[test]
fn steps_of_the_epoch(rt: HostRuntime) -> Result<(), Fail> {
    let (rows, threads) = (steps_of_the_epoch_rows(), [Runs(0), Runs(0), Runs(0)]);
    let found = differences(rt.alloc(), &TURNS, &threads, 65536, &rows)?;
    assert_eq!(rt; found.as_str(), "");
    Ok(())
}

fn reservations_under_hints_rows() -> [Row; 12] {
    [
        "1:3 | 1n 1n | 9 1 1 | 1:3; x10 0 0",
        "1:3 | 1n 1w | 9 1 1 | 1:3; x10 0 0",
        // An SC that lost begins a slice, and so its reservation is dropped.
        "1:3 | 1n 1l | 9 1 1 | 1:2 1:1; x10 1 0",
        "1:3 | 1l 1l | 9 1 1 | 1:1 1:1 1:1; x10 1 0",
        // An LR after which a slice begins.
        "1:3 | 1l 1w | 9 1 1 | 1:1 1:2; x10 0 0",
        // A slice that would begin without a turn.
        "1:3 2:1 | 1n 2l | 5 9 1 | 2:1 1:2 2:2; x10 0 0",
        // The plain turn of another thread in between.
        "1:3 2:1 | 1w 1w | 9 1 1 | 1:3 2:1; x10 0 0",
        "1:3 2:1 | 1w 1n | 9 1 1 | 1:2 2:1 1:1; x10 1 0",
        "1:3 2:2 | 1n 2n 1w | 9 1 1 | 2:1 1:2 2:1 1:1; x10 1 0",
        "1:3 2:3 | 1n 2n 2w 1l | 9 1 1 | 2:1 1:2 2:2 1:1; x10 1 0",
        "1:3 2:3 | 1n 2n 1w 2l | 9 1 1 | 2:1 1:2 2:1 1:1 2:1; x10 1 1",
        // Dropped between LR and SC.
        "1:4 | 1n 2n | 4 9 1 | 1:2 2:2; x10 0 0",
    ]
}

// x10 is 0 if the SC stored, else 1.
#[test]
fn reservations_under_hints(rt: HostRuntime) -> Result<(), Fail> {
    let (rows, threads) = (reservations_under_hints_rows(), [Runs(0), Runs(0)]);
    let found = differences(rt.alloc(), &LOSES, &threads, 65536, &rows)?;
    assert_eq!(rt; found.as_str(), "");
    Ok(())
}

fn each_thread_is_passed_once_rows() -> [Row; 3] {
    [
        // A store makes the first thread's turn plain: it takes it before the next entry.
        "1:2 2:4 3:3 | 3n 3n | 9 9 1 | 2:4 3:2 1:2 3:1; x10 0 0",
        "1:2 2:4 3:2 | 3n | 9 9 1 | 2:4 3:2 1:2; x10 0 0",
        // After the last entry too: what is left then is dropped.
        "1:2 2:4 | - | 8 9 1 | 2:4 3:2 1:2; x10 0 0",
    ]
}

// Thread 2 makes the next turn of thread 1 a plain one, after thread 1 was passed.
#[test]
fn each_thread_is_passed_once(rt: HostRuntime) -> Result<(), Fail> {
    let (rows, threads) = (
        each_thread_is_passed_once_rows(),
        [Runs(0), Runs(8), Runs(28)],
    );
    let found = differences(rt.alloc(), &PATCHES, &threads, 65536, &rows)?;
    assert_eq!(rt; found.as_str(), "");
    Ok(())
}
