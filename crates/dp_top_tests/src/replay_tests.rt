// Replays on memory forms: of recordings, and where calls fail.
ghost use Rattle.std.specs.Prelude.{◌<◌};

use crate::command::ran;
use disk_mem::{Call, MemWorld};
use disk_model::Stream;
use dp_report::Status;
use std::alloc::Global;
use std::sync::Wait;
use std::test::Fail;
use std::thread::Threads;
use test_files::{EXITS, WRITES};
use test_journals::journal_of;
use test_worlds::{Failing, world_of};

pub(crate) const REPLAY: &[&str] = &["dpcli", "replay", "j"];

// Of one epoch of nine steps.
pub(crate) const ONE_OF_WRITES: &[u8] =
    b"epochs 1 squashes 0 steps 9 sent 3 end exit 0 state 5e7e08b662a2648fef71b4527eed27a6cdaea8232e2b564dfcc9f494b1615bd4\n";

// The body of an epoch of thread 1, of nine steps.
pub(crate) const NINE_STEPS: &[u8] = b"\x00\x01\0\0\0\x01\0\x09\0\0\0\0\0\0\0";

fn are_reads(calls: &[Call]) -> bool {
    for call in calls {
        match call {
            Call::Write { .. } => return false,
            Call::Cut { .. } => return false,
            Call::Sync { .. } => return false,
            _ => {}
        }
    }
    true
}

// A world some of whose calls fail, which has this journal on its disk, and takes so many bytes at most at an emit.
pub(crate) fn world_with(
    alloc: Global,
    journal: &[u8],
    disk: Failing,
    sink: Failing,
    piece: u32,
) -> Result<MemWorld, Fail>
    requires { 0 < piece }
{
    Ok(world_of(alloc, disk, sink, piece)?.of_disk(alloc, journal)?)
}

// Whether a replay sent these bytes on Out and on Note, and did no more than read the disk, which has this journal.
fn is_right(world: &MemWorld, journal: &[u8], sent: &[u8], noted: &[u8]) -> Result<(), Fail> {
    if !are_reads(world.calls()) || world.bytes() != journal {
        return Err("a replay only reads the disk".into());
    }
    if world.sent(Stream::Out) != sent {
        return Err("other bytes on Out".into());
    }
    if world.sent(Stream::Note) != noted {
        return Err("other bytes on Note".into());
    }
    Ok(())
}

// The status of a replay in this world, and its number, where it sent these bytes on Out and on Note, and did no more
// than read the disk, which has this journal.
pub(crate) fn replays_as<R: Threads + Wait + Sync>(
    rt: &R,
    alloc: Global,
    words: &[&str],
    world: MemWorld,
    journal: &[u8],
    sent: &[u8],
    noted: &[u8],
) -> Result<(Status, u8), Fail> {
    let (after, status) = ran(rt, alloc, words, &[], Failing::Never, &[], world)?;
    is_right(&after, journal, sent, noted)?;
    Ok((status, status.number()))
}

// The same of a replay, by these words, that meets no fault.
pub(crate) fn plays_as<R: Threads + Wait + Sync>(
    rt: &R,
    alloc: Global,
    words: &[&str],
    journal: &[u8],
    sent: &[u8],
    noted: &[u8],
) -> Result<(Status, u8), Fail> {
    let world = world_with(alloc, journal, Failing::Never, Failing::Never, 4096)?;
    replays_as(rt, alloc, words, world, journal, sent, noted)
}

// A recording, by these words, on an empty disk.
pub(crate) fn recorded<R: Threads + Wait + Sync>(
    rt: &R,
    alloc: Global,
    words: &[&str],
    guest: &[u8],
) -> Result<(MemWorld, Status), Fail> {
    let empty = world_with(alloc, b"", Failing::Never, Failing::Never, 4096)?;
    ran(rt, alloc, words, guest, Failing::Never, &[], empty)
}

// Of a journal, where some calls fail, and an emit takes so many bytes at most.
fn failing_plays_as<R: Threads + Wait + Sync>(
    rt: &R,
    alloc: Global,
    journal: &[u8],
    disk: Failing,
    sink: Failing,
    piece: u32,
    sent: &[u8],
    noted: &[u8],
) -> Result<(Status, u8), Fail>
    requires { 0 < piece }
{
    let world = world_with(alloc, journal, disk, sink, piece)?;
    replays_as(rt, alloc, REPLAY, world, journal, sent, noted)
}

// Of the journal of `WRITES` with one epoch.
fn writes_play_as<R: Threads + Wait + Sync>(
    rt: &R,
    alloc: Global,
    disk: Failing,
    sink: Failing,
    piece: u32,
    sent: &[u8],
    noted: &[u8],
) -> Result<(Status, u8), Fail>
    requires { 0 < piece }
{
    let journal = journal_of(alloc, &WRITES, &[NINE_STEPS])?;
    failing_plays_as(rt, alloc, &journal, disk, sink, piece, sent, noted)
}

// The same where the call on the disk with this number fails, and where all from it on fail.
fn disk_fails<R: Threads + Wait + Sync>(
    rt: &R,
    alloc: Global,
    number: u64,
) -> Result<[(Status, u8); 2], Fail> {
    let line: &[u8] = b"dpcli: journal device failed\n";
    let (one, all) = (Failing::At(number), Failing::From(number));
    let once = writes_play_as(rt, alloc, one, Failing::Never, 4096, b"", line)?;
    let ever = writes_play_as(rt, alloc, all, Failing::Never, 4096, b"", line)?;
    Ok([once, ever])
}

// The same of an emit, with what Note gets of each.
fn emit_fails<R: Threads + Wait + Sync>(
    rt: &R,
    alloc: Global,
    number: u64,
    piece: u32,
    sent: &[u8],
    noted: &[u8],
    noted_before: &[u8],
) -> Result<[(Status, u8); 2], Fail>
    requires { 0 < piece }
{
    let (one, all) = (Failing::At(number), Failing::From(number));
    let once = writes_play_as(rt, alloc, Failing::Never, one, piece, sent, noted)?;
    let ever = writes_play_as(rt, alloc, Failing::Never, all, piece, sent, noted_before)?;
    Ok([once, ever])
}

// How long that journal is, and how many calls on the disk a replay of it makes.
fn calls_of_writes<R: Threads + Wait + Sync>(rt: &R, alloc: Global) -> Result<(usize, u64), Fail> {
    let journal = journal_of(alloc, &WRITES, &[NINE_STEPS])?;
    let world = world_with(alloc, &journal, Failing::Never, Failing::Never, 4096)?;
    let (after, _) = ran(rt, alloc, REPLAY, &[], Failing::Never, &[], world)?;
    Ok((journal.len(), after.disk_calls()))
}

// It is attached, and read.
#[test]
fn disk_calls_of_a_replay(rt: HostRuntime) -> Result<(), Fail> {
    let (len, calls) = calls_of_writes(&rt, rt.alloc())?;
    assert_eq!(rt; (len, calls >= 2), (154, true));
    Ok(())
}

#[test]
fn each_disk_call_of_a_replay_fails(rt: HostRuntime) -> Result<(), Fail> {
    let (_, calls) = calls_of_writes(&rt, rt.alloc())?;
    for number in 1..=calls {
        let came = disk_fails(&rt, rt.alloc(), number)?;
        assert_eq!(rt; came, [(Status::DiskFault, 6); 2], "call {number}");
    }
    Ok(())
}

// Where the calls after the last would fail.
fn behind_the_disk_calls<R: Threads + Wait + Sync>(
    rt: &R,
    alloc: Global,
) -> Result<(Status, u8), Fail> {
    let (_, calls) = calls_of_writes(rt, alloc)?;
    let behind = Failing::From(calls.saturating_add(1));
    writes_play_as(
        rt,
        alloc,
        behind,
        Failing::Never,
        4096,
        b"hi\n",
        ONE_OF_WRITES,
    )
}

#[test]
fn disk_calls_behind_the_last(rt: HostRuntime) -> Result<(), Fail> {
    assert_eq!(rt; behind_the_disk_calls(&rt, rt.alloc())?, (Status::Ok, 0));
    Ok(())
}

// The first emit that fails; the answer, what is sent on Out and on Note, and on Note where all fail from it on.
fn emits_that_fail() -> [(
    u64,
    (Status, u8),
    &'static [u8],
    &'static [u8],
    &'static [u8],
); 3] {
    let failed = (Status::OutputFault, 7);
    let line: &[u8] = b"dpcli: output failed\n";
    [
        (1, failed, b"", line, b""),
        (2, failed, b"hi\n", line, b""),
        (3, (Status::Ok, 0), b"hi\n", ONE_OF_WRITES, ONE_OF_WRITES),
    ]
}

// One emit sends the output, one the report's line, and one the status's. Rows are of one emit that fails, and of all
// from it on.
#[test]
fn each_emit_of_a_replay_fails(rt: HostRuntime) -> Result<(), Fail> {
    for (number, answer, sent, noted, noted_before) in emits_that_fail() {
        let came = emit_fails(&rt, rt.alloc(), number, 4096, sent, noted, noted_before)?;
        assert_eq!(rt; came, [answer; 2], "emit {number}");
    }
    Ok(())
}

// The same of an emit of one byte.
fn bytes_that_fail() -> [(
    u64,
    (Status, u8),
    &'static [u8],
    &'static [u8],
    &'static [u8],
); 7] {
    let failed = (Status::OutputFault, 7);
    let line: &[u8] = b"dpcli: output failed\n";
    [
        (1, failed, b"", line, b""),
        (2, failed, b"h", line, b""),
        (3, failed, b"hi", line, b""),
        (4, failed, b"hi\n", line, b""),
        (5, failed, b"hi\n", b"edpcli: output failed\n", b"e"),
        (
            120,
            failed,
            b"hi\n",
            b"epochs 1 squashes 0 steps 9 sent 3 end exit 0 state 5e7e08b662a2648fef71b4527eed27a6cdaea8232e2b564dfcc9f494b1615bd4dpcli: output failed\n",
            b"epochs 1 squashes 0 steps 9 sent 3 end exit 0 state 5e7e08b662a2648fef71b4527eed27a6cdaea8232e2b564dfcc9f494b1615bd4",
        ),
        (121, (Status::Ok, 0), b"hi\n", ONE_OF_WRITES, ONE_OF_WRITES),
    ]
}

// The same where an emit takes one byte: three send the output, and 117 the report's line. What was sent of that stands
// before the status's line.
#[test]
fn bytes_of_a_replay_fail(rt: HostRuntime) -> Result<(), Fail> {
    for (number, answer, sent, noted, noted_before) in bytes_that_fail() {
        let came = emit_fails(&rt, rt.alloc(), number, 1, sent, noted, noted_before)?;
        assert_eq!(rt; came, [answer; 2], "emit {number}");
    }
    Ok(())
}

// Whether a replay of what a recording left sent the same on Out and on Note, where it did no more than read the disk.
fn sent_again(first: &MemWorld, second: &MemWorld) -> Result<(bool, bool), Fail> {
    let (sent, noted) = (second.sent(Stream::Out), second.sent(Stream::Note));
    is_right(second, first.bytes(), sent, noted)?;
    Ok((
        sent == first.sent(Stream::Out),
        noted == first.sent(Stream::Note),
    ))
}

// The status of that replay, and the same.
fn replay_of<R: Threads + Wait + Sync>(
    rt: &R,
    alloc: Global,
    first: &MemWorld,
) -> Result<(Status, bool, bool), Fail> {
    let world = world_with(alloc, first.bytes(), Failing::Never, Failing::Never, 4096)?;
    let (second, status) = ran(rt, alloc, REPLAY, &[], Failing::Never, &[], world)?;
    let (same_sent, same_noted) = sent_again(first, &second)?;
    Ok((status, same_sent, same_noted))
}

// The statuses of a recording and of a replay of what it left, and whether the second sent the same on Out and on Note.
fn recorded_and_replayed<R: Threads + Wait + Sync>(
    rt: &R,
    alloc: Global,
    words: &[&str],
    guest: &[u8],
) -> Result<(Status, Status, bool, bool), Fail> {
    let (first, recorded) = recorded(rt, alloc, words, guest)?;
    let (replayed, same_sent, same_noted) = replay_of(rt, alloc, &first)?;
    Ok((recorded, replayed, same_sent, same_noted))
}

#[test]
fn recordings_replayed(rt: HostRuntime) -> Result<(), Fail> {
    for steps in ["1", "2", "3", "5", "6", "8", "9", "20000"] {
        let words = ["dpcli", "record", "g", "j", "--epoch", steps];
        for guest in [WRITES.as_slice(), EXITS.as_slice()] {
            let came = recorded_and_replayed(&rt, rt.alloc(), &words, guest)?;
            assert_eq!(rt; came, (Status::Ok, Status::Ok, true, true), "epoch {steps}");
        }
    }
    Ok(())
}

// A recording that stops at its limit has said so on Note, and its replay says what it was.
#[test]
fn stopped_recordings_replayed(rt: HostRuntime) -> Result<(), Fail> {
    let cases = [
        ("1", Status::StepLimit(1), false),
        ("5", Status::StepLimit(5), false),
        ("6", Status::StepLimit(6), false),
        ("8", Status::StepLimit(8), false),
        ("9", Status::Ok, true),
    ];
    for (limit, answer, same) in cases {
        let words = ["dpcli", "record", "g", "j", "--limit", limit];
        let came = recorded_and_replayed(&rt, rt.alloc(), &words, &WRITES)?;
        assert_eq!(rt; came, (answer, Status::Ok, true, same), "limit {limit}");
    }
    Ok(())
}
