// Recordings on memory forms, epoch by epoch.
ghost use Rattle.std.specs.Prelude.{◌<◌, ◌≤◌};

use super::{EXITS_ENDED, WRITES_ENDED};
use disk_mem::{Fails, MemInlet, MemWorld};
use disk_model::{OpenGate, Stream};
use dp_report::Report;
use guest_kernel::{End, start_from_file};
use racing_runner::IdleRacer;
use recorder::{Options, RecordFault, record_};
use std::alloc::Global;
use std::sync::Wait;
use std::test::Fail;
use std::thread::Threads;
use test_files::{EXITS, WRITES};
use test_worlds::{Failing, letters_of, world_of};

// The steps of an epoch and of the recording, and the journal's room.
fn options(epoch: u32, limit: u64, room: u64) -> Options
    requires some_steps { 0 < epoch }
    requires few_steps { epoch ≤ 1000000 }
    requires some { 0 < limit }
    requires few { limit ≤ 1000000000000 }
    requires room { room ≤ 1073741824 }
{
    Options {
        workers: 4,
        epoch,
        slice: 1000,
        ahead: 16,
        mark: 16,
        limit,
        room,
    }
}

const LIMIT: u64 = 1_000_000_000;

const ROOM: u64 = 1 << 30;

// What a recording came to: the journal's length, how many bytes were sent on Out and on Note, whether these are what
// was wanted, and how many calls there were.
#[derive(Clone, Copy)]
struct Came {
    answer: Result<Report, RecordFault>,
    journal: usize,
    sent: usize,
    noted: usize,
    is_sent: bool,
    is_noted: bool,
    calls: usize,
}

fn look_at(world: &MemWorld, answer: Result<Report, RecordFault>, out: &[u8], note: &[u8]) -> Came {
    let (sent, noted) = (world.sent(Stream::Out), world.sent(Stream::Note));
    Came {
        answer,
        journal: world.bytes().len(),
        sent: sent.len(),
        noted: noted.len(),
        is_sent: sent == out,
        is_noted: noted == note,
        calls: world.calls().len(),
    }
}

// A recording of a guest in this world.
fn recorded<R: Threads + Wait + Sync>(
    rt: &R,
    alloc: Global,
    guest: &[u8],
    options: Options,
    world: MemWorld,
) -> Result<(MemWorld, Result<Report, RecordFault>), Fail> {
    let state = start_from_file(alloc, guest)?;
    let mut inlet = MemInlet::new(Vec::new(alloc), Vec::new(alloc), Fails::Never);
    Ok(record_(
        rt, alloc, world, &mut inlet, guest, state, options, IdleRacer, &OpenGate,
    ))
}

// A recording where no call fails.
fn came_to<R: Threads + Wait + Sync>(
    rt: &R,
    alloc: Global,
    guest: &[u8],
    options: Options,
    piece: u32,
    out: &[u8],
) -> Result<Came, Fail>
    requires { 0 < piece }
{
    let empty = world_of(alloc, Failing::Never, Failing::Never, piece)?;
    let (after, answer) = recorded(rt, alloc, guest, options, empty)?;
    Ok(look_at(&after, answer, out, b""))
}

// Whether a recording of `WRITES` in epochs of one step makes these calls.
fn makes_calls<R: Threads + Wait + Sync>(
    rt: &R,
    alloc: Global,
    letters: &[u8],
) -> Result<bool, Fail> {
    let empty = world_of(alloc, Failing::Never, Failing::Never, 4096)?;
    let (after, _) = recorded(rt, alloc, &WRITES, options(1, LIMIT, ROOM), empty)?;
    let seen = letters_of(alloc, after.calls())?;
    Ok(seen.as_slice() == letters)
}

#[test]
fn nine_epochs(rt: HostRuntime) -> Result<(), Fail> {
    let all = Report {
        epochs: 9,
        squashes: 0,
        steps: 9,
        sent: 3,
        end: End::Exit(0),
        state: WRITES_ENDED,
    };
    let came = came_to(
        &rt,
        rt.alloc(),
        &WRITES,
        options(1, LIMIT, ROOM),
        4096,
        b"hi\n",
    )?;
    assert_eq!(rt; came.answer, Ok(all));
    assert_eq!(rt; (came.journal, came.is_sent), (314, true));
    // The length, the header's three writes, and four calls an epoch. The sixth sends its output after them, and the
    // last call sends the note.
    let letters = b"LWSWSWSWSWSWSWSWSWSWSWSWSWSWSWSEWSWSWSWSWSWSE";
    assert!(rt; makes_calls(&rt, rt.alloc(), letters)?);
    Ok(())
}

#[test]
fn one_epoch(rt: HostRuntime) -> Result<(), Fail> {
    let all = Report {
        epochs: 1,
        squashes: 0,
        steps: 9,
        sent: 3,
        end: End::Exit(0),
        state: WRITES_ENDED,
    };
    // In pieces of two bytes.
    let came = came_to(
        &rt,
        rt.alloc(),
        &WRITES,
        options(20_000, LIMIT, ROOM),
        2,
        b"hi\n",
    )?;
    assert_eq!(rt; came.answer, Ok(all));
    assert_eq!(rt; (came.journal, came.is_sent), (154, true));
    // Eleven calls on the disk, two emits of output, and 59 of the note of 117 bytes.
    assert_eq!(rt; came.calls, 11 + 2 + 59);
    Ok(())
}

// The guest of three steps, by the recording's limit and the journal's room: its answer, and the journal's length.
#[test]
fn limits_and_rooms(rt: HostRuntime) -> Result<(), Fail> {
    let ended = Ok(Report {
        epochs: 1,
        squashes: 0,
        steps: 3,
        sent: 0,
        end: End::Exit(7),
        state: EXITS_ENDED,
    });
    let full = |end, need| Err(RecordFault::JournalFull { end, need });
    let cases = [
        (
            options(20_000, 2, ROOM),
            Err(RecordFault::StepLimit(2)),
            126,
        ),
        (options(20_000, 3, ROOM), ended, 126),
        (options(20_000, LIMIT, 126), ended, 126),
        (options(20_000, LIMIT, 125), full(106, 20), 106),
        (options(20_000, LIMIT, 105), full(0, 106), 0),
    ];
    for (options, answer, len) in cases {
        let came = came_to(&rt, rt.alloc(), &EXITS, options, 4096, b"")?;
        let noted = if answer.is_ok() { 117 } else { 0 };
        assert_eq!(rt;
            (came.answer, came.journal, came.noted),
            (answer, len, noted)
        );
    }
    Ok(())
}

// Whether a recording of `EXITS` with a limit of two steps has these bytes in its journal from 111 on.
fn has_slices<R: Threads + Wait + Sync>(
    rt: &R,
    alloc: Global,
    wanted: &[u8],
) -> Result<bool, Fail> {
    let empty = world_of(alloc, Failing::Never, Failing::Never, 4096)?;
    let (after, _) = recorded(rt, alloc, &EXITS, options(20_000, 2, ROOM), empty)?;
    Ok(after.bytes().get(111..121) == Some(wanted))
}

// At a limit of two steps the epoch has one slice, of thread 1 and 2 steps.
#[test]
fn a_slice_at_the_limit(rt: HostRuntime) -> Result<(), Fail> {
    assert!(rt; has_slices(&rt, rt.alloc(), &[1, 0, 0, 0, 1, 0, 2, 0, 0, 0])?);
    Ok(())
}

// What a recording in epochs of one step comes to, where some emits of one byte fail.
fn emits_fail<R: Threads + Wait + Sync>(
    rt: &R,
    alloc: Global,
    sink: Failing,
    out: &[u8],
    note: &[u8],
) -> Result<(Result<Report, RecordFault>, (bool, bool), usize), Fail> {
    let empty = world_of(alloc, Failing::Never, sink, 1)?;
    let (after, answer) = recorded(rt, alloc, &WRITES, options(1, LIMIT, ROOM), empty)?;
    let came = look_at(&after, answer, out, note);
    Ok((came.answer, (came.is_sent, came.is_noted), came.journal))
}

// Nine epochs of one step, whose sixth sends three pieces of one byte; its record is in the journal by then. The
// report's line goes out last.
#[test]
fn each_emit_fails(rt: HostRuntime) -> Result<(), Fail> {
    let fault = Err(RecordFault::OutputFault);
    let cases: [(u64, &[u8], &[u8], usize); 6] = [
        (1, b"", b"", 254),
        (2, b"h", b"", 254),
        (3, b"hi", b"", 254),
        (4, b"hi\n", b"", 314),
        (5, b"hi\n", b"e", 314),
        (
            120,
            b"hi\n",
            b"epochs 9 squashes 0 steps 9 sent 3 end exit 0 state 5e7e08b662a2648fef71b4527eed27a6cdaea8232e2b564dfcc9f494b1615bd4",
            314,
        ),
    ];
    for (number, sent, noted, len) in cases {
        let came = emits_fail(&rt, rt.alloc(), Failing::At(number), sent, noted)?;
        assert_eq!(rt; came, (fault, (true, true), len), "emit {number}");
        let came = emits_fail(&rt, rt.alloc(), Failing::From(number), sent, noted)?;
        assert_eq!(rt; came, (fault, (true, true), len), "emits from {number}");
    }
    Ok(())
}

fn is_open(journal: &[u8], gate: usize) -> bool {
    journal.get(gate).copied() == Some(1)
}

// What a recording in epochs of one step comes to, where some calls on the disk fail: how many bytes were sent on Out
// and on Note, and whether the sixth epoch's gate is open.
fn calls_fail<R: Threads + Wait + Sync>(
    rt: &R,
    alloc: Global,
    disk: Failing,
) -> Result<(Result<Report, RecordFault>, (usize, usize), bool), Fail> {
    let empty = world_of(alloc, disk, Failing::Never, 4096)?;
    let (after, answer) = recorded(rt, alloc, &WRITES, options(1, LIMIT, ROOM), empty)?;
    let came = look_at(&after, answer, b"", b"");
    let opened = is_open(after.bytes(), 133 + 20 * 5);
    Ok((came.answer, (came.sent, came.noted), opened))
}

// Nine epochs make 43 calls on the disk: the length, six for the header, and four an epoch. The sixth epoch's output
// goes out after call 31.
#[test]
fn each_disk_call_fails(rt: HostRuntime) -> Result<(), Fail> {
    let fault = Err(RecordFault::DiskFault);
    for number in 1..=43 {
        // What fails is not done: a record's gate is open once the call that opens it is done.
        let sent = (if number > 31 { 3 } else { 0 }, 0);
        let came = calls_fail(&rt, rt.alloc(), Failing::At(number))?;
        assert_eq!(rt; came, (fault, sent, number > 30), "call {number}");
        let came = calls_fail(&rt, rt.alloc(), Failing::From(number))?;
        assert_eq!(rt; came, (fault, sent, number > 30), "calls from {number}");
    }
    Ok(())
}
