// The top call on memory forms.
use crate::command::ran;
use disk_mem::MemWorld;
use disk_model::Stream;
use dp_top::Status;
use std::alloc::Global;
use std::sync::Wait;
use std::test::Fail;
use std::thread::Threads;
use test_files::{EXITS, WRITES};
use test_worlds::{Failing, disk_of, world_of};

// The header before the guest, and what follows it: one epoch of one slice, thread 1 for 3 steps, and the closed
// gate.
const BEFORE_GUEST: [u8; 9] = [0x01, 0x44, 0x50, 0x4a, 0x31, 0x60, 0x00, 0x00, 0x00];

const BEHIND_GUEST: [u8; 21] = [
    0x01, 0x0f, 0x00, 0x00, 0x00, 0x00, 0x01, 0x00, 0x00, 0x00, 0x01, 0x00, 0x03, 0x00, 0x00, 0x00,
    0x00, 0x00, 0x00, 0x00, 0x00,
];

pub(crate) const RECORD: [&str; 4] = ["dpcli", "record", "g", "j"];

/// The report's line of the guest of three steps, which is run as one epoch.
pub(crate) const NOTE_OF_EXITS: &[u8] =
    b"epochs 1 squashes 0 steps 3 sent 0 end exit 7 state 7721bc1cff3d699bd42bce08f27668ac407481c96f7b1c17878d62bfbd540ce7\n";

const USAGE: &[u8] =
    b"usage: dpcli record GUEST JOURNAL [options], replay JOURNAL [--workers N], inspect JOURNAL, selftest N\n";

/// The journal of `EXITS` that has one epoch, of 126 bytes.
pub(crate) fn journal_of_exits(alloc: Global) -> Result<Vec<u8>, Fail> {
    let mut journal = BEFORE_GUEST.to_vec(alloc)?;
    journal.extend_from_slice(&EXITS)?;
    journal.extend_from_slice(&BEHIND_GUEST)?;
    Ok(journal)
}

// What a run came to: whether it sent what was wanted on Out and on Note, how long the disk is, how many calls it had,
// and how many calls on the disk and emits failed.
#[derive(Clone, Copy)]
struct Came {
    status: (Status, u8),
    is_out: bool,
    is_note: bool,
    len: usize,
    disk_calls: u64,
    disk_faults: u64,
    sink_faults: u64,
}

fn look_at(world: &MemWorld, status: Status, out: &[u8], note: &[u8]) -> Came {
    Came {
        status: (status, status.number()),
        is_out: world.sent(Stream::Out) == out,
        is_note: world.sent(Stream::Note) == note,
        len: world.bytes().len(),
        disk_calls: world.disk_calls(),
        disk_faults: world.disk_fault_count(),
        sink_faults: world.sink_fault_count(),
    }
}

// A run on an empty disk that fetches each file.
fn came_to<R: Threads + Wait + Sync>(
    rt: &R,
    alloc: Global,
    words: &[&str],
    guest: &[u8],
    disk: Failing,
    sink: Failing,
    out: &[u8],
    note: &[u8],
) -> Result<Came, Fail> {
    let empty = world_of(alloc, disk, sink, 4096)?;
    let (after, status) = ran(rt, alloc, words, guest, Failing::Never, &[], empty)?;
    Ok(look_at(&after, status, out, note))
}

// A recording of a guest on a disk that has these bytes.
fn recorded_on<R: Threads + Wait + Sync>(
    rt: &R,
    alloc: Global,
    guest: &[u8],
    disk: &[u8],
) -> Result<(MemWorld, Status), Fail> {
    let used = disk_of(alloc, disk, Failing::Never)?;
    ran(rt, alloc, &RECORD, guest, Failing::Never, &[], used)
}

// Whether a recording leaves these bytes on a disk that had these first.
fn leaves<R: Threads + Wait + Sync>(
    rt: &R,
    alloc: Global,
    guest: &[u8],
    first: &[u8],
    wanted: &[u8],
) -> Result<bool, Fail> {
    let (after, _) = recorded_on(rt, alloc, guest, first)?;
    Ok(after.bytes() == wanted)
}

// Whether the recording of `EXITS` leaves the journal of 126 bytes.
fn leaves_its_journal<R: Threads + Wait + Sync>(rt: &R, alloc: Global) -> Result<bool, Fail> {
    let journal = journal_of_exits(alloc)?;
    leaves(rt, alloc, &EXITS, b"", &journal)
}

// The journal byte by byte, and the note with the digest of the state, which was had from the format's tables.
#[test]
fn a_journal_and_its_note(rt: HostRuntime) -> Result<(), Fail> {
    let never = Failing::Never;
    let came = came_to(
        &rt,
        rt.alloc(),
        &RECORD,
        &EXITS,
        never,
        never,
        b"",
        NOTE_OF_EXITS,
    )?;
    assert_eq!(rt; came.status, (Status::Ok, 0));
    assert_eq!(rt; (came.len, came.is_out, came.is_note), (126, true, true));
    assert!(rt; leaves_its_journal(&rt, rt.alloc())?);
    Ok(())
}

// The guest of nine steps, by the options: the status, the journal's length and the note.
#[test]
fn options_of_a_recording(rt: HostRuntime) -> Result<(), Fail> {
    let never = Failing::Never;
    let cases: [(&[&str], Status, usize, &[u8]); 4] = [
        (
            &RECORD,
            Status::Ok,
            154,
            b"epochs 1 squashes 0 steps 9 sent 3 end exit 0 state 5e7e08b662a2648fef71b4527eed27a6cdaea8232e2b564dfcc9f494b1615bd4\n",
        ),
        (
            &["dpcli", "record", "g", "j", "--epoch", "1"],
            Status::Ok,
            314,
            b"epochs 9 squashes 0 steps 9 sent 3 end exit 0 state 5e7e08b662a2648fef71b4527eed27a6cdaea8232e2b564dfcc9f494b1615bd4\n",
        ),
        // two slices of six bytes each: of eight steps and of one
        (
            &["dpcli", "record", "--slice=8", "g", "j"],
            Status::Ok,
            160,
            b"epochs 1 squashes 0 steps 9 sent 3 end exit 0 state 5e7e08b662a2648fef71b4527eed27a6cdaea8232e2b564dfcc9f494b1615bd4\n",
        ),
        (
            &["dpcli", "record", "g", "--limit", "8", "j"],
            Status::StepLimit(8),
            154,
            b"dpcli: step limit 8 reached\n",
        ),
    ];
    for (words, answer, len, note) in cases {
        let came = came_to(&rt, rt.alloc(), words, &WRITES, never, never, b"hi\n", note)?;
        assert_eq!(rt; (came.status.0, came.len), (answer, len));
        assert_eq!(rt; (came.is_out, came.is_note), (true, true));
    }
    Ok(())
}

// A run of a guest of no byte, where fetches fail from this one on and each call on the disk would: its status, how
// many calls there were on the disk, and whether this was sent on Note.
fn refused_as<R: Threads + Wait + Sync>(
    rt: &R,
    alloc: Global,
    words: &[&str],
    fetch: u64,
    sink: Failing,
    note: &[u8],
) -> Result<((Status, u8), u64, bool), Fail> {
    let failing = world_of(alloc, Failing::From(1), sink, 4096)?;
    let (after, status) = ran(rt, alloc, words, &[], Failing::From(fetch), &[], failing)?;
    let came = look_at(&after, status, b"", note);
    Ok((came.status, came.disk_calls, came.is_note))
}

// Before the disk is attached nothing is asked of it. The status's line goes out on Note, and where it can't, the
// status is the same.
#[test]
fn refusals_before_the_disk(rt: HostRuntime) -> Result<(), Fail> {
    let usage = (Status::Usage, 2);
    let no_guest = (Status::GuestFault, 3);
    let no_guest_line: &[u8] = b"dpcli: guest file could not be read\n";
    // The number of the first fetch that fails.
    let cases: [(&[&str], u64, (Status, u8), &[u8]); 9] = [
        (&["dpcli"], 2, usage, USAGE),
        (&[], 2, usage, USAGE),
        (&["dpcli", "--help"], 2, usage, USAGE),
        (&["dpcli", "record", "g", "j", "k"], 2, usage, USAGE),
        (
            &["dpcli", "record", "g", "j", "--workers", "0"],
            2,
            usage,
            USAGE,
        ),
        // The words are looked at before the guest's file, and the file before its image.
        (&["dpcli", "record", "g"], 1, usage, USAGE),
        (&RECORD, 1, no_guest, no_guest_line),
        (&["dpcli", "record", "h", "j"], 2, no_guest, no_guest_line),
        (
            &RECORD,
            2,
            (Status::BadImage(2), 4),
            b"dpcli: guest refused: 2 NotElf\n",
        ),
    ];
    for (words, fetch, refused, line) in cases {
        let came = refused_as(&rt, rt.alloc(), words, fetch, Failing::Never, line)?;
        assert_eq!(rt; came, (refused, 0, true));
        let came = refused_as(&rt, rt.alloc(), words, fetch, Failing::From(1), b"")?;
        assert_eq!(rt; came, (refused, 0, true));
    }
    Ok(())
}

// A recording of `WRITES` on a disk that has these bytes.
fn came_to_on<R: Threads + Wait + Sync>(
    rt: &R,
    alloc: Global,
    disk: &[u8],
    out: &[u8],
    note: &[u8],
) -> Result<Came, Fail> {
    let (after, status) = recorded_on(rt, alloc, &WRITES, disk)?;
    Ok(look_at(&after, status, out, note))
}

// On a disk that isn't empty nothing is written.
#[test]
fn journal_in_use(rt: HostRuntime) -> Result<(), Fail> {
    let came = came_to_on(
        &rt,
        rt.alloc(),
        &[7],
        b"",
        b"dpcli: journal is not empty: 1 bytes\n",
    )?;
    assert_eq!(rt; came.status, (Status::JournalInUse(1), 8));
    assert_eq!(rt;
        (came.is_out, came.is_note, came.disk_calls),
        (true, true, 2)
    );
    assert!(rt; leaves(&rt, rt.alloc(), &WRITES, &[7], &[7])?);
    Ok(())
}

// Which calls on the disk fail, and which emits; the status, how many failed of each, and the line.
fn calls_that_fail() -> [(Failing, Failing, Status, (u64, u64), &'static [u8]); 6] {
    let never = Failing::Never;
    let no_disk: &[u8] = b"dpcli: journal device failed\n";
    let no_output: &[u8] = b"dpcli: output failed\n";
    [
        // attach, len, and the last sync of twelve calls
        (Failing::At(1), never, Status::DiskFault, (1, 0), no_disk),
        (Failing::At(2), never, Status::DiskFault, (1, 0), no_disk),
        (Failing::At(12), never, Status::DiskFault, (1, 0), no_disk),
        // the output, the report's line, and all
        (
            never,
            Failing::At(1),
            Status::OutputFault,
            (0, 1),
            no_output,
        ),
        (
            never,
            Failing::At(2),
            Status::OutputFault,
            (0, 1),
            no_output,
        ),
        (never, Failing::From(1), Status::OutputFault, (0, 2), b""),
    ]
}

// What a recording of `WRITES` comes to where these calls fail: its status, whether it sent this line on Note, and how
// many calls on the disk and emits failed.
fn faults_of<R: Threads + Wait + Sync>(
    rt: &R,
    alloc: Global,
    disk: Failing,
    sink: Failing,
    line: &[u8],
) -> Result<(Status, bool, (u64, u64)), Fail> {
    let came = came_to(rt, alloc, &RECORD, &WRITES, disk, sink, b"", line)?;
    let faults = (came.disk_faults, came.sink_faults);
    Ok((came.status.0, came.is_note, faults))
}

#[test]
fn faults_of_the_world(rt: HostRuntime) -> Result<(), Fail> {
    for (disk, sink, answer, faults, line) in calls_that_fail() {
        let came = faults_of(&rt, rt.alloc(), disk, sink, line)?;
        assert_eq!(rt; came, (answer, true, faults));
    }
    Ok(())
}

// After the last call of each nothing fails.
#[test]
fn calls_behind_the_last(rt: HostRuntime) -> Result<(), Fail> {
    let (status, _, (disk_faults, _)) = faults_of(
        &rt,
        rt.alloc(),
        Failing::At(13),
        Failing::At(3),
        b"",
    )?;
    assert_eq!(rt; (status, disk_faults), (Status::Ok, 0));
    Ok(())
}
