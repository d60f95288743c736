// A recording of a guest with an input and a clock in memory, and its replay.
use disk_mem::{MemInlet, MemWorld};
use disk_model::{OpenGate, Stream};
use dp_report::Status;
use dp_top::run;
use racing_runner::IdleRacer;
use std::alloc::Global;
use std::sync::Wait;
use std::test::Fail;
use std::thread::Threads;
use test_files::file_of;
use test_worlds::{Failing, disk_of, file_named, inlet_of, texts_of};

// What a run came to, and what it left.
#[derive(Drop)]
pub(crate) struct Seen {
    pub status: Status,
    pub sent: Vec<u8>,
    pub noted: Vec<u8>,
    pub journal: Vec<u8>,
    pub takes: u64,
}

fn look_at(alloc: Global, world: &MemWorld, status: Status, takes: u64) -> Result<Seen, Fail> {
    Ok(Seen {
        status,
        sent: world.sent(Stream::Out).to_vec(alloc)?,
        noted: world.sent(Stream::Note).to_vec(alloc)?,
        journal: world.bytes().to_vec(alloc)?,
        takes,
    })
}

// A run by these words, on a disk with these bytes, where `g` is this file.
fn ran<R: Threads + Wait + Sync>(
    rt: &R,
    alloc: Global,
    words: &[&str],
    file: &[u8],
    inlet: MemInlet,
    disk: &[u8],
) -> Result<Seen, Fail> {
    let texts = texts_of(alloc, words)?;
    let mut files = file_named(alloc, "g", file, Failing::Never)?;
    let mut inlet = inlet;
    let world = disk_of(alloc, disk, Failing::Never)?;
    let (after, status) = run(
        rt, alloc, &texts, &mut files, &mut inlet, world, IdleRacer, &OpenGate,
    );
    look_at(alloc, &after, status, inlet.takes())
}

// The steps of an epoch and of a slice at most, if no option says.
pub(crate) const STEPS: (&str, &str) = ("20000", "1000");

// A recording without marks of a guest of these words, on an empty disk, with so many steps of an epoch and of a slice
// at most.
pub(crate) fn record<R: Threads + Wait + Sync>(
    rt: &R,
    alloc: Global,
    words: &[u32],
    inlet: MemInlet,
    steps: (&str, &str),
) -> Result<Seen, Fail> {
    let file = file_of(alloc, words)?;
    let asked = [
        "dpcli", "record", "g", "j", "--epoch", steps.0, "--slice", steps.1, "--mark", "0",
    ];
    ran(rt, alloc, &asked, &file, inlet, &[])
}

// A replay of a journal, with no input and no file.
pub(crate) fn replay<R: Threads + Wait + Sync>(
    rt: &R,
    alloc: Global,
    journal: &[u8],
) -> Result<Seen, Fail> {
    let none = inlet_of(alloc, &[], &[], Failing::Never)?;
    ran(rt, alloc, &["dpcli", "replay", "j"], &[], none, journal)
}

// What a recording came to and its replay: both statuses, the journal's bytes, and how often the input was asked.
#[derive(Clone, Copy, Debug, PartialEq, Eq)]
pub(crate) struct Came {
    pub status: Status,
    pub replayed: Status,
    pub journal: usize,
    pub takes: u64,
}

// The same, where both send this on Out, and the recording sends the one line on Note and the replay the other.
pub(crate) fn came_to<R: Threads + Wait + Sync>(
    rt: &R,
    alloc: Global,
    words: &[u32],
    inlet: MemInlet,
    steps: (&str, &str),
    out: &[u8],
    notes: (&[u8], &[u8]),
) -> Result<Came, Fail> {
    let seen = record(rt, alloc, words, inlet, steps)?;
    if seen.sent.as_slice() != out || seen.noted.as_slice() != notes.0 {
        return Err("the recording's output and its note".into());
    }
    let again = replay(rt, alloc, &seen.journal)?;
    if again.sent.as_slice() != out || again.noted.as_slice() != notes.1 {
        return Err("the replay's output and its note".into());
    }
    Ok(Came {
        status: seen.status,
        replayed: again.status,
        journal: seen.journal.len(),
        takes: seen.takes,
    })
}

// What a recording that meets no fault came to.
pub(crate) fn recorded<R: Threads + Wait + Sync>(
    rt: &R,
    alloc: Global,
    words: &[u32],
    pieces: &[&[u8]],
    clocks: &[u64],
    steps: (&str, &str),
    out: &[u8],
    note: &[u8],
) -> Result<Came, Fail> {
    let inlet = inlet_of(alloc, pieces, clocks, Failing::Never)?;
    came_to(rt, alloc, words, inlet, steps, out, (note, note))
}

// A recording and its replay that both answer Ok.
pub(crate) fn ok(journal: usize, takes: u64) -> Came {
    Came {
        status: Status::Ok,
        replayed: Status::Ok,
        journal,
        takes,
    }
}
