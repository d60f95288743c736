// Recordings that stop at a call, and replays of what a crash leaves of them.
ghost use Rattle.std.specs.Prelude.{◌<◌};

use crate::command::ran;
use crate::replay_tests::REPLAY;
use disk_mem::MemWorld;
use disk_model::Stream;
use dp_report::Status;
use std::alloc::Global;
use std::sync::Wait;
use std::test::Fail;
use std::thread::Threads;
use test_files::file_of;
use test_worlds::{Failing, disk_of, world_of};

// Which calls of a recording fail, and how many bytes one emit takes at most.
#[derive(Drop)]
pub(crate) struct Faults {
    pub disk: Failing,
    pub sink: Failing,
    pub piece: u32,
}

// What a recording came to, whether a call on the disk failed, what it sent, and what a crash leaves after it: the
// image of each pick, without what is pending, as it reads, and with each pending byte 1.
#[derive(Drop)]
pub(crate) struct Stopped {
    pub status: Status,
    pub disk_failed: bool,
    pub sent: Vec<u8>,
    pub kept: Vec<u8>,
    pub read: Vec<u8>,
    pub marked: Vec<u8>,
}

fn images_of(alloc: Global, world: &MemWorld, status: Status) -> Result<Stopped, Fail> {
    Ok(Stopped {
        status,
        disk_failed: world.disk_fault_count() > 0,
        sent: world.sent(Stream::Out).to_vec(alloc)?,
        kept: world.crash(alloc, 0)?,
        read: world.crash(alloc, 1)?,
        marked: world.crash(alloc, 2)?,
    })
}

// A recording on an empty disk.
pub(crate) fn recording<R: Threads + Wait + Sync>(
    rt: &R,
    alloc: Global,
    asked: &[&str],
    words: &[u32],
    pieces: &[&[u8]],
    faults: Faults,
) -> Result<Stopped, Fail> {
    let file = file_of(alloc, words)?;
    let world = world_of(alloc, faults.disk, faults.sink, faults.piece.max(1))?;
    let (after, status) = ran(rt, alloc, asked, &file, Failing::Never, pieces, world)?;
    images_of(alloc, &after, status)
}

// What a replay came to, and what it sent.
#[derive(Drop)]
pub(crate) struct Played {
    pub status: Status,
    pub sent: Vec<u8>,
    pub noted: Vec<u8>,
}

fn look_at(alloc: Global, world: &MemWorld, status: Status) -> Result<Played, Fail> {
    Ok(Played {
        status,
        sent: world.sent(Stream::Out).to_vec(alloc)?,
        noted: world.sent(Stream::Note).to_vec(alloc)?,
    })
}

// A replay of an image that meets no fault.
pub(crate) fn replay<R: Threads + Wait + Sync>(
    rt: &R,
    alloc: Global,
    image: &[u8],
) -> Result<Played, Fail> {
    let world = disk_of(alloc, image, Failing::Never)?;
    let (after, status) = ran(rt, alloc, REPLAY, &[], Failing::Never, &[], world)?;
    look_at(alloc, &after, status)
}

// The number of epochs in a report's line, of one digit.
fn epochs_in(noted: &[u8]) -> Result<u8, Fail> {
    if !noted.starts_with(b"epochs ") {
        return Err("no report".into());
    }
    let digit = noted.get(7).copied().unwrap_or(0);
    if !digit.is_ascii_digit() || noted.get(8) != Some(&b' ') {
        return Err("no number of epochs".into());
    }
    Ok(digit - b'0')
}

// What an image plays to: the status, how many epochs, and how many bytes of output. It has none if it is no journal.
pub(crate) type Plays = (Status, u8, usize);

pub(crate) const NO_JOURNAL: Plays = (Status::NoJournal, 0, 0);

// What an image plays to, where the output begins with what a recording has sent, and the guest's whole output begins
// with it.
pub(crate) fn plays<R: Threads + Wait + Sync>(
    rt: &R,
    alloc: Global,
    image: &[u8],
    said: &[u8],
    whole: &[u8],
) -> Result<Plays, Fail> {
    let seen = replay(rt, alloc, image)?;
    if !seen.sent.starts_with(said) || !whole.starts_with(&seen.sent) {
        return Err("what was sent, the replay's output, and the whole output".into());
    }
    if seen.status == Status::NoJournal {
        return Ok((seen.status, 0, seen.sent.len()));
    }
    if seen.status != Status::Ok {
        return Err("an image is a journal or none".into());
    }
    Ok((seen.status, epochs_in(&seen.noted)?, seen.sent.len()))
}

// What a recording came to, whether a call on the disk failed, how many bytes it sent, and what each image plays to.
#[derive(Clone, Copy, Debug, PartialEq, Eq)]
pub(crate) struct Left {
    pub status: Status,
    pub disk_failed: bool,
    pub sent: usize,
    pub plays: [Plays; 3],
}

// The same of a recording some of whose calls fail, of a guest whose whole output this is.
pub(crate) fn what_is_left<R: Threads + Wait + Sync>(
    rt: &R,
    alloc: Global,
    asked: &[&str],
    words: &[u32],
    pieces: &[&[u8]],
    whole: &[u8],
    faults: Faults,
) -> Result<Left, Fail> {
    let seen = recording(rt, alloc, asked, words, pieces, faults)?;
    let said = seen.sent.as_slice();
    Ok(Left {
        status: seen.status,
        disk_failed: seen.disk_failed,
        sent: said.len(),
        plays: [
            plays(rt, alloc, &seen.kept, said, whole)?,
            plays(rt, alloc, &seen.read, said, whole)?,
            plays(rt, alloc, &seen.marked, said, whole)?,
        ],
    })
}
