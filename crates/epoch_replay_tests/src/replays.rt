// Replays of one journal by several numbers of workers.
ghost use Rattle.std.specs.Prelude.{◌<◌};

use crate::journals::{guest, journal};
use disk_model::{Stream, World};
use epoch_replay::{ReplayFault, replay};
use std::alloc::Global;
use std::test::Fail;
use std::thread::Threads;
use test_worlds::{Failing, world_of};

// What a replay answers, the count of epochs at `Ok`, and what it sends.
#[derive(Drop)]
struct Seen {
    answer: Result<u32, ReplayFault>,
    sent: Vec<u8>,
    noted: Vec<u8>,
}

fn replayed_by<R: Threads + Sync>(
    rt: &R,
    alloc: Global,
    journal: &[u8],
    workers: u32,
    sink: Failing,
    piece: u32,
) -> Result<Seen, Fail>
    requires { 0 < piece }
{
    let mut world = world_of(alloc, Failing::Never, sink, piece)?.of_disk(alloc, journal)?;
    if world.attach("j", false).is_err() {
        return Err("the disk is attached".into());
    }
    let (world, answer) = replay(rt, alloc, world, workers);
    if world.bytes() != journal {
        return Err("the disk isn't written".into());
    }
    Ok(Seen {
        answer: match answer {
            Ok(report) => Ok(report.epochs),
            Err(fault) => Err(fault),
        },
        sent: world.sent(Stream::Out).to_vec(alloc)?,
        noted: world.sent(Stream::Note).to_vec(alloc)?,
    })
}

// Whether a replay by this many workers answers and sends the same as this one.
fn is_same<R: Threads + Sync>(
    rt: &R,
    alloc: Global,
    journal: &[u8],
    workers: u32,
    sink: Failing,
    piece: u32,
    one: &Seen,
) -> Result<bool, Fail>
    requires { 0 < piece }
{
    let many = replayed_by(rt, alloc, journal, workers, sink, piece)?;
    Ok(
        many.answer == one.answer
            && many.sent.as_slice() == one.sent.as_slice()
            && many.noted.as_slice() == one.noted.as_slice(),
    )
}

/// What replays by 1, 2, 3 and 64 workers of the journal with these letters answer, and how many bytes of the guest's
/// file each sends, if they all do the same.
pub(crate) fn by_all<R: Threads + Sync>(
    rt: &R,
    alloc: Global,
    letters: &[u8],
    sink: Failing,
    piece: u32,
) -> Result<(Result<u32, ReplayFault>, usize), Fail>
    requires { 0 < piece }
{
    let journal = journal(alloc, letters)?;
    of_journal(rt, alloc, &journal, sink, piece)
}

/// The same of a journal of the guest.
pub(crate) fn of_journal<R: Threads + Sync>(
    rt: &R,
    alloc: Global,
    journal: &[u8],
    sink: Failing,
    piece: u32,
) -> Result<(Result<u32, ReplayFault>, usize), Fail>
    requires { 0 < piece }
{
    let (answer, sent) = agreed(rt, alloc, journal, sink, piece)?;
    if !guest(alloc)?.starts_with(&sent) {
        return Err("the bytes of the file are sent in order".into());
    }
    Ok((answer, sent.len()))
}

/// What a replay by this many workers of the journal with these letters answers, and how many bytes of the guest's file
/// it sends.
pub(crate) fn by_workers<R: Threads + Sync>(
    rt: &R,
    alloc: Global,
    letters: &[u8],
    workers: u32,
    sink: Failing,
) -> Result<(Result<u32, ReplayFault>, usize), Fail> {
    let journal = journal(alloc, letters)?;
    let seen = replayed_by(rt, alloc, &journal, workers, sink, 4096)?;
    if !guest(alloc)?.starts_with(&seen.sent) {
        return Err("the bytes of the file are sent in order".into());
    }
    Ok((seen.answer, seen.sent.len()))
}

/// What replays of a journal by 1, 2, 3 and 64 workers answer and send, if they all do the same.
pub(crate) fn agreed<R: Threads + Sync>(
    rt: &R,
    alloc: Global,
    journal: &[u8],
    sink: Failing,
    piece: u32,
) -> Result<(Result<u32, ReplayFault>, Vec<u8>), Fail>
    requires { 0 < piece }
{
    let one = replayed_by(rt, alloc, journal, 1, sink, piece)?;
    for workers in [2u32, 3, 64] {
        if !is_same(rt, alloc, journal, workers, sink, piece, &one)? {
            return Err("several workers differ from one".into());
        }
    }
    Ok((one.answer, one.sent))
}
