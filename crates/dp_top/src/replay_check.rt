// A recording in memory is replayed, and the replay compared with it.
ghost use Rattle.std.specs.Prelude.{◌≡◌, ◌↔◌, IfErr, IfOk, IsTrue};
ghost use Rattle.epoch_replay.specs.Replaying.{Ends};
ghost use Rattle.journal_text.specs.Reading.{reads};
ghost use Rattle.dp_top.specs.SelfTesting.{IsMemoryFault};

use crate::self_test_fault::SelfTestFault;
use disk_mem::{Fails, MemWorld};
use disk_model::{Stream, World};
use dp_base::OutOfMemory;
use dp_report::Report;
use epoch_replay::{ReplayFault, replay};
use std::alloc::Global;
use std::marker::Model;
use std::thread::Threads;

/// A replay with this many workers that sent and reported what its recording did. Only `check_replay` makes one.
#[derive(Drop)]
pub(crate) struct Agreed {
    workers: u32,
}

impl Model for Agreed {
    ghost use Rattle.std.specs.Prelude.{ℕ};

    ghost Value = { ℕ };

    ghost view = { λ agreed. agreed.workers };
}

/// Replays what was recorded in a world in memory, with this many workers. The replay has to send what the recording
/// sent, and its report has to be this one without squashes.
///
/// # Errors
///
/// Returns `OutOfMemory` if memory runs out, and `Differs` if the replay is refused, or sends or reports something
/// else.
pub(crate) fn check_replay<R: Threads + Sync>(
    rt: &R,
    alloc: Global,
    recorded: &MemWorld,
    report: Report,
    workers: u32,
) -> Result<Agreed, SelfTestFault>
    ensures workers { IfOk result (λ agreed. agreed ≡ workers) }
    ensures agrees { IfOk result (λ agreed. Ends (reads recorded.now.history.disk) recorded.now.history.sent (record report { squashes = 0 })) }
    ensures memory { Ends (reads recorded.now.history.disk) recorded.now.history.sent (record report { squashes = 0 }) → IfErr result (λ fault. fault ≡ SelfTestFault.OutOfMemory) }
{
    let world = MemWorld::new(alloc, Fails::Never, Fails::Never, u32::MAX)?;
    let world = world.of_disk(alloc, recorded.bytes())?;
    let (world, answer) = replay(rt, alloc, world, workers);
    let replayed = match answer {
        Ok(replayed) => replayed,
        Err(fault) => return Err(replay_fault_of(fault)),
    };
    let expected = Report {
        squashes: 0,
        ..report
    };
    if !is_same_report(&replayed, &expected) {
        return Err(SelfTestFault::Differs);
    }
    if !is_same_output(world.sent(Stream::Out), recorded.sent(Stream::Out)) {
        return Err(SelfTestFault::Differs);
    }
    Ok(Agreed { workers })
}

fn is_same_report(left: &Report, right: &Report) -> bool
    ensures { IsTrue result ↔ (left.now ≡ right.now) }
{
    left == right
}

fn is_same_output(left: &[u8], right: &[u8]) -> bool
    ensures { IsTrue result ↔ (left.now ≡ right.now) }
{
    left == right
}

// The fault of a replay in memory: a call on its world fails only if an allocation does.
fn replay_fault_of(fault: ReplayFault) -> SelfTestFault
    ensures { IsMemoryFault fault → result ≡ SelfTestFault.OutOfMemory }
{
    match fault {
        ReplayFault::DiskFault => SelfTestFault::OutOfMemory,
        ReplayFault::OutputFault => SelfTestFault::OutOfMemory,
        ReplayFault::OutOfMemory => SelfTestFault::OutOfMemory,
        ReplayFault::NoJournal => SelfTestFault::Differs,
        ReplayFault::BadImage(_) => SelfTestFault::Differs,
        ReplayFault::BadJournal(_) => SelfTestFault::Differs,
        ReplayFault::BadEpoch(_) => SelfTestFault::Differs,
        ReplayFault::BadMark(_) => SelfTestFault::Differs,
    }
}
