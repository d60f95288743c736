// A recording in memory, and a replay of what it left.
use crate::count_gate::CountGate;
use disk_mem::{MemInlet, MemWorld};
use disk_model::Stream;
use dp_report::Report;
use epoch_replay::{ReplayFault, replay};
use guest_kernel::start_from_file;
use racing_runner::Racer;
use recorder::{Options, RecordFault, record_};
use std::alloc::Global;
use std::sync::Wait;
use std::test::Fail;
use std::thread::Threads;
use test_worlds::{Failing, disk_of};

// What a recording left.
#[derive(Drop)]
pub(crate) struct Left {
    pub(crate) answer: Result<Report, RecordFault>,
    pub(crate) world: MemWorld,
    pub(crate) rounds: u32,
    pub(crate) jobs: u32,
}

// A recording of a guest in this world.
pub(crate) fn recorded<R: Threads + Wait + Sync, Q: Racer + Drop + Send>(
    rt: &R,
    alloc: Global,
    guest: &[u8],
    options: Options,
    inlet: MemInlet,
    world: MemWorld,
    racer: Q,
) -> Result<Left, Fail> {
    let state = start_from_file(alloc, guest)?;
    let mut inlet = inlet;
    let gate = CountGate::new();
    let (world, answer) = record_(
        rt, alloc, world, &mut inlet, guest, state, options, racer, &gate,
    );
    Ok(Left {
        answer,
        world,
        rounds: gate.rounds(),
        jobs: gate.jobs(),
    })
}

// The epochs of a journal that is replayed by this many workers, and whether it sends these bytes.
pub(crate) fn replayed<R: Threads + Wait + Sync>(
    rt: &R,
    alloc: Global,
    journal: &[u8],
    workers: u32,
    sent: &[u8],
) -> Result<(Result<u32, ReplayFault>, bool), Fail> {
    let world = disk_of(alloc, journal, Failing::Never)?;
    let (world, answer) = replay(rt, alloc, world, workers);
    let same = world.sent(Stream::Out) == sent;
    match answer {
        Ok(report) => Ok((Ok(report.epochs), same)),
        Err(fault) => Ok((Err(fault), same)),
    }
}
