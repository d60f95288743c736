// Parts that run side by side.
use crate::journals::journal;
use crate::partial_journals::partial_journal;
use disk_mem::HoldGate;
use disk_model::{Gate, World};
use epoch_replay::replay_through;
use std::alloc::Global;
use std::sync::atomic::{AtomicU32, Ordering};
use std::test::Fail;
use std::thread::Threads;
use test_worlds::{Failing, world_of};

// Holds part 1 until part 2 has passed, and counts the passes.
#[derive(Drop)]
struct CountGate {
    hold: HoldGate,
    passes: AtomicU32,
}

impl Gate for CountGate {
    fn pass(&self, worker: u32, job: u32) {
        self.passes.fetch_add(1, Ordering::SeqCst);
        self.hold.pass(worker, job);
    }
}

// How many parts a replay of this journal by so many workers runs, if it comes to the journal's end. The first part is
// held until the second has begun.
fn parts_of<R: Threads + Sync>(
    rt: &R,
    alloc: Global,
    journal: &[u8],
    workers: u32,
) -> Result<u32, Fail> {
    let mut world = world_of(alloc, Failing::Never, Failing::Never, 4096)?.of_disk(alloc, journal)?;
    if world.attach("j", false).is_err() {
        return Err("the disk is attached".into());
    }
    let gate = CountGate {
        hold: HoldGate::new(),
        passes: AtomicU32::new(0),
    };
    let (_, answer) = replay_through(rt, alloc, world, workers, &gate);
    if answer.is_err() || gate.hold.ran_out() {
        return Err("the replay comes to the end, and no part waits in vain".into());
    }
    Ok(gate.passes.load(Ordering::SeqCst))
}

// The journal has six stretches that are worth a thread. With fewer workers a part has several of them. One worker runs no
// part beside another.
#[test]
fn two_parts_run_at_once(rt: HostRuntime) -> Result<(), Fail> {
    let alloc = rt.alloc();
    let journal = journal(alloc, b"emememememe")?;
    for (workers, parts) in [(1u32, 0u32), (2, 2), (4, 3), (64, 6)] {
        assert_eq!(rt; parts_of(&rt, alloc, &journal, workers)?, parts);
    }
    Ok(())
}

// Of the marks between the starts of two parts only those are opened that the later start needs. If that left out another
// one, a part would begin in a wrong state, and more parts would run after it.
#[test]
fn each_part_is_taken(rt: HostRuntime) -> Result<(), Fail> {
    let alloc = rt.alloc();
    for (letters, parts) in [
        // Each mark has the page that changes.
        ("epepepepepepepe", 2u32),
        // Only the first has it, after an odd number of passes.
        ("epeeseeseeseeseeseese", 2),
        // The first mark is full.
        ("emeeseeseeseeseeseese", 2),
        // The first three marks have it, and the fourth is the last between the starts.
        ("epepepeeseeseeseeseeseese", 2),
    ] {
        let journal = partial_journal(alloc, letters.as_bytes())?;
        assert_eq!(rt; parts_of(&rt, alloc, &journal, 2)?, parts, "{letters}");
    }
    Ok(())
}
