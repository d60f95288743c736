// Rounds of racers whose offers are good or spoilt.
use crate::case_text::{Guest, Line, texts_of};
use crate::recorded::recorded;
use disk_mem::HoldGate;
use disk_model::Stream;
use guest_kernel::start_from_file;
use racing_runner::ChaosRacer;
use recorder::{Options, record_};
use std::alloc::Global;
use std::sync::Wait;
use std::test::Fail;
use std::thread::Threads;
use test_files::{WRITES, WRITES_WORDS};
use test_journals::journal_of;
use test_worlds::{Failing, inlet_of, world_of};

// Rounds of at most 16 epochs of two steps, by two workers.
fn options() -> Options {
    Options {
        workers: 2,
        epoch: 2,
        slice: 1000,
        ahead: 16,
        mark: 0,
        limit: 1_000_000_000,
        room: 1 << 30,
    }
}

// The bodies of four epochs of two steps of thread 1, and one of one step, by the format's tables.
const TWO_STEPS: &[u8] = &[0, 1, 0, 0, 0, 1, 0, 2, 0, 0, 0, 0, 0, 0, 0];

const ONE_STEP: &[u8] = &[0, 1, 0, 0, 0, 1, 0, 1, 0, 0, 0, 0, 0, 0, 0];

// How many rounds, jobs and squashes there are with a `ChaosRacer` of this number, if the journal is that of the five
// epochs, and the output is that of the guest.
fn counted<R: Threads + Wait + Sync>(
    rt: &R,
    alloc: Global,
    number: u32,
) -> Result<(u32, u32, Option<u32>), Fail> {
    let inlet = inlet_of(alloc, &[], &[], Failing::Never)?;
    let world = world_of(alloc, Failing::Never, Failing::Never, 4096)?;
    let racer = ChaosRacer::new(number);
    let left = recorded(rt, alloc, &WRITES, options(), inlet, world, racer)?;
    let bodies = [TWO_STEPS, TWO_STEPS, TWO_STEPS, TWO_STEPS, ONE_STEP];
    let journal = journal_of(alloc, &WRITES, &bodies)?;
    if journal.len() != 234 || left.world.bytes() != journal.as_slice() {
        return Err("the journal of five epochs".into());
    }
    if left.world.sent(Stream::Out) != b"hi\n".as_slice() {
        return Err("the guest's output".into());
    }
    let squashes = match left.answer {
        Ok(report) => Some(report.squashes),
        Err(_) => None,
    };
    Ok((left.rounds, left.jobs, squashes))
}

// With good offers there is one round. If the first offer is spoilt, each of five rounds commits one epoch: it has at
// most 5, 4, 3, 2 and 1 jobs, and the second one is squashed, after which no job is begun. If nothing is offered there
// are five rounds of one job.
#[test]
fn five_epochs(rt: HostRuntime) -> Result<(), Fail> {
    let alloc = rt.alloc();
    assert_eq!(rt; counted(&rt, alloc, 0)?, (1, 5, Some(0)));
    let (rounds, jobs, squashes) = counted(&rt, alloc, 1)?;
    assert_eq!(rt; (rounds, squashes), (5, Some(4)));
    assert!(rt; 9 <= jobs && jobs <= 15, "{jobs} jobs");
    assert_eq!(rt; counted(&rt, alloc, 2)?, (5, 5, Some(0)));
    Ok(())
}

// Whether job 2 passed the gate while job 1 was held there, and whether the recording's answer is `Ok`.
fn held<R: Threads + Wait + Sync>(rt: &R, alloc: Global) -> Result<(bool, bool), Fail> {
    let state = start_from_file(alloc, &WRITES)?;
    let mut inlet = inlet_of(alloc, &[], &[], Failing::Never)?;
    let world = world_of(alloc, Failing::Never, Failing::Never, 4096)?;
    let gate = HoldGate::new();
    let racer = ChaosRacer::new(0);
    let (_, answer) = record_(
        rt,
        alloc,
        world,
        &mut inlet,
        &WRITES,
        state,
        options(),
        racer,
        &gate,
    );
    Ok((!gate.ran_out(), answer.is_ok()))
}

#[test]
fn jobs_side_by_side(rt: HostRuntime) -> Result<(), Fail> {
    assert_eq!(rt; held(&rt, rt.alloc())?, (true, true));
    Ok(())
}

const WRITER: Guest = Guest {
    words: &WRITES_WORDS,
    pieces: &[],
    clocks: &[],
};

fn writer_lines() -> [Line; 40] {
    [
        // The offers are good; the first is spoilt; nothing is offered; the first is the state before it.
        "0 2 1000 16 all all 0",
        "ok, 1 rounds, 234 bytes 8961713939370bec, 3 sent 33734a193006ba70",
        "steps 2 2 2 2 1",
        "epochs 5 squashes 0 steps 9 sent 3 end exit 0 state 5e7e08b662a2648fef71b4527eed27a6cdaea8232e2b564dfcc9f494b1615bd4",
        "1 2 1000 16 all all 0",
        "ok, 5 rounds, 234 bytes 8961713939370bec, 3 sent 33734a193006ba70",
        "steps 2 2 2 2 1",
        "epochs 5 squashes 4 steps 9 sent 3 end exit 0 state 5e7e08b662a2648fef71b4527eed27a6cdaea8232e2b564dfcc9f494b1615bd4",
        "2 2 1000 16 all all 0",
        "ok, 5 rounds, 234 bytes 8961713939370bec, 3 sent 33734a193006ba70",
        "steps 2 2 2 2 1",
        "epochs 5 squashes 0 steps 9 sent 3 end exit 0 state 5e7e08b662a2648fef71b4527eed27a6cdaea8232e2b564dfcc9f494b1615bd4",
        "3 2 1000 16 all all 0",
        "ok, 5 rounds, 234 bytes 8961713939370bec, 3 sent 33734a193006ba70",
        "steps 2 2 2 2 1",
        "epochs 5 squashes 4 steps 9 sent 3 end exit 0 state 5e7e08b662a2648fef71b4527eed27a6cdaea8232e2b564dfcc9f494b1615bd4",
        // The second is spoilt, or the one before it.
        "5 2 1000 16 all all 0",
        "ok, 3 rounds, 234 bytes 8961713939370bec, 3 sent 33734a193006ba70",
        "steps 2 2 2 2 1",
        "epochs 5 squashes 2 steps 9 sent 3 end exit 0 state 5e7e08b662a2648fef71b4527eed27a6cdaea8232e2b564dfcc9f494b1615bd4",
        "7 2 1000 16 all all 0",
        "ok, 3 rounds, 234 bytes 8961713939370bec, 3 sent 33734a193006ba70",
        "steps 2 2 2 2 1",
        "epochs 5 squashes 2 steps 9 sent 3 end exit 0 state 5e7e08b662a2648fef71b4527eed27a6cdaea8232e2b564dfcc9f494b1615bd4",
        // One job a round, and two.
        "1 2 1000 1 all all 0",
        "ok, 5 rounds, 234 bytes 8961713939370bec, 3 sent 33734a193006ba70",
        "steps 2 2 2 2 1",
        "epochs 5 squashes 0 steps 9 sent 3 end exit 0 state 5e7e08b662a2648fef71b4527eed27a6cdaea8232e2b564dfcc9f494b1615bd4",
        "0 2 1000 2 all all 0",
        "ok, 3 rounds, 234 bytes 8961713939370bec, 3 sent 33734a193006ba70",
        "steps 2 2 2 2 1",
        "epochs 5 squashes 0 steps 9 sent 3 end exit 0 state 5e7e08b662a2648fef71b4527eed27a6cdaea8232e2b564dfcc9f494b1615bd4",
        "1 2 1000 2 all all 0",
        "ok, 5 rounds, 234 bytes 8961713939370bec, 3 sent 33734a193006ba70",
        "steps 2 2 2 2 1",
        "epochs 5 squashes 4 steps 9 sent 3 end exit 0 state 5e7e08b662a2648fef71b4527eed27a6cdaea8232e2b564dfcc9f494b1615bd4",
        "5 2 1000 2 all all 0",
        "ok, 3 rounds, 234 bytes 8961713939370bec, 3 sent 33734a193006ba70",
        "steps 2 2 2 2 1",
        "epochs 5 squashes 0 steps 9 sent 3 end exit 0 state 5e7e08b662a2648fef71b4527eed27a6cdaea8232e2b564dfcc9f494b1615bd4",
    ]
}

// A guest of one thread that writes a line, and ends in its ninth step: epochs of two steps.
#[test]
fn rounds_of_a_writer(rt: HostRuntime) -> Result<(), Fail> {
    for workers in [1u32, 2, 5, 64] {
        let (found, expected) = texts_of(&rt, rt.alloc(), WRITER, workers, &writer_lines())?;
        assert_eq!(rt; found.as_str(), expected.as_str(), "workers {workers}");
    }
    Ok(())
}

fn step_lines() -> [Line; 48] {
    [
        // Nine jobs, of which the one after the c-th is squashed, c from 1 to 8.
        "28 1 1000 64 all all 0",
        "ok, 1 rounds, 314 bytes c8747bc82d0fbf34, 3 sent 33734a193006ba70",
        "steps 1 1 1 1 1 1 1 1 1",
        "epochs 9 squashes 0 steps 9 sent 3 end exit 0 state 5e7e08b662a2648fef71b4527eed27a6cdaea8232e2b564dfcc9f494b1615bd4",
        "1 1 1000 64 all all 0",
        "ok, 9 rounds, 314 bytes c8747bc82d0fbf34, 3 sent 33734a193006ba70",
        "steps 1 1 1 1 1 1 1 1 1",
        "epochs 9 squashes 8 steps 9 sent 3 end exit 0 state 5e7e08b662a2648fef71b4527eed27a6cdaea8232e2b564dfcc9f494b1615bd4",
        "5 1 1000 64 all all 0",
        "ok, 5 rounds, 314 bytes c8747bc82d0fbf34, 3 sent 33734a193006ba70",
        "steps 1 1 1 1 1 1 1 1 1",
        "epochs 9 squashes 4 steps 9 sent 3 end exit 0 state 5e7e08b662a2648fef71b4527eed27a6cdaea8232e2b564dfcc9f494b1615bd4",
        "9 1 1000 64 all all 0",
        "ok, 3 rounds, 314 bytes c8747bc82d0fbf34, 3 sent 33734a193006ba70",
        "steps 1 1 1 1 1 1 1 1 1",
        "epochs 9 squashes 2 steps 9 sent 3 end exit 0 state 5e7e08b662a2648fef71b4527eed27a6cdaea8232e2b564dfcc9f494b1615bd4",
        "13 1 1000 64 all all 0",
        "ok, 3 rounds, 314 bytes c8747bc82d0fbf34, 3 sent 33734a193006ba70",
        "steps 1 1 1 1 1 1 1 1 1",
        "epochs 9 squashes 2 steps 9 sent 3 end exit 0 state 5e7e08b662a2648fef71b4527eed27a6cdaea8232e2b564dfcc9f494b1615bd4",
        "17 1 1000 64 all all 0",
        "ok, 2 rounds, 314 bytes c8747bc82d0fbf34, 3 sent 33734a193006ba70",
        "steps 1 1 1 1 1 1 1 1 1",
        "epochs 9 squashes 1 steps 9 sent 3 end exit 0 state 5e7e08b662a2648fef71b4527eed27a6cdaea8232e2b564dfcc9f494b1615bd4",
        "21 1 1000 64 all all 0",
        "ok, 2 rounds, 314 bytes c8747bc82d0fbf34, 3 sent 33734a193006ba70",
        "steps 1 1 1 1 1 1 1 1 1",
        "epochs 9 squashes 1 steps 9 sent 3 end exit 0 state 5e7e08b662a2648fef71b4527eed27a6cdaea8232e2b564dfcc9f494b1615bd4",
        "25 1 1000 64 all all 0",
        "ok, 2 rounds, 314 bytes c8747bc82d0fbf34, 3 sent 33734a193006ba70",
        "steps 1 1 1 1 1 1 1 1 1",
        "epochs 9 squashes 1 steps 9 sent 3 end exit 0 state 5e7e08b662a2648fef71b4527eed27a6cdaea8232e2b564dfcc9f494b1615bd4",
        "29 1 1000 64 all all 0",
        "ok, 2 rounds, 314 bytes c8747bc82d0fbf34, 3 sent 33734a193006ba70",
        "steps 1 1 1 1 1 1 1 1 1",
        "epochs 9 squashes 1 steps 9 sent 3 end exit 0 state 5e7e08b662a2648fef71b4527eed27a6cdaea8232e2b564dfcc9f494b1615bd4",
        "3 1 1000 64 all all 0",
        "ok, 9 rounds, 314 bytes c8747bc82d0fbf34, 3 sent 33734a193006ba70",
        "steps 1 1 1 1 1 1 1 1 1",
        "epochs 9 squashes 8 steps 9 sent 3 end exit 0 state 5e7e08b662a2648fef71b4527eed27a6cdaea8232e2b564dfcc9f494b1615bd4",
        "19 1 1000 64 all all 0",
        "ok, 2 rounds, 314 bytes c8747bc82d0fbf34, 3 sent 33734a193006ba70",
        "steps 1 1 1 1 1 1 1 1 1",
        "epochs 9 squashes 1 steps 9 sent 3 end exit 0 state 5e7e08b662a2648fef71b4527eed27a6cdaea8232e2b564dfcc9f494b1615bd4",
        "31 1 1000 64 all all 0",
        "ok, 2 rounds, 314 bytes c8747bc82d0fbf34, 3 sent 33734a193006ba70",
        "steps 1 1 1 1 1 1 1 1 1",
        "epochs 9 squashes 1 steps 9 sent 3 end exit 0 state 5e7e08b662a2648fef71b4527eed27a6cdaea8232e2b564dfcc9f494b1615bd4",
    ]
}

// Epochs of one step.
#[test]
fn rounds_of_single_steps(rt: HostRuntime) -> Result<(), Fail> {
    for workers in [1u32, 2, 5, 64] {
        let (found, expected) = texts_of(&rt, rt.alloc(), WRITER, workers, &step_lines())?;
        assert_eq!(rt; found.as_str(), expected.as_str(), "workers {workers}");
    }
    Ok(())
}
