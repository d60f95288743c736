// A made guest is recorded and replayed in memory.
ghost use Rattle.std.specs.Prelude.{◌≡◌, ◌≤◌, ℕ, Err, IfErr, IfOk, None, Ok};
ghost use Rattle.dp_base.specs.Counts.{Rose};
ghost use Rattle.dp_base.specs.Field.{AreBytes};
ghost use Rattle.dp_report.specs.declared.report.Report.{Report};
ghost use Rattle.elf_image.specs.Faults.{image_fault};
ghost use Rattle.epoch_replay.specs.Replaying.{Ends};
ghost use Rattle.guest_kernel.specs.Start.{start_state};
ghost use Rattle.journal_text.specs.Reading.{reads};
ghost use Rattle.recorder.specs.declared.record_fault.RecordFault.TheVariants as faults;
ghost use Rattle.dp_top.specs.SelfTesting.{MadeRecording, SelfTestedTo, Tested, default_options, of_recording, report_in, self_test_line};

use crate::command_status::status_of_self_test;
use crate::laws;
use crate::no_input::NoInput;
use crate::replay_check::check_replay;
use crate::self_test_fault::SelfTestFault;
use crate::tested_report::TestedReport;
use device::send_all;
use disk_mem::{Fails, MemWorld};
use disk_model::{OpenGate, Stream, World};
use dp_base::OutOfMemory;
use dp_base::limits::MAX_JOURNAL_BYTES;
use dp_base::little_endian::write_bytes;
use dp_report::{Report, Status, line};
use guest_gen::make;
use guest_kernel::{State, start_from_file};
use itoa::Buffer;
use racing_runner::ChaosRacer;
use recorder::{Options, RecordFault, record_};
use std::alloc::Global;
use std::sync::Wait;
use std::thread::Threads;

/// Tests the program on the made guest `n`, and sends `selftest N: ` and the report of its recording on Out. The guest
/// is recorded in memory, by `ChaosRacer::new(n)`, with the options that `record` has by default, no input, and a clock
/// that always reads 0. The recording is replayed with one worker and with four. Nothing else is done to the world.
pub(crate) fn test_guest<R: Threads + Wait + Sync, W: World>(
    rt: &R,
    alloc: Global,
    mut world: W,
    n: u32,
) -> (W, Status)
    ensures tested { SelfTestedTo n (W.history world) (W.history result.0) result.1 }
    ensures no_usage { result.1 ≡ Status.Usage → ⊥ }
    ensures no_guest_fault { result.1 ≡ Status.GuestFault → ⊥ }
    ensures no_input_fault { result.1 ≡ Status.InputFault → ⊥ }
    ensures no_disk_fault { result.1 ≡ Status.DiskFault → ⊥ }
    ensures none { result.1 ≡ Status.Ok → W.sink_faults result.0 ≡ W.sink_faults world }
    ensures output_fault { result.1 ≡ Status.OutputFault → Rose (W.sink_faults world) (W.sink_faults result.0) }
    ensures disk { W.disk_faults result.0 ≡ W.disk_faults world }
    ensures sink_count { W.sink_faults world ≤ W.sink_faults result.0 }
{
    let tested = match tested_report(rt, alloc, n) {
        Ok(tested) => tested,
        Err(fault) => return (world, status_of_self_test(fault)),
    };
    let Ok(line) = self_test_line(alloc, n, &tested) else {
        return (world, Status::OutOfMemory);
    };
    match send_all(&mut world, Stream::Out, &line) {
        Ok(()) => (world, Status::Ok),
        Err(_) => (world, Status::OutputFault),
    }
}

// The report of guest `n`'s recording, once it was replayed with one worker and with four.
fn tested_report<R: Threads + Wait + Sync>(
    rt: &R,
    alloc: Global,
    n: u32,
) -> Result<TestedReport, SelfTestFault>
    ensures tested { Tested n (report_in result) }
    ensures replayed { IfOk result (λ tested. (tested.by_one ≡ 1) × (tested.by_four ≡ 4)) }
{
    let (world, answer) = record_made(rt, alloc, n)?;
    let report = match answer {
        Ok(report) => report,
        Err(fault) => return Err(fault_of(fault)),
    };
    let by_one = check_replay(rt, alloc, &world, report, 1)?;
    let by_four = check_replay(rt, alloc, &world, report, 4)?;
    Ok(TestedReport {
        report,
        by_one,
        by_four,
    })
}

// Records guest `n` into a world in memory.
fn record_made<R: Threads + Wait + Sync>(
    rt: &R,
    alloc: Global,
    n: u32,
) -> Result<(MemWorld, Result<Report, RecordFault>), OutOfMemory>
    ensures made { IfOk result (λ r. MadeRecording n r.1) }
    ensures ends { IfOk result (λ r. (report : Report) → r.1 ≡ Ok report →
        Ends (reads r.0.history.disk) r.0.history.sent (record report { squashes = 0 })) }
    ensures memory { IfOk result (λ r. (r.1 ≡ Err faults.InputFault → ⊥) × ((len : ℕ) → r.1 ≡ Err (faults.JournalInUse len) → ⊥)) }
{
    laws::a_recording_plays_as_it_was();
    let guest = make(alloc, n)?;
    let start = made_start(alloc, &guest)?;
    let world = MemWorld::new(alloc, Fails::Never, Fails::Never, u32::MAX)?;
    let mut input = NoInput {
        ended: false,
        readings: 0,
    };
    Ok(record_(
        rt,
        alloc,
        world,
        &mut input,
        &guest,
        start,
        default_options(),
        ChaosRacer::new(n),
        &OpenGate,
    ))
}

// The state in which a made guest starts. Its file is a guest's.
fn made_start(alloc: Global, guest: &[u8]) -> Result<State, OutOfMemory>
    requires accepted { image_fault guest.now ≡ None }
    ensures state { IfOk result (λ state. state ≡ start_state guest.now) }
    ensures bytes { AreBytes guest.now }
{
    match start_from_file(alloc, guest) {
        Ok(state) => Ok(state),
        Err(fault) => match fault.number() {
            Some(_) => unreachable!(),
            None => Err(OutOfMemory),
        },
    }
}

// The options that `record` has by default.
fn default_options() -> Options
    ensures { result ≡ default_options }
{
    Options {
        workers: 4,
        epoch: 20_000,
        slice: 1000,
        ahead: 16,
        mark: 16,
        limit: 1_000_000_000,
        room: MAX_JOURNAL_BYTES,
    }
}

// Why a recording in memory has no report. Its disk was empty, and its input never fails.
fn fault_of(fault: RecordFault) -> SelfTestFault
    requires input { fault ≡ faults.InputFault → ⊥ }
    requires in_use { (len : ℕ) → fault ≡ faults.JournalInUse len → ⊥ }
    ensures { result ≡ of_recording fault }
{
    match fault {
        RecordFault::StepLimit(steps) => SelfTestFault::StepLimit(steps),
        RecordFault::JournalFull { end, need } => SelfTestFault::JournalFull { end, need },
        // Calls on the world fail only if an allocation does.
        RecordFault::DiskFault => SelfTestFault::OutOfMemory,
        RecordFault::OutputFault => SelfTestFault::OutOfMemory,
        RecordFault::OutOfMemory => SelfTestFault::OutOfMemory,
        RecordFault::InputFault => unreachable!(),
        RecordFault::JournalInUse(_) => unreachable!(),
    }
}

// The line of a self-test. It wants the replays too, so that none is sent without them.
fn self_test_line(alloc: Global, n: u32, tested: &TestedReport) -> Result<Vec<u8>, OutOfMemory>
    ensures { IfOk result (λ l. l.items ≡ self_test_line n tested.now.report) }
{
    let mut digits = Buffer::new();
    let mut text = Vec::new(alloc);
    write_bytes(&mut text, b"selftest ")?;
    write_bytes(&mut text, digits.format(n).as_bytes())?;
    write_bytes(&mut text, b": ")?;
    write_bytes(&mut text, &line(alloc, &tested.report)?)?;
    Ok(text)
}
