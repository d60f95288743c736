// A recording into a journal that is attached first.
ghost use Rattle.std.specs.Prelude.{◌≡◌, ◌≤◌, Result};
ghost use Rattle.dp_base.specs.Field.{AreBytes};
ghost use Rattle.dp_base.specs.Counts.{Rose};
ghost use Rattle.dp_report.specs.declared.report.Report.{Report};
ghost use Rattle.guest_kernel.specs.Start.{IsGuestFile, start_state};
ghost use Rattle.recorder.specs.declared.record_fault.RecordFault.{RecordFault};
ghost use Rattle.recorder.specs.Moments.{EachMoment};
ghost use Rattle.recorder.specs.Recording.{Recorded};
ghost use Rattle.dp_top.specs.Answer.{status_of};

use crate::command_status::status_of_answer;
use disk_model::{Gate, Inlet, World};
use dp_report::Status;
use guest_kernel::State;
use racing_runner::Racer;
use recorder::{Options, record_};
use std::alloc::Global;
use std::sync::Wait;
use std::thread::Threads;

/// Attaches the journal and records into it.
pub(crate) fn record_guest<
    R: Threads + Wait + Sync,
    I: Inlet,
    W: World + Drop,
    Q: Racer + Drop + Send,
    G: Gate + Sync,
>(
    rt: &R,
    alloc: Global,
    inlet: &mut I,
    mut world: W,
    journal: &str,
    guest: &[u8],
    start: State,
    options: Options,
    racer: Q,
    gate: &G,
) -> (W, Status)
    requires guest { IsGuestFile guest.now }
    requires starts { start ≡ start_state guest.now }
    ensures bytes { AreBytes guest.now }
    ensures recorded { (answer : Result Report RecordFault) × (result.1 ≡ status_of answer)
        × Recorded guest.now (Q.tells racer) start options (I.input inlet.old) (I.input inlet.new) (W.history world) (W.history result.0) answer }
    ensures moments { EachMoment guest.now options.mark start (I.input inlet.old) (I.input inlet.new) (W.history world) (W.history result.0) }
    ensures none { result.1 ≡ Status.Ok → (W.sink_faults result.0 ≡ W.sink_faults world)
        × (I.input_faults inlet.new ≡ I.input_faults inlet.old) }
    ensures input_fault { result.1 ≡ Status.InputFault → Rose (I.input_faults inlet.old) (I.input_faults inlet.new) }
    ensures disk_fault { result.1 ≡ Status.DiskFault → Rose (W.disk_faults world) (W.disk_faults result.0) }
    ensures output_fault { result.1 ≡ Status.OutputFault → Rose (W.sink_faults world) (W.sink_faults result.0) }
    ensures input_count { I.input_faults inlet.old ≤ I.input_faults inlet.new }
    ensures disk_count { W.disk_faults world ≤ W.disk_faults result.0 }
    ensures sink_count { W.sink_faults world ≤ W.sink_faults result.0 }
{
    if world.attach(journal, true).is_err() {
        return (world, Status::DiskFault);
    }
    let (world, answer) = record_(rt, alloc, world, inlet, guest, start, options, racer, gate);
    (world, status_of_answer(answer))
}
