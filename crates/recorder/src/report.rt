// The report of a recording whose guest has ended, and its line on Note.
ghost use Rattle.std.specs.Prelude.{◌≡◌, ◌≤◌, ℕ, IsErrOf};
ghost use Rattle.checkpoint.specs.State.{IsEncodable};
ghost use Rattle.dp_base.specs.Counts.{Rose};
ghost use Rattle.disk_model.specs.Known.{IfKnown};
ghost use Rattle.recorder.specs.Faults.{RecordMetNoOther};
ghost use Rattle.recorder.specs.Report.{HasSentReport, IsReportSent, report_at};

use crate::record_fault::RecordFault;
use checkpoint::digest;
use device::send_all;
use disk_model::{Stream, World};
use dp_report::{Report, line};
use guest_kernel::State;
use std::alloc::Global;

// Sends the line of the report of a guest that has ended in this state, after this many epochs, squashed results and
// bytes sent.
pub(crate) fn send_report<W: World>(
    alloc: Global,
    world: &mut W,
    state: &State,
    epochs: u32,
    squashes: u32,
    sent: u64,
) -> Result<Report, RecordFault>
    requires { IsEncodable state.now }
    ensures told { IsReportSent (report_at epochs squashes sent state.now) result }
    ensures history { IfKnown (HasSentReport (report_at epochs squashes sent state.now) result) (W.history world.old) (W.history world.new) }
    ensures others { (input : ℕ) → RecordMetNoOther result (W.disk_faults world.old) (W.disk_faults world.new)
        (W.sink_faults world.old) (W.sink_faults world.new) input input }
    ensures cause { IsErrOf result RecordFault.OutputFault →
        Rose (W.sink_faults world.old) (W.sink_faults world.new) }
    ensures count { W.sink_faults world.old ≤ W.sink_faults world.new }
    ensures disk { W.disk_faults world.new ≡ W.disk_faults world.old }
{
    let report = Report {
        epochs,
        squashes,
        steps: state.steps,
        sent,
        end: state.end,
        state: digest(state),
    };
    let text = line(alloc, &report)?;
    match send_all(world, Stream::Note, &text) {
        Ok(()) => Ok(report),
        Err(_) => Err(RecordFault::OutputFault),
    }
}
