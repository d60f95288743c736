// An inspection of a journal that is attached first.
ghost use Rattle.std.specs.Prelude.{◌≡◌, ◌≤◌};
ghost use Rattle.dp_base.specs.Counts.{Rose};
ghost use Rattle.dp_top.specs.Running.{InspectedTo};

use crate::command_status::status_of_inspected;
use disk_model::World;
use dp_report::Status;
use epoch_replay::inspect;
use std::alloc::Global;

/// Attaches the journal, which isn't made, and lists its records.
pub(crate) fn inspect_journal<W: World>(alloc: Global, mut world: W, journal: &str) -> (W, Status)
    ensures inspected { InspectedTo (W.history world) (W.history result.0) result.1 }
    ensures none { result.1 ≡ Status.Ok → W.sink_faults result.0 ≡ W.sink_faults world }
    ensures no_guest_fault { result.1 ≡ Status.GuestFault → ⊥ }
    ensures no_usage { result.1 ≡ Status.Usage → ⊥ }
    ensures disk_fault { result.1 ≡ Status.DiskFault → Rose (W.disk_faults world) (W.disk_faults result.0) }
    ensures output_fault { result.1 ≡ Status.OutputFault → Rose (W.sink_faults world) (W.sink_faults result.0) }
    ensures disk_count { W.disk_faults world ≤ W.disk_faults result.0 }
    ensures sink_count { W.sink_faults world ≤ W.sink_faults result.0 }
{
    if world.attach(journal, false).is_err() {
        return (world, Status::DiskFault);
    }
    let (world, answer) = inspect(alloc, world);
    (world, status_of_inspected(answer))
}
