// A replay of a journal that is attached first.
ghost use Rattle.std.specs.Prelude.{◌≡◌, ◌≤◌, ◌⊎◌};
ghost use Rattle.dp_base.specs.Counts.{Rose};
ghost use Rattle.disk_model.specs.Known.{known_disk};
ghost use Rattle.epoch_replay.specs.Replaying.{EachReplayMoment, IsKnownToEnd, OnDisk};
ghost use Rattle.journal_text.specs.Reading.{reads};
ghost use Rattle.dp_top.specs.Running.{ReplayedTo};

use crate::command_status::status_of_replayed;
use disk_model::World;
use dp_report::Status;
use epoch_replay::replay;
use std::alloc::Global;
use std::thread::Threads;

/// Attaches the journal, which isn't made, and replays it.
pub(crate) fn replay_journal<R: Threads + Sync, W: World>(
    rt: &R,
    alloc: Global,
    mut world: W,
    journal: &str,
    workers: u32,
) -> (W, Status)
    ensures replayed { ReplayedTo (W.history world) (W.history result.0) result.1 }
    ensures moments { OnDisk (known_disk (W.history world))
        (λ bytes. EachReplayMoment (reads bytes) (W.history world) (W.history result.0)) }
    ensures none { result.1 ≡ Status.Ok → W.sink_faults result.0 ≡ W.sink_faults world }
    ensures no_guest_fault { result.1 ≡ Status.GuestFault → ⊥ }
    ensures no_usage { result.1 ≡ Status.Usage → ⊥ }
    ensures disk_fault { result.1 ≡ Status.DiskFault → Rose (W.disk_faults world) (W.disk_faults result.0) }
    ensures output_fault { result.1 ≡ Status.OutputFault → Rose (W.sink_faults world) (W.sink_faults result.0) }
    ensures disk_count { W.disk_faults world ≤ W.disk_faults result.0 }
    ensures sink_count { W.sink_faults world ≤ W.sink_faults result.0 }
    ensures complete { IsKnownToEnd (known_disk (W.history world)) →
        (Rose (W.disk_faults world) (W.disk_faults result.0) → ⊥) →
        (Rose (W.sink_faults world) (W.sink_faults result.0) → ⊥) →
        (result.1 ≡ Status.Ok) ⊎ (result.1 ≡ Status.OutOfMemory) }
{
    if world.attach(journal, false).is_err() {
        return (world, Status::DiskFault);
    }
    let (world, answer) = replay(rt, alloc, world, workers);
    (world, status_of_replayed(answer))
}
