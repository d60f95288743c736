// An epoch, slice by slice.
ghost use Rattle.std.specs.Prelude.{◌≡◌, ◌+◌, ◌<◌, ◌^◌, true, IfOk};
ghost use Rattle.epoch_runner.specs.Answering.{can_step};
ghost use Rattle.epoch_runner.specs.Running.{HasRun, HasRunEpoch};

use crate::bounds::Bounds;
use crate::course::Course;
use crate::epoch_run::{EpochRun, Ran};
use crate::hint_phase::{Begun, begin};
use crate::kernel_laws::{run_laws, turn_laws};
use crate::ready_threads::can_step;
use crate::schedule::next_thread;
use crate::slice::take_slice;
use dp_base::{Bytes, OutOfMemory, Slice};
use epoch_record::Epoch;
use guest_kernel::State;
use std::alloc::Global;
use supply::Supply;
use sync_hints::Hints;

/// Runs one epoch of a guest with hints and a supply of its input. The epoch ends when the guest ends or no thread can
/// step, at its bound of steps, after the step at which it has written or read 65,536 bytes, or when the hints are used
/// up. Hints may be anything. If they can't be followed they are dropped, and the threads take turns by round robin
/// from there.
pub fn run_epoch(
    alloc: Global,
    start: State,
    hints: &Hints,
    supply: &Supply,
    bounds: Bounds,
) -> Result<Ran, OutOfMemory>
    requires countable { start.steps + bounds.steps < 2 ^ 64 }
    ensures { IfOk result (HasRun start hints.now supply.now bounds) }
{
    if bounds.steps == 0 || !can_step(&start, supply) {
        return Ok(Ran::Idle(start));
    }
    Ok(Ran::Epoch(run_from(alloc, start, hints, supply, bounds)?))
}

// Runs an epoch that has a step.
fn run_from(
    alloc: Global,
    start: State,
    hints: &Hints,
    supply: &Supply,
    bounds: Bounds,
) -> Result<EpochRun, OutOfMemory>
    requires some { 0 < bounds.steps }
    requires can { can_step start supply.now ≡ true }
    requires countable { start.steps + bounds.steps < 2 ^ 64 }
    ensures { IfOk result (HasRunEpoch start hints.now supply.now bounds) }
{
    turn_laws();
    run_laws();
    turn_peek::laws::a_reservation_asks_for_nothing();
    dp_base::laws::lengths();
    dp_base::laws::epochs_fit_records();
    let Begun { course, mut next } = begin(alloc, &start, hints, supply, bounds)?;
    let Course {
        mut state,
        mut slices,
        mut trace,
        mut left,
        ..
    } = course;
    'slices: while let Some(tid) = next {
        let steps = take_slice(alloc, &mut state, supply, tid, bounds, left, &mut trace)?;
        left -= steps;
        next = next_thread(
            &state,
            supply,
            trace.out.len(),
            trace.read,
            left,
            tid.0 as usize + 1,
        );
        state.end_slice(tid);
        slices.put(Slice { tid, steps })?;
    }
    Ok(EpochRun {
        start,
        epoch: Epoch {
            slices,
            answers: trace.answers,
        },
        out: Bytes::from_vec(trace.out),
        end: state,
    })
}
