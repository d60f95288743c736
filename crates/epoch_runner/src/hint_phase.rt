// An epoch's turns by hints, and the thread with which the round robin begins after them.
ghost use Rattle.std.specs.Prelude.{◌≡◌, ◌+◌, ◌<◌, ◌^◌, true, false, None, IfOk, length};
ghost use Rattle.guest_kernel.specs.Answers.{bytes_read};
ghost use Rattle.epoch_runner.specs.Answering.{can_step};
ghost use Rattle.epoch_runner.specs.Hinted.{any_left};
ghost use Rattle.epoch_runner.specs.HintRun.{hand_thread};
ghost use Rattle.epoch_runner.specs.Schedule.{after_last, begins_with};
ghost use Rattle.epoch_runner.specs.SliceRun.{EpochSoFar, next_slice};
ghost use Rattle.epoch_runner.specs.Trace.{traced};

use crate::bounds::Bounds;
use crate::course::Course;
use crate::following::Following;
use crate::hint_turns::follow;
use crate::kernel_laws::{run_laws, turn_laws};
use crate::schedule::next_thread;
use dp_base::{OutOfMemory, Tid};
use guest_kernel::State;
use std::alloc::Global;
use supply::Supply;
use sync_hints::Hints;

// An epoch up to the point at which no more turns are named by hints, and the thread of the next slice. It is `None` if
// the epoch is over.
#[derive(Drop)]
pub(crate) struct Begun {
    pub(crate) course: Course,
    pub(crate) next: Option<Tid>,
}

// Runs an epoch while its turns are named by hints.
pub(crate) fn begin(
    alloc: Global,
    start: &State,
    hints: &Hints,
    supply: &Supply,
    bounds: Bounds,
) -> Result<Begun, OutOfMemory>
    requires some { 0 < bounds.steps }
    requires can { can_step start.now supply.now ≡ true }
    requires countable { start.now.steps + bounds.steps < 2 ^ 64 }
    ensures { IfOk result (λ b. EpochSoFar start.now hints.now supply.now bounds b.course.slices b.course.left b.course.state (traced b.course.trace) b.next) }
{
    turn_laws();
    run_laws();
    turn_peek::laws::a_reservation_asks_for_nothing();
    let order = hints.order.as_slice();
    let mut following = Following::new(alloc, hints)?;
    let mut course = Course::new(alloc, start.share(alloc)?, bounds.steps);
    if !following.any_left() {
        let next = next_thread(start, supply, 0, 0, bounds.steps, bounds.first as usize);
        return Ok(Begun { course, next });
    }
    let mut more = true;
    'turns: while more {
        more = follow(alloc, &mut course, &mut following, order, supply)?;
    }
    let next = next_after(&course, &following, supply, bounds);
    course.end_slice()?;
    Ok(Begun { course, next })
}

// The thread of the first slice after turns by hints. There is none if the hints are used up. If they can't be
// followed, they are dropped.
fn next_after(
    course: &Course,
    following: &Following,
    supply: &Supply,
    bounds: Bounds,
) -> Option<Tid>
    ensures used_up { any_left following.now.left.items ≡ false → result ≡ None }
    ensures dropped { any_left following.now.left.items ≡ true → begins_with result ≡ next_slice course.now.state supply.now (length course.now.trace.out.items) (length (bytes_read course.now.trace.answers)) course.now.left (after_last bounds (hand_thread course.now.hand)) }
{
    if !following.any_left() {
        return None;
    }
    next_thread(
        &course.state,
        supply,
        course.trace.out.len(),
        course.trace.read,
        course.left,
        course.next_number(bounds),
    )
}
