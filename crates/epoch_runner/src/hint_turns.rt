// Turns by hints.
ghost use Rattle.std.specs.Prelude.{◌≡◌, ◌+◌, ◌<◌, ◌≤◌, ◌^◌, ◌==◌, ◌||◌, nat_le, Bool, false, true, IfOk, length};
ghost use Rattle.dp_base.specs.declared.limits.TheConstants.{EPOCH_END_BYTES};
ghost use Rattle.guest_kernel.specs.Answers.{bytes_read};
ghost use Rattle.guest_kernel.specs.declared.state.State.{State as States};
ghost use Rattle.guest_kernel.specs.State.{has_ended};
ghost use Rattle.epoch_runner.specs.Answering.{ready_at};
ghost use Rattle.epoch_runner.specs.declared.bounds.Bounds.{Bounds};
ghost use Rattle.epoch_runner.specs.HintRun.{HasFollowed, HasTakenHinted, HasTurned, HintedSoFar, following_of, hand_steps};
ghost use Rattle.epoch_runner.specs.Trace.{traced};
ghost use Rattle.sync_hints.specs.declared.hints.Hints.{Hints};

use crate::course::Course;
use crate::following::Following;
use crate::hint_stage::HintTurn;
use crate::kernel_laws::{run_laws, turn_laws};
use crate::schedule::is_long;
use crate::slice::one_turn;
use crate::trace::Trace;
use dp_base::{OutOfMemory, Tid};
use guest_kernel::State;
use std::alloc::Global;
use supply::Supply;
use sync_hints::SyncHint;

// Takes the turns that are next by hints: plain turns of a thread, or one of an entry. Returns whether there were any:
// there are none if the epoch is over, and if the hints are used up or can't be followed.
pub(crate) fn follow(
    alloc: Global,
    course: &mut Course,
    following: &mut Following,
    order: &[SyncHint],
    supply: &Supply,
) -> Result<bool, OutOfMemory>
    requires countable { course.old.state.steps + course.old.left < 2 ^ 64 }
    requires small { hand_steps course.old.hand + course.old.left < 2 ^ 32 }
    ensures { IfOk result (λ more. (start : States) (hints : Hints) (bounds : Bounds) →
        HintedSoFar start hints supply.now bounds course.old.state course.old.slices (traced course.old.trace) course.old.left course.old.hand (following_of following.old order.now) →
        HasFollowed more start hints supply.now bounds course.new.state course.new.slices (traced course.new.trace) course.old.left course.new.left course.new.hand (following_of following.new order.now)) }
{
    turn_laws();
    run_laws();
    turn_peek::laws::a_reservation_asks_for_nothing();
    if is_over(course) || !following.any_left() {
        return Ok(false);
    }
    let Some(turn) = following.next_turn(order, &course.state, supply) else {
        return Ok(false);
    };
    course.begin_slice(turn)?;
    let limit = course.left.min(following.left_of(turn.tid));
    let steps = take(
        alloc,
        &mut course.state,
        supply,
        turn,
        limit,
        &mut course.trace,
    )?;
    following.take(turn.tid, steps);
    course.count(steps);
    Ok(true)
}

// Whether an epoch takes no further turn by hints, whatever these are.
fn is_over(course: &Course) -> bool
    ensures { result ≡ (has_ended course.now.state.end || (course.now.left == 0) || nat_le EPOCH_END_BYTES (length course.now.trace.out.items) || nat_le EPOCH_END_BYTES (length (bytes_read course.now.trace.answers))) }
{
    course.state.ended()
        || course.left == 0
        || is_long(course.trace.out.len())
        || is_long(course.trace.read)
}

// Takes plain turns of a thread, at most `limit`, or one turn.
fn take(
    alloc: Global,
    state: &mut State,
    supply: &Supply,
    turn: HintTurn,
    limit: u32,
    trace: &mut Trace,
) -> Result<u32, OutOfMemory>
    requires alive { has_ended state.old.end ≡ false }
    requires ready { ready_at state.old supply.now turn.tid ≡ true }
    requires little_read { length (bytes_read trace.old.answers) < EPOCH_END_BYTES }
    requires some { 0 < limit }
    requires countable { state.old.steps + limit < 2 ^ 64 }
    ensures within { IfOk result (λ steps. steps ≤ limit) }
    ensures taken { IfOk result (λ steps. HasTakenHinted supply.now turn.tid turn.is_plain state.old (traced trace.old) steps state.new (traced trace.new)) }
{
    if !turn.is_plain {
        return take_one(alloc, state, supply, turn.tid, trace);
    }
    let steps = state.go_plain(turn.tid, limit);
    if steps > 0 {
        return Ok(steps);
    }
    take_one(alloc, state, supply, turn.tid, trace)
}

// Takes one turn of a thread that can step. Returns 1.
fn take_one(
    alloc: Global,
    state: &mut State,
    supply: &Supply,
    tid: Tid,
    trace: &mut Trace,
) -> Result<u32, OutOfMemory>
    requires alive { has_ended state.old.end ≡ false }
    requires ready { ready_at state.old supply.now tid ≡ true }
    requires little_read { length (bytes_read trace.old.answers) < EPOCH_END_BYTES }
    requires countable { state.old.steps + 1 < 2 ^ 64 }
    ensures one { IfOk result (λ steps. steps ≡ 1) }
    ensures turned { IfOk result (λ steps. (yielded : Bool) × HasTurned supply.now tid state.old (traced trace.old) yielded state.new (traced trace.new)) }
{
    turn_laws();
    let peek = state.peek(tid);
    let _yielded = one_turn(alloc, state, supply, tid, peek, trace)?;
    Ok(1)
}
