// One slice of a thread.
ghost use Rattle.std.specs.Prelude.{◌≡◌, ◌+◌, ◌<◌, ◌≤◌, ◌^◌, ℕ, false, true, ◌&&◌, nat_lt, [], Ok, IfOk, length};
ghost use Rattle.dp_base.specs.declared.limits.TheConstants.{EPOCH_END_BYTES};
ghost use Rattle.guest_kernel.specs.Answers.{bytes_read};
ghost use Rattle.guest_kernel.specs.State.{has_ended};
ghost use Rattle.epoch_runner.specs.Answering.{ready_at};
ghost use Rattle.epoch_runner.specs.HintRun.{HasTurned};
ghost use Rattle.epoch_runner.specs.SliceRun.{IsMoved, IsSliceRun, can_take};
ghost use Rattle.guest_kernel.specs.Call.{After};
ghost use Rattle.guest_kernel.specs.Peek.{peeked};
ghost use Rattle.guest_kernel.specs.Slices.{new_after, turns};
ghost use Rattle.guest_kernel.specs.Turn.{yields};
ghost use Rattle.epoch_runner.specs.Trace.{traced};

use crate::bounds::Bounds;
use crate::kernel_laws::turn_laws;
use crate::ready_threads::{answer_to, can_take};
use crate::schedule::is_long;
use crate::trace::Trace;
use dp_base::{OutOfMemory, Tid};
use guest_kernel::{Peek, State, Turn};
use std::alloc::Global;
use supply::Supply;

// How far a thread has gone: the number of its steps, and whether the last of them was a yield.
#[derive(Clone, Copy)]
struct Moved {
    steps: u32,
    yielded: bool,
}

// Runs a slice of a thread that can step, if the epoch may have `left` steps more. Returns how many steps it has.
pub(crate) fn take_slice(
    alloc: Global,
    state: &mut State,
    supply: &Supply,
    tid: Tid,
    bounds: Bounds,
    left: u32,
    trace: &mut Trace,
) -> Result<u32, OutOfMemory>
    requires alive { has_ended state.old.end ≡ false }
    requires ready { ready_at state.old supply.now tid ≡ true }
    requires little { length trace.old.out.items < EPOCH_END_BYTES }
    requires little_read { length (bytes_read trace.old.answers) < EPOCH_END_BYTES }
    requires some { 0 < left }
    requires countable { state.old.steps + left < 2 ^ 64 }
    ensures { IfOk result (λ steps. IsSliceRun supply.now bounds tid left state.old (traced trace.old) steps state.new (traced trace.new)) }
{
    turn_laws();
    let most = left.min(bounds.slice);
    let mut steps = 0;
    let mut has_yielded = false;
    let mut peek = state.peek(tid);
    'turns: while steps < most && !has_yielded && goes_on(supply, peek, trace) {
        let moved = advance(alloc, state, supply, tid, peek, most - steps, trace)?;
        steps += moved.steps;
        has_yielded = moved.yielded;
        peek = next_peek(state, tid, steps, most, has_yielded);
    }
    Ok(steps)
}

// What the thread's next turn is, if its slice may have one more. A slice that is over isn't peeked at.
fn next_peek(state: &State, tid: Tid, steps: u32, most: u32, has_yielded: bool) -> Peek
    ensures { steps < most → has_yielded ≡ false → result ≡ peeked state.now tid }
{
    if steps < most && !has_yielded {
        state.peek(tid)
    } else {
        Peek::NotRunnable
    }
}

// Whether a turn can be taken, in an epoch that may write and read more.
fn goes_on(supply: &Supply, peek: Peek, trace: &Trace) -> bool
    ensures { result ≡ (can_take supply.now peek
        && nat_lt (length trace.now.out.items) EPOCH_END_BYTES && nat_lt (length (bytes_read trace.now.answers)) EPOCH_END_BYTES) }
{
    can_take(supply, peek) && !is_long(trace.out.len()) && !is_long(trace.read)
}

// Takes turns of a thread whose next one can be taken, at least one and at most `limit`: as many plain steps as there
// are, or else one turn of another kind.
fn advance(
    alloc: Global,
    state: &mut State,
    supply: &Supply,
    tid: Tid,
    peek: Peek,
    limit: u32,
    trace: &mut Trace,
) -> Result<Moved, OutOfMemory>
    requires peeked { peek ≡ peeked state.old tid }
    requires can { can_take supply.now peek ≡ true }
    requires little { length trace.old.out.items < EPOCH_END_BYTES }
    requires little_read { length (bytes_read trace.old.answers) < EPOCH_END_BYTES }
    requires some { 0 < limit }
    requires countable { state.old.steps + limit < 2 ^ 64 }
    ensures { IfOk result (λ a. IsMoved supply.now tid limit state.old (traced trace.old) a.steps a.yielded state.new (traced trace.new)) }
{
    turn_laws();
    let steps = stretch(state, tid, peek, limit);
    if steps > 0 {
        return Ok(Moved {
            steps,
            yielded: false,
        });
    }
    let yielded = one_turn(alloc, state, supply, tid, peek, trace)?;
    Ok(Moved { steps: 1, yielded })
}

// Takes one turn of a thread, which can be taken. Returns whether it was a yield.
pub(crate) fn one_turn(
    alloc: Global,
    state: &mut State,
    supply: &Supply,
    tid: Tid,
    peek: Peek,
    trace: &mut Trace,
) -> Result<bool, OutOfMemory>
    requires peeked { peek ≡ peeked state.old tid }
    requires can { can_take supply.now peek ≡ true }
    requires little_read { length (bytes_read trace.old.answers) < EPOCH_END_BYTES }
    requires countable { state.old.steps + 1 < 2 ^ 64 }
    ensures { IfOk result (λ yielded. HasTurned supply.now tid state.old (traced trace.old) yielded state.new (traced trace.new)) }
{
    turn_laws();
    turn_peek::laws::a_read_starts_where_the_input_is();
    let answer = answer_to(alloc, supply, peek)?;
    let Turn::Stepped { yielded, .. } = state.turn(alloc, tid, answer.as_ref(), &mut trace.out)?
    else {
        unreachable!();
    };
    trace.put(answer)?;
    Ok(yielded)
}

// Takes plain steps of a thread, at most `limit`. It has none if its next turn is a call or an AMO.
fn stretch(state: &mut State, tid: Tid, peek: Peek, limit: u32) -> u32
    requires { state.old.steps + limit < 2 ^ 64 }
    ensures within { result ≤ limit }
    ensures turns { turns 0 result tid (new_after state.old [] []) ≡ Ok (new_after state.new [] []) }
    ensures no_yield { (count : ℕ) (mid : After) → count < result → turns 0 count tid (new_after state.old [] []) ≡ Ok mid → yields mid.state tid ≡ false }
    ensures steps { state.new.steps ≡ state.old.steps + result }
{
    match peek {
        Peek::Plain => state.go_on(tid, limit),
        Peek::Sc => state.go_on(tid, limit),
        _ => 0,
    }
}
