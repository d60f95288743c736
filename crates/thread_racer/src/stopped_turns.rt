// The calls and traps at which threads stop, one after another.
ghost use Rattle.std.specs.Prelude.{◌≡◌};

use crate::stretch_course::Course;
use crate::thread_run::{ThreadRun, running};
use dp_base::{Answer, Bytes, OutOfMemory, Tid};
use guest_kernel::{Peek, State, Turn};
use std::alloc::Global;
use std::mem;
use supply::Supply;
use sync_hints::Sc;
use turn_peek::calls::{A7, EXIT_THREAD};

// No turn is taken once there are this many steps, or bytes of input.
const MOST: u64 = u64::MAX - 8192;

// No thread goes on before an exit once there are this many steps.
const MOST_BEFORE_EXIT: u64 = u64::MAX / 2;

// The answer that a turn takes.
#[derive(Drop)]
enum TurnAnswer {
    None,
    Known(Answer),
    Unknown,
}

// The answer that a thread's next turn takes. It is unknown too if there is no turn.
fn answer_to(
    alloc: Global,
    state: &State,
    supply: &Supply,
    tid: Tid,
) -> Result<TurnAnswer, OutOfMemory> {
    match state.peek(tid) {
        Peek::NotRunnable => Ok(TurnAnswer::Unknown),
        Peek::Plain => Ok(TurnAnswer::None),
        Peek::Sync => Ok(TurnAnswer::None),
        Peek::Sc => Ok(TurnAnswer::None),
        Peek::Clock => Ok(TurnAnswer::Known(Answer::Clock(supply.stamp()))),
        Peek::Read { place, max } => match supply.answer(place, max) {
            Some(bytes) => {
                let bytes = bytes.to_vec(alloc)?;
                Ok(TurnAnswer::Known(Answer::Read(Bytes::from_vec(bytes))))
            }
            None => Ok(TurnAnswer::Unknown),
        },
    }
}

// Whether a thread can take a step, as far as the input is known.
pub(crate) fn is_step_possible(state: &State, supply: &Supply) -> bool {
    for index in 0..state.threads.len() {
        let can = match state.peek(Tid(index as u16 + 1)) {
            Peek::NotRunnable => false,
            Peek::Plain => true,
            Peek::Sync => true,
            Peek::Sc => true,
            Peek::Clock => true,
            Peek::Read { place, max } => supply.answer(place, max).is_some(),
        };
        if can {
            return true;
        }
    }
    false
}

// What came of a turn.
#[derive(Clone, Copy, PartialEq, Eq)]
pub(crate) enum Taken {
    Nothing,
    AStep,
    // A step after which other threads come first, as after a yield.
    AYield,
}

// Takes a thread's turn if its answer is known.
fn turn(
    alloc: Global,
    state: &mut State,
    supply: &Supply,
    tid: Tid,
    out: &mut Vec<u8>,
) -> Result<Taken, OutOfMemory> {
    if state.steps >= MOST || state.input >= MOST {
        return Ok(Taken::Nothing);
    }
    let turned = match answer_to(alloc, state, supply, tid)? {
        TurnAnswer::None => state.turn(alloc, tid, None, out)?,
        TurnAnswer::Known(answer) => state.turn(alloc, tid, Some(&answer), out)?,
        TurnAnswer::Unknown => return Ok(Taken::Nothing),
    };
    match turned {
        Turn::Stepped { yielded: true, .. } => Ok(Taken::AYield),
        Turn::Stepped { .. } => Ok(Taken::AStep),
        _ => Ok(Taken::Nothing),
    }
}

// Whether a thread that stopped at a call exits by it.
fn exits(state: &State, tid: Tid) -> bool {
    match running(state, tid) {
        Some(hart) => hart.register(A7) == EXIT_THREAD,
        None => false,
    }
}

// Lets the other threads take their plain steps before a thread exits. The exit clears a word, for which others may
// look by plain loads. An epoch by hints takes the plain steps of all threads before a call too. Others may take the
// steps that the thread has left, but for one.
fn go_before_exit(
    state: &mut State,
    threads: &mut [ThreadRun],
    exiting: usize,
    course: &Course,
) -> Result<(), OutOfMemory> {
    let mut spare = match threads.get(exiting) {
        Some(thread) => thread.quota.saturating_sub(1),
        None => 0,
    };
    let before = spare;
    for index in 0..threads.len() {
        if index == exiting || state.steps >= MOST_BEFORE_EXIT {
            continue;
        }
        let thread = &mut threads[index];
        let limit = u64::from(thread.quota.saturating_add(spare)).min(
            course.left(state).saturating_sub(1),
        ) as u32;
        let own = thread.quota;
        let steps = state.go_plain(thread.tid, limit);
        spare = spare.saturating_sub(steps.saturating_sub(own));
        thread.note(steps, 0, 1, &[])?;
    }
    if let Some(thread) = threads.get_mut(exiting) {
        thread.quota = thread.quota.saturating_sub(before.saturating_sub(spare));
    }
    Ok(())
}

// Takes a thread's turn at a call or a trap, if the thread may take a step and the answer is known. The turn gets the
// next ticket.
pub(crate) fn take_turn(
    alloc: Global,
    state: &mut State,
    supply: &Supply,
    threads: &mut [ThreadRun],
    index: usize,
    course: &mut Course,
) -> Result<Taken, OutOfMemory> {
    let (tid, quota) = match threads.get(index) {
        Some(thread) => (thread.tid, thread.quota),
        None => return Ok(Taken::Nothing),
    };
    if quota == 0 || course.left(state) == 0 {
        return Ok(Taken::Nothing);
    }
    if exits(state, tid) {
        go_before_exit(state, threads, index, course)?;
    }
    let taken = turn(alloc, state, supply, tid, &mut course.out)?;
    if taken == Taken::Nothing {
        return Ok(Taken::Nothing);
    }
    if let Some(thread) = threads.get_mut(index) {
        thread.note(1, course.tickets, 1, &[(0, Sc::NotSc)])?;
    }
    course.tickets = course.tickets.saturating_add(1);
    Ok(taken)
}

// Takes the turns of the threads that stopped at a call or a trap, lowest number first.
pub(crate) fn take_turns(
    alloc: Global,
    state: &mut State,
    supply: &Supply,
    threads: &mut [ThreadRun],
    course: &mut Course,
) -> Result<(), OutOfMemory> {
    for index in 0..threads.len() {
        let at_call = match threads.get_mut(index) {
            Some(thread) => mem::replace(&mut thread.at_call, false),
            None => false,
        };
        if at_call {
            take_turn(alloc, state, supply, threads, index, course)?;
        }
    }
    Ok(())
}
