// What a supply answers to a turn, and which threads can step with it.
ghost use Rattle.std.specs.Prelude.{◌≡◌, ◌<◌, ◌≤◌, ◌-◌, ◌^◌, ℕ, IfOk, length};
ghost use Rattle.std.specs.List.{AllByRecursion, list_any};
ghost use Rattle.std.specs.Option.{option_to_list};
ghost use Rattle.dp_base.specs.declared.answer.Answer.TheVariants.{Read};
ghost use Rattle.dp_base.specs.Journal.{IsAnswer};
ghost use Rattle.guest_kernel.specs.Turn.{HasRead};
ghost use Rattle.epoch_runner.specs.Answering.{answer_to, can_step, input_due, is_ready, is_unanswered, read_of, ready_at, waits_for_input};
ghost use Rattle.dp_base.specs.declared.limits.TheConstants.{MAX_CALL_BYTES};
ghost use Rattle.epoch_runner.specs.SliceRun.{IsEarlyRead, can_take};
ghost use Rattle.supply.specs.Supplied.{window_answer};

use dp_base::{Answer, Bytes, OutOfMemory, Tid};
use guest_kernel::{Peek, State, Thread, is_running};
use std::alloc::Global;
use supply::Supply;
use turn_peek::peek_thread;

/// Returns whether a guest can take a step: it hasn't ended, and a thread runs that doesn't wait for input.
pub fn can_step(state: &State, supply: &Supply) -> bool
    ensures { result ≡ can_step state.now supply.now }
{
    !state.ended() && any_ready(state, supply)
}

/// Returns whether more input is due: the guest hasn't ended, and a thread is at a read whose answer isn't known.
pub fn input_due(state: &State, supply: &Supply) -> bool
    ensures { result ≡ input_due state.now supply.now }
{
    !state.ended() && any_waits(state, supply)
}

fn any_ready(state: &State, supply: &Supply) -> bool
    ensures { result ≡ list_any (is_ready state.now supply.now) state.now.threads }
{
    let threads = state.threads.as_slice();
    threads.iter().any(|thread| is_ready(state, supply, thread))
}

fn any_waits(state: &State, supply: &Supply) -> bool
    ensures { result ≡ list_any (waits_for_input state.now supply.now) state.now.threads }
{
    let threads = state.threads.as_slice();
    threads
        .iter()
        .any(|thread| waits_for_input(state, supply, thread))
}

// Whether a thread can step: it runs, and isn't at a read whose answer isn't known.
fn is_ready(state: &State, supply: &Supply, thread: &Thread) -> bool
    ensures { result ≡ is_ready state.now supply.now thread.now }
{
    let peek = peek_thread(thread, &state.pages, state.input);
    is_running(thread) && !is_unanswered(supply, peek)
}

// Whether the thread with this number can step.
pub(crate) fn ready_at(state: &State, supply: &Supply, tid: Tid) -> bool
    ensures { result ≡ ready_at state.now supply.now tid }
{
    match state.threads.get(tid) {
        Some(thread) => is_ready(state, supply, thread),
        None => false,
    }
}

fn waits_for_input(state: &State, supply: &Supply, thread: &Thread) -> bool
    ensures { result ≡ waits_for_input state.now supply.now thread.now }
{
    let peek = peek_thread(thread, &state.pages, state.input);
    is_running(thread) && is_unanswered(supply, peek)
}

// Whether a turn is a read whose answer isn't known.
fn is_unanswered(supply: &Supply, peek: Peek) -> bool
    ensures { result ≡ is_unanswered supply.now peek }
{
    match peek {
        Peek::NotRunnable => false,
        Peek::Plain => false,
        Peek::Sync => false,
        Peek::Sc => false,
        Peek::Read { place, max } => supply.answer(place, max).is_none(),
        Peek::Clock => false,
    }
}

// Whether there is a turn, and it can be taken: it isn't a read whose answer isn't known.
pub(crate) fn can_take(supply: &Supply, peek: Peek) -> bool
    ensures { result ≡ can_take supply.now peek }
{
    match peek {
        Peek::NotRunnable => false,
        peek => !is_unanswered(supply, peek),
    }
}

// The answer that a turn takes, if it takes one and it is known.
pub(crate) fn answer_to(
    alloc: Global,
    supply: &Supply,
    peek: Peek,
) -> Result<Option<Answer>, OutOfMemory>
    requires few { (place max : ℕ) → peek ≡ Peek.Read place max → max ≤ MAX_CALL_BYTES }
    ensures is { IfOk result (λ answer. option_to_list answer ≡ answer_to supply.now peek) }
    ensures is_answer { IfOk result (λ answer. AllByRecursion IsAnswer (option_to_list answer)) }
    ensures place { IfOk result (λ answer. HasRead (option_to_list answer) → IsEarlyRead peek) }
{
    match peek {
        Peek::NotRunnable => Ok(None),
        Peek::Plain => Ok(None),
        Peek::Sync => Ok(None),
        Peek::Sc => Ok(None),
        Peek::Read { place, max } => answer_to_read(alloc, supply, place, max),
        Peek::Clock => Ok(Some(Answer::Clock(supply.stamp()))),
    }
}

// The answer to a read, if it is known.
fn answer_to_read(
    alloc: Global,
    supply: &Supply,
    place: u64,
    max: u32,
) -> Result<Option<Answer>, OutOfMemory>
    requires few { max ≤ MAX_CALL_BYTES }
    ensures is { IfOk result (λ answer. option_to_list answer ≡ read_of (window_answer place max supply.now)) }
    ensures is_answer { IfOk result (λ answer. AllByRecursion IsAnswer (option_to_list answer)) }
    ensures place { IfOk result (λ answer. HasRead (option_to_list answer) → place < 2 ^ 64 - MAX_CALL_BYTES) }
{
    let Some(bytes) = supply.answer(place, max) else {
        return Ok(None);
    };
    Ok(Some(taking(alloc, bytes)?))
}

// The answer that a read takes these bytes.
fn taking(alloc: Global, bytes: &[u8]) -> Result<Answer, OutOfMemory>
    requires few { length bytes.now ≤ MAX_CALL_BYTES }
    ensures is { IfOk result (λ answer. answer ≡ Read bytes.now) }
    ensures is_answer { IfOk result IsAnswer }
{
    let copied = bytes.to_vec(alloc)?;
    Ok(Answer::Read(Bytes::from_vec(copied)))
}
