// Offers as text.
use crate::state_hash::hash_of;
use guest_kernel::{State, Thread};
use racing_runner::Offer;
use std::alloc::{AllocError, Global};
use sync_hints::{Hints, Sc, SyncHint};

// The counts as `tid:steps`.
fn push_counts(text: &mut String, alloc: Global, hints: &Hints) -> Result<(), AllocError> {
    for count in hints.counts.as_slice() {
        let (tid, steps) = *count;
        text.push_str(&format!(in alloc; "{}:{steps} ", tid.0)?)?;
    }
    Ok(())
}

// A number of equal hints: the thread and one of `n`, `w` and `l` for `NotSc`, `Won` and `Lost`, with `*` and the
// number if they are several.
fn push_hints(
    text: &mut String,
    alloc: Global,
    hint: SyncHint,
    times: u32,
) -> Result<(), AllocError> {
    let letter = match hint.sc {
        Sc::NotSc => 'n',
        Sc::Won => 'w',
        Sc::Lost => 'l',
    };
    text.push_str(&format!(in alloc; "{}{letter}", hint.tid.0)?)?;
    if times > 1 {
        text.push_str(&format!(in alloc; "*{times}")?)?;
    }
    text.push_str(" ")
}

// The order, `-` if there is none.
fn push_order(text: &mut String, alloc: Global, hints: &Hints) -> Result<(), AllocError> {
    let mut last = None;
    let mut times = 0u32;
    for hint in hints.order.as_slice() {
        if last == Some(*hint) {
            times = times.saturating_add(1);
            continue;
        }
        if let Some(other) = last {
            push_hints(text, alloc, other, times)?;
        }
        last = Some(*hint);
        times = 1;
    }
    match last {
        Some(hint) => push_hints(text, alloc, hint, times),
        None => text.push_str("- "),
    }
}

// The lowest thread that runs or waits, and its x5; zeros if there is none.
fn lowest_alive(state: &State) -> (usize, u32) {
    for (index, thread) in state.threads.as_slice().iter().enumerate() {
        match thread {
            Thread::Runs { hart, .. } => return (index + 1, hart.register(5)),
            Thread::Waits { hart, .. } => return (index + 1, hart.register(5)),
            Thread::Gone(_) => {}
        }
    }
    (0, 0)
}

// An offer as a line of a table: the counts of its hints; their order; the state's step count and place of the input;
// its lowest thread that is alive and the x5 of this in hexadecimal; and the hash of its encoding.
pub(crate) fn push_offer(
    text: &mut String,
    alloc: Global,
    offer: &Offer,
) -> Result<(), AllocError> {
    push_counts(text, alloc, &offer.hints)?;
    text.push_str("| ")?;
    push_order(text, alloc, &offer.hints)?;
    let state = &offer.next;
    let (tid, x5) = lowest_alive(state);
    let hash = hash_of(state);
    text.push_str(&format!(in alloc;
        "| {} {} | {tid} {x5:x} | {hash:016x}\n",
        state.steps, state.input
    )?)
}
