// The rules of hints that look at the guest.
ghost use Rattle.std.specs.Prelude.{◌≡◌, ◌&&◌, not};
ghost use Rattle.epoch_runner.specs.Hinted.{first_stage, goes_plain, is_plain, is_thread, rule_4};
ghost use Rattle.epoch_runner.specs.Lowest.{lowest_from};

use crate::hint_stage::HintStage;
use crate::ready_threads::ready_at;
use crate::steps_left::left_of;
use dp_base::Tid;
use guest_kernel::{Peek, State};
use supply::Supply;
use sync_hints::{Sc, SyncHint};

// The stage at which an entry begins: other threads are not passed if its SC won.
pub(crate) fn first_stage(entry: SyncHint) -> HintStage
    ensures { result ≡ first_stage entry }
{
    match entry.sc {
        Sc::Won => HintStage::Own { entry },
        Sc::NotSc => HintStage::Others { entry, from: 1 },
        Sc::Lost => HintStage::Others { entry, from: 1 },
    }
}

// Whether a thread has steps left and its next turn is plain.
pub(crate) fn goes_plain(left: &[u32], state: &State, tid: Tid) -> bool
    ensures { result ≡ goes_plain state.now left.now tid }
{
    left_of(left, tid) > 0 && is_plain(state.peek(tid))
}

// The lowest thread from a number on, but for this one, that has steps left and whose next turn is plain.
pub(crate) fn lowest_plain(left: &[u32], state: &State, least: u16, but: Option<Tid>) -> Option<Tid>
    ensures { result ≡ lowest_from (λ tid. not (is_thread but tid) && goes_plain state.now left.now tid) least state.now.threads }
{
    let mut number = (least as usize).max(1);
    'threads: while number <= state.threads.len() {
        let tid = Tid(number as u16);
        if other_goes_plain(left, state, but, tid) {
            return Some(tid);
        }
        number += 1;
    }
    None
}

fn other_goes_plain(left: &[u32], state: &State, but: Option<Tid>, tid: Tid) -> bool
    ensures { result ≡ (not (is_thread but tid) && goes_plain state.now left.now tid) }
{
    !is_thread(but, tid) && goes_plain(left, state, tid)
}

// Whether the turn of an entry can be taken: its thread has steps left, isn't at a plain turn, and can step.
pub(crate) fn can_be_done(left: &[u32], entry: SyncHint, state: &State, supply: &Supply) -> bool
    ensures { result ≡ rule_4 state.now supply.now left.now entry }
{
    left_of(left, entry.tid) > 0
        && !is_plain(state.peek(entry.tid))
        && ready_at(state, supply, entry.tid)
}

// Whether a turn is plain, as the rules of hints ask.
fn is_plain(peek: Peek) -> bool
    ensures { result ≡ is_plain peek }
{
    match peek {
        Peek::Plain => true,
        Peek::NotRunnable => false,
        Peek::Sync => false,
        Peek::Sc => false,
        Peek::Read { .. } => false,
        Peek::Clock => false,
    }
}

// Whether this is the thread, if there is one.
pub(crate) fn is_thread(this: Option<Tid>, tid: Tid) -> bool
    ensures { result ≡ is_thread this tid }
{
    match this {
        Some(this) => this == tid,
        None => false,
    }
}
