// What hints say of a turn.
ghost use Rattle.std.specs.Prelude.{◌≡◌, option_map};
ghost use Rattle.epoch_runner.specs.Syncing.{sc_by, sc_of, sync_of};
ghost use Rattle.rv_step.specs.Decoding.{decoded};

use dp_base::Tid;
use guest_kernel::{Hart, Pages, Peek, State, Thread};
use rv_step::{Instr, decode};
use sync_hints::Sc;

// What hints say of a thread's next turn, or `None` if it is plain.
pub(crate) fn sync_of(state: &State, tid: Tid) -> Option<Sc>
    ensures { result ≡ sync_of state.now tid }
{
    match state.peek(tid) {
        Peek::NotRunnable => None,
        Peek::Plain => None,
        Peek::Sync => Some(Sc::NotSc),
        Peek::Sc => Some(sc_of(&state.pages, state.threads.get(tid))),
        Peek::Read { .. } => Some(Sc::NotSc),
        Peek::Clock => Some(Sc::NotSc),
    }
}

// Whether the instruction that a thread is at is an SC, and one that stores.
fn sc_of(pages: &Pages, thread: Option<&Thread>) -> Sc
    ensures { result ≡ sc_of pages.now (option_map (λ t. t.now) thread.entry) }
{
    let Some(&Thread::Runs { hart, .. }) = thread else {
        return Sc::NotSc;
    };
    match pages.code_at(hart.pc) {
        Some(word) => sc_by(&hart, word),
        None => Sc::NotSc,
    }
}

// Whether a word is an SC, and one that stores.
fn sc_by(hart: &Hart, word: u32) -> Sc
    ensures { result ≡ sc_by hart.now (decoded word) }
{
    let Some(Instr::ScW { rs1, .. }) = decode(word) else {
        return Sc::NotSc;
    };
    if hart.held == Some(hart.register(rs1)) {
        Sc::Won
    } else {
        Sc::Lost
    }
}
