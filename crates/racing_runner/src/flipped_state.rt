// A state with one bit flipped.
ghost use Rattle.std.specs.Prelude.{◌≡◌, position};
ghost use Rattle.guest_state.specs.Checkpoint.{is_alive};
ghost use Rattle.racing_runner.specs.Chaos.{flipped, hart_flipped, thread_flipped};

use dp_base::Tid;
use guest_kernel::{Hart, State, Thread};

const FLIPPED: u8 = 5;

// Flips bit 0 of x5 of the lowest thread that is alive.
pub(crate) fn flip(state: &mut State)
    ensures { state.new ≡ flipped state.old }
{
    let Some(place) = lowest_alive(state.threads.as_slice()) else {
        return;
    };
    let tid = Tid(place as u16 + 1);
    if let Some(thread) = state.threads.get(tid) {
        let flipped = flipped_thread(thread);
        state.threads.set(tid, flipped);
    }
}

fn lowest_alive(threads: &[Thread]) -> Option<usize>
    ensures { result ≡ position is_alive threads.now }
{
    threads.iter().position(is_alive)
}

fn is_alive(thread: &Thread) -> bool
    ensures { result ≡ is_alive thread.now }
{
    !matches!(thread, Thread::Gone(_))
}

fn flipped_thread(thread: &Thread) -> Thread
    ensures { result ≡ thread_flipped thread.now }
{
    match *thread {
        Thread::Runs { hart, clear } => Thread::Runs {
            hart: flipped_hart(hart),
            clear,
        },
        Thread::Waits { addr, hart, clear } => Thread::Waits {
            addr,
            hart: flipped_hart(hart),
            clear,
        },
        Thread::Gone(code) => Thread::Gone(code),
    }
}

fn flipped_hart(mut hart: Hart) -> Hart
    ensures { result ≡ hart_flipped hart }
{
    let value = hart.register(FLIPPED) ^ 1;
    hart.set_register(FLIPPED, value);
    hart
}
