// A taker that notes what it takes.
ghost use Rattle.std.specs.Prelude.{◌≡◌};

use epoch_runner::Ran;
use epoch_stream::Taker;
use racing_runner::More;
use std::sync::atomic::{AtomicU32, Ordering};

/// Notes the steps at which results end and the bytes that they wrote, and has enough after a number of results.
#[derive(Drop)]
pub(crate) struct Counting<'a> {
    // How many it has taken, for others to see.
    pub(crate) seen: &'a AtomicU32,
    pub(crate) most: u32,
    pub(crate) taken: u32,
    // The steps at which they ended, as digits to the base 100.
    pub(crate) steps: u64,
    // The lengths of what they wrote, as digits to the base 10.
    pub(crate) written: u64,
    pub(crate) idle: u32,
}

impl<'a> Counting<'a> {
    pub(crate) fn new(seen: &'a AtomicU32, most: u32) -> Counting<'a>
        ensures { result.taken ≡ 0 }
    {
        Counting {
            seen,
            most,
            taken: 0,
            steps: 0,
            written: 0,
            idle: 0,
        }
    }
}

impl<'a> Taker for Counting<'a> {
    ghost use Rattle.std.specs.Prelude.{⊤};

    ghost takes = { λ before ran more after. ⊤ };

    ghost ready = { λ taker. ⊤ };

    ghost expects = { λ taker start. ⊤ };

    ghost taken = { λ taker. taker.taken };

    fn take(&mut self, ran: Ran) -> More {
        let (steps, written) = match &ran {
            Ran::Epoch(run) => (run.end.steps, run.out.len()),
            Ran::Idle(state) => {
                self.idle = self.idle.saturating_add(1);
                (state.steps, 0)
            }
        };
        self.steps = self.steps.wrapping_mul(100).wrapping_add(steps);
        self.written = self.written.wrapping_mul(10).wrapping_add(written as u64);
        self.taken += 1;
        self.seen.store(self.taken, Ordering::SeqCst);
        if self.taken >= self.most {
            More::Enough
        } else {
            More::Yes
        }
    }

    fn take_known(&mut self, ran: Ran) -> More {
        self.take(ran)
    }
}
