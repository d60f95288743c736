// How a thread of a round waits for another.
use std::sync::{Condvar, Mutex, Wait};
use std::thread;

// How often a thread that finds nothing yields its processor before it sleeps: some twenty microseconds, about as long
// as a wake takes.
const LOOKS: u32 = 64;

/// Wakes those that wait for something. Promises nothing: who wakes looks again.
#[derive(Drop)]
pub(crate) struct Bell {
    // How often it was rung.
    rings: Mutex<u32>,
    rung: Condvar,
}

impl Bell {
    pub(crate) fn new() -> Bell {
        Bell {
            rings: Mutex::new(0),
            rung: Condvar::new(),
        }
    }

    /// Wakes all that wait.
    pub(crate) fn ring<R: Wait>(&self, rt: &R) {
        {
            let mut rings = self.rings.lock(rt);
            *rings = rings.wrapping_add(1);
        }
        self.rung.notify_all();
    }

    /// Returns how often it was rung. A thread that reads this before it looks at a queue sleeps through no ring after
    /// the look.
    pub(crate) fn rings<R: Wait>(&self, rt: &R) -> u32 {
        *self.rings.lock(rt)
    }

    /// Waits after a look that found nothing, after `looks` such looks in a row: yields the processor at first, and
    /// later sleeps until the bell is rung once more than it was then.
    pub(crate) fn wait<R: Wait>(&self, rt: &R, looks: u32, rings: u32) {
        if looks < LOOKS {
            thread::yield_now();
            return;
        }
        drop(
            self.rung
                .wait_while(rt, self.rings.lock(rt), |now| *now == rings),
        );
    }
}

/// The bells of a round: for jobs that were published, and for results that were deposited. Both are rung at the end of
/// the jobs.
#[derive(Drop)]
pub(crate) struct Bells {
    pub jobs: Bell,
    pub results: Bell,
}

impl Bells {
    pub(crate) fn new() -> Bells {
        Bells {
            jobs: Bell::new(),
            results: Bell::new(),
        }
    }
}
