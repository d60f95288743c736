// A gate that shows whether a result is taken while a later job is held.
use disk_model::Gate;
use std::sync::atomic::{AtomicBool, AtomicU32, Ordering};
use std::thread;

// How often the worker of the job yields at most.
const MOST_YIELDS: u32 = 1_000_000;

/// Holds job 2 until a result was taken, for at most 1,000,000 yields.
#[derive(Drop)]
pub(crate) struct Holding<'a> {
    seen: &'a AtomicU32,
    ran_out: AtomicBool,
}

impl<'a> Holding<'a> {
    pub(crate) fn new(seen: &'a AtomicU32) -> Holding<'a> {
        Holding {
            seen,
            ran_out: AtomicBool::new(false),
        }
    }

    /// Returns whether job 2 was let through although no result was taken.
    pub(crate) fn ran_out(&self) -> bool {
        self.ran_out.load(Ordering::SeqCst)
    }
}

impl<'a> Gate for Holding<'a> {
    fn pass(&self, _worker: u32, job: u32) {
        if job != 2 {
            return;
        }
        for _ in 0..MOST_YIELDS {
            if self.seen.load(Ordering::SeqCst) > 0 {
                return;
            }
            thread::yield_now();
        }
        self.ran_out.store(true, Ordering::SeqCst);
    }
}
