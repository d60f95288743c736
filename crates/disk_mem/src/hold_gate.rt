// A gate that shows whether two jobs run at once.
use disk_model::Gate;
use std::sync::atomic::{AtomicBool, Ordering};
use std::thread;

// How often the worker of job 1 yields at most.
const MOST_YIELDS: u32 = 1_000_000;

/// Holds job 1 until job 2 has passed, for at most 1,000,000 yields.
#[derive(Drop)]
pub struct HoldGate {
    passed: AtomicBool,
    ran_out: AtomicBool,
}

impl HoldGate {
    /// Makes a gate that no job has passed.
    pub fn new() -> HoldGate {
        HoldGate {
            passed: AtomicBool::new(false),
            ran_out: AtomicBool::new(false),
        }
    }

    /// Returns whether job 1 passed although job 2 hadn't.
    pub fn ran_out(&self) -> bool {
        self.ran_out.load(Ordering::SeqCst)
    }
}

impl Gate for HoldGate {
    fn pass(&self, _worker: u32, job: u32) {
        if job == 2 {
            self.passed.store(true, Ordering::SeqCst);
        }
        if job != 1 {
            return;
        }
        for _ in 0..MOST_YIELDS {
            if self.passed.load(Ordering::SeqCst) {
                return;
            }
            thread::yield_now();
        }
        self.ran_out.store(true, Ordering::SeqCst);
    }
}
