// A gate that counts what passes.
use disk_model::Gate;
use std::sync::atomic::{AtomicU32, Ordering};

// Holds nobody, and counts the jobs that pass. Each round has one job with the number 1.
#[derive(Drop)]
pub(crate) struct CountGate {
    rounds: AtomicU32,
    jobs: AtomicU32,
}

impl CountGate {
    pub(crate) fn new() -> CountGate {
        CountGate {
            rounds: AtomicU32::new(0),
            jobs: AtomicU32::new(0),
        }
    }

    pub(crate) fn rounds(&self) -> u32 {
        self.rounds.load(Ordering::SeqCst)
    }

    pub(crate) fn jobs(&self) -> u32 {
        self.jobs.load(Ordering::SeqCst)
    }
}

impl Gate for CountGate {
    fn pass(&self, _worker: u32, job: u32) {
        if job == 1 {
            self.rounds.fetch_add(1, Ordering::SeqCst);
        }
        self.jobs.fetch_add(1, Ordering::SeqCst);
    }
}
