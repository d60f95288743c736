// A racer that doesn't know the recording's limit.
use dp_base::OutOfMemory;
use guest_kernel::State;
use racing_runner::{ChaosRacer, JobSink, Plan, Racer};
use std::alloc::Global;
use std::thread::Threads;
use supply::Supply;

// Offers what `ChaosRacer` offers if 1,000 steps are left.
#[derive(Clone, Copy)]
pub(crate) struct Reckless {
    pub(crate) racer: ChaosRacer,
}

impl Racer for Reckless {
    ghost use Rattle.std.specs.Prelude.{None};

    ghost tells = { λ racer start supply plan. None };

    fn race<R: Threads + Sync, K: JobSink>(
        &mut self,
        rt: &R,
        alloc: Global,
        start: &State,
        supply: &Supply,
        plan: &Plan,
        sink: &mut K,
    ) -> Result<(), OutOfMemory> {
        if start.steps > 1000 {
            return Ok(());
        }
        let further = Plan {
            epoch: plan.epoch,
            slice: plan.slice,
            jobs: plan.jobs,
            left: 1000,
            first: plan.first,
        };
        self.racer.race(rt, alloc, start, supply, &further, sink)
    }
}
