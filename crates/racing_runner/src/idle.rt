// A racing run that doesn't run.
ghost use Rattle.std.specs.Prelude.{◌≡◌};

use crate::plan::Plan;
use crate::racer::{JobSink, Racer};
use dp_base::OutOfMemory;
use guest_kernel::State;
use std::alloc::Global;
use std::thread::Threads;
use supply::Supply;

/// Offers nothing.
#[derive(Clone, Copy, Debug, PartialEq, Eq)]
pub struct IdleRacer;

impl Racer for IdleRacer {
    ghost use Rattle.std.specs.Prelude.{Some, []};

    ghost tells = { λ racer start supply plan. Some [] };

    fn race<R: Threads + Sync, K: JobSink>(
        &mut self,
        _rt: &R,
        _alloc: Global,
        _start: &State,
        _supply: &Supply,
        _plan: &Plan,
        _sink: &mut K,
    ) -> Result<(), OutOfMemory> {
        Ok(())
    }
}
