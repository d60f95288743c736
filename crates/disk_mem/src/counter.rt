// Counts of calls of one kind.
ghost use Rattle.std.specs.Prelude.{◌≡◌, ◌≤◌, not};
ghost use Rattle.dp_base.specs.Counts.{Rose};
ghost use Rattle.disk_mem.specs.Fails.{fails_at};
ghost use Rattle.disk_mem.specs.Counted.{counted_up};

use crate::Fails;

/// Which calls of a kind fail, how many there were, and how many of them failed. Counts stop at 2^64 - 1.
#[derive(Drop)]
pub(crate) struct Counter {
    pub fails: Fails,
    pub calls: u64,
    pub faults: u64,
}

impl Counter {
    /// Makes a counter before the first call.
    pub(crate) fn new(fails: Fails) -> Counter
        ensures { result ≡ record { fails = fails; calls = 0; faults = 0 } }
    {
        Counter {
            fails,
            calls: 0,
            faults: 0,
        }
    }

    /// Counts a call. Returns `false` if it is to fail by its number.
    pub(crate) fn count_call(&mut self) -> bool
        ensures answer { result ≡ not (fails_at self.old.fails (counted_up self.old.calls)) }
        ensures after { self.new ≡ record self.old { calls = counted_up self.old.calls } }
    {
        self.calls = self.calls.saturating_add(1);
        !self.fails.fails_at(self.calls)
    }

    /// Counts a fault.
    pub(crate) fn count_fault(&mut self)
        ensures after { self.new ≡ record self.old { faults = counted_up self.old.faults } }
        ensures cause { Rose self.old.faults self.new.faults }
        ensures count { self.old.faults ≤ self.new.faults }
    {
        self.faults = self.faults.saturating_add(1);
    }
}
