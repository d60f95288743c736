// What other harts did to the accesses of one.
ghost use Rattle.dp_base.specs.Counts.{LostStore, SawBusy};
ghost use Rattle.shared_words.specs.Contended.{contention_of};

// How often an access was busy, and how often an SC was lost. Each count stops at 2^64 - 1.
#[derive(Clone, Copy)]
pub(crate) struct Counts {
    pub(crate) busy: u64,
    pub(crate) lost: u64,
}

impl Counts {
    #[cold]
    pub(crate) fn add_busy(&mut self)
        ensures { SawBusy (contention_of self.old) (contention_of self.new) }
    {
        self.busy = self.busy.saturating_add(1);
    }

    pub(crate) fn add_lost(&mut self)
        ensures { LostStore (contention_of self.old) (contention_of self.new) }
    {
        self.lost = self.lost.saturating_add(1);
    }
}
