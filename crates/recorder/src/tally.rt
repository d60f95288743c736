// What was committed so far.
ghost use Rattle.std.specs.Prelude.{◌≡◌, ◌<◌, ◌+◌, ◌^◌};
ghost use Rattle.std.specs.List.{AllByRecursion};
ghost use Rattle.recorder.specs.Recording.{thread_after};

use dp_base::Slice;
use guest_kernel::State;

/// What was committed so far: the number of epochs, of those since the last mark, and the bytes of output that were
/// sent; the thread that is tried first in the next epoch; and the state of the last mark, or the start, which is the
/// base of the next mark.
#[derive(Drop)]
pub(crate) struct Tally {
    pub first: u16,
    pub epochs: u32,
    pub since: u32,
    pub sent: u64,
    pub base: State,
}

/// What became of the next result of a round.
#[derive(Clone, Copy)]
pub(crate) enum AfterJudging {
    /// It was committed. More may follow.
    Committed,
    /// It was squashed, and the round is over.
    Squashed,
    /// There was nothing to commit, and the round is over.
    Over,
}

impl Tally {
    // Counts an epoch that was committed. What a recording counts is far below these limits.
    pub(crate) fn count(&mut self, slices: &[Slice], sent: u64)
        ensures first { AllByRecursion (λ x. x.tid.0 < 65535) slices.now → self.new.first ≡ thread_after self.old.first slices.now }
        ensures epochs { self.old.epochs + 1 < 2 ^ 32 → self.new.epochs ≡ self.old.epochs + 1 }
        ensures since { self.old.since + 1 < 2 ^ 32 → self.new.since ≡ self.old.since + 1 }
        ensures sent { self.old.sent + sent < 2 ^ 64 → self.new.sent ≡ self.old.sent + sent }
        ensures base { self.new.base ≡ self.old.base }
    {
        self.first = next_first(self.first, slices);
        self.epochs = self.epochs.saturating_add(1);
        self.since = self.since.saturating_add(1);
        self.sent = self.sent.saturating_add(sent);
    }
}

// The thread that is first after these slices: one more than that of the last of them.
fn next_first(first: u16, slices: &[Slice]) -> u16
    ensures { AllByRecursion (λ x. x.tid.0 < 65535) slices.now → result ≡ thread_after first slices.now }
{
    let mut next = first;
    for slice in slices {
        next = slice.tid.0.saturating_add(1);
    }
    next
}
