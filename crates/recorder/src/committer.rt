// What takes the results of a round.
ghost use Rattle.std.specs.Prelude.{◌≡◌};
ghost use Rattle.recorder.specs.Taking.{more_after};

use crate::judged_result::commit_next;
use crate::record_fault::RecordFault;
use crate::tally::{AfterJudging, Tally};
use commit_core::Core;
use disk_model::World;
use epoch_journal::Journal;
use epoch_runner::Ran;
use epoch_stream::Taker;
use racing_runner::More;
use std::alloc::Global;

/// Judges the results of a round as they are available, and commits each epoch that is to be.
#[derive(Drop)]
pub(crate) struct Committer<W: World + Drop> {
    pub alloc: Global,
    pub world: W,
    pub journal: Journal,
    pub core: Core,
    pub tally: Tally,
    /// A mark is appended after this many epochs.
    pub every: u32,
    /// How many results it has taken.
    pub taken: u32,
    /// What became of the last one. `Committed` if there is none.
    pub last: Result<AfterJudging, RecordFault>,
}

impl<W: World + Drop> Taker for Committer<W> {
    ghost use Rattle.std.specs.Prelude.{◌≡◌, length};
    ghost use Rattle.checkpoint.specs.State.{IsEncodable};
    ghost use Rattle.recorder.specs.Keeping.{CanCommit};
    ghost use Rattle.recorder.specs.Taking.{HasTaken};

    ghost takes = { λ c ran more d. HasTaken
        (record { history = W.history c.world; disk = W.disk_faults c.world; sink = W.sink_faults c.world; core = c.core; journal = c.journal; tally = c.tally; every = c.every })
        ran more
        (record { history = W.history d.world; disk = W.disk_faults d.world; sink = W.sink_faults d.world; core = d.core; journal = d.journal; tally = d.tally; every = d.every })
        d.last };

    ghost ready = { λ c. CanCommit c.core c.journal × (length c.core.jobs ≡ c.taken) × IsEncodable c.tally.base };

    ghost expects = { λ c start. start ≡ c.core.committed };

    ghost taken = { λ c. c.taken };

    fn take(&mut self, ran: Ran) -> More {
        self.taken += 1;
        self.last = commit_next(
            self.alloc,
            &mut self.core,
            &mut self.journal,
            &mut self.world,
            &mut self.tally,
            self.every,
            self.taken,
            ran,
            false,
        );
        more_after(&self.last)
    }

    fn take_known(&mut self, ran: Ran) -> More {
        self.taken += 1;
        self.last = commit_next(
            self.alloc,
            &mut self.core,
            &mut self.journal,
            &mut self.world,
            &mut self.tally,
            self.every,
            self.taken,
            ran,
            true,
        );
        more_after(&self.last)
    }
}

// More results are taken exactly if this one was committed.
fn more_after(last: &Result<AfterJudging, RecordFault>) -> More
    ensures { result ≡ more_after last.now }
{
    match last {
        Ok(AfterJudging::Committed) => More::Yes,
        Ok(AfterJudging::Squashed) => More::Enough,
        Ok(AfterJudging::Over) => More::Enough,
        Err(_) => More::Enough,
    }
}
