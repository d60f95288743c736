// When a stretch races.

// How many steps in a row two stretches that race are apart at least and at most, after one that didn't pay.
const LEAST_REST: u32 = 2;

const MOST_REST: u32 = 32;

// How many steps a pass has to take so that it pays: for its threads, for each page of the guest, and for each block of
// words that is copied back to its page.
const PASS_STEPS: u64 = 30_000;

const PAGE_STEPS: u64 = 50;

const BLOCK_STEPS: u64 = 50;

// How many steps a pass costs for a guest with this many pages, if as many blocks are stored to as in the last pass.
pub(crate) fn cost_of_pass(pages: u32, blocks: u32) -> u64 {
    PASS_STEPS + PAGE_STEPS * u64::from(pages) + BLOCK_STEPS * u64::from(blocks)
}

// An epoch with fewer steps is short. Who asks for such epochs wants to see a race, and not speed.
const SHORT_EPOCH: u64 = 4096;

// How many stretches go by before the first that races, if their epochs are neither short nor worth a pass. Making the
// words costs as much as many thousand steps, so a guest that ends soon never waits for it.
const FIRST_LOOK: u32 = 16;

// Which stretches race. The first one does, if its epoch is short or worth a pass, and else the seventeenth. After a
// stretch that didn't pay the next ones don't race: 2, then 4, and so on up to 32. So it is after a round of which a job
// was squashed: what racing gained there was lost.
#[derive(Clone, Copy)]
pub(crate) struct Pace {
    // Whether no stretch has raced.
    is_new: bool,
    // How many stretches didn't race before the first that does.
    passed: u32,
    rest: u32,
    next_rest: u32,
    // Whether a stretch of this round has raced.
    has_raced: bool,
    // Whether a job was squashed, and no round that raced has been kept since. A stretch that pays doesn't shorten the
    // rests then.
    is_doubtful: bool,
}

impl Pace {
    pub(crate) fn new() -> Pace {
        Pace {
            is_new: true,
            passed: 0,
            rest: 0,
            next_rest: LEAST_REST,
            has_raced: false,
            is_doubtful: false,
        }
    }

    // Begins a round. Takes note of whether a job of the one before was squashed.
    pub(crate) fn begin_round(&mut self, was_squashed: bool) {
        if was_squashed {
            self.is_doubtful = true;
            self.put_off();
        } else if self.has_raced {
            self.is_doubtful = false;
        }
        self.has_raced = false;
    }

    // Whether a stretch races that may have `steps` steps, if a pass costs `cost`.
    pub(crate) fn races(&mut self, steps: u64, cost: u64) -> bool {
        if self.is_new {
            if steps >= SHORT_EPOCH && steps < cost && self.passed < FIRST_LOOK {
                self.passed += 1;
                return false;
            }
            self.is_new = false;
            return true;
        }
        if steps < cost {
            return false;
        }
        if self.rest > 0 {
            self.rest -= 1;
            return false;
        }
        true
    }

    // Takes note of whether a race has paid.
    pub(crate) fn raced(&mut self, paid: bool) {
        self.has_raced = true;
        if !paid {
            self.put_off();
        } else if !self.is_doubtful {
            self.next_rest = LEAST_REST;
        }
    }

    fn put_off(&mut self) {
        self.rest = self.next_rest;
        self.next_rest = self.next_rest.saturating_mul(2).min(MOST_REST);
    }
}
