// How far a stretch is.
use dp_base::limits::EPOCH_END_BYTES;
use guest_kernel::State;
use std::alloc::Global;

// How far a stretch is, and where it ends.
#[derive(Drop)]
pub(crate) struct Course {
    // The next ticket.
    pub(crate) tickets: u64,
    // What the guest has written in the stretch.
    pub(crate) out: Vec<u8>,
    // How many bytes of input the guest had read before.
    input: u64,
    // How many steps the guest has taken once the stretch is over.
    until: u64,
}

impl Course {
    pub(crate) fn new(alloc: Global, state: &State, steps: u32) -> Course {
        Course {
            tickets: 0,
            out: Vec::new(alloc),
            input: state.input,
            until: state.steps.saturating_add(u64::from(steps)),
        }
    }

    // How many steps are left. None are if the guest has ended, or has written or read as much as an epoch may.
    pub(crate) fn left(&self, state: &State) -> u64 {
        if state.ended() || self.is_long(state) {
            return 0;
        }
        self.until.saturating_sub(state.steps)
    }

    // Whether an epoch ends here: it has all its steps, or has written or read as much as an epoch may.
    pub(crate) fn is_whole(&self, state: &State) -> bool {
        state.steps >= self.until || self.is_long(state)
    }

    fn is_long(&self, state: &State) -> bool {
        let most = u64::from(EPOCH_END_BYTES);
        self.out.len() as u64 >= most || state.input.saturating_sub(self.input) >= most
    }
}
