// What a racing run offers.
use guest_kernel::State;
use sync_hints::Hints;

/// The hints of the epoch that ends here, and the state in which the next one starts.
#[derive(Drop)]
pub struct Offer {
    pub hints: Hints,
    pub next: State,
}

/// Whether more offers are taken.
#[derive(Clone, Copy, Debug, PartialEq, Eq)]
pub enum More {
    Yes,
    Enough,
}
