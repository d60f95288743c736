//! Racing runs: runs of a guest ahead of its recording. They offer states in which later epochs may start, and hints of
//! the epochs in between, and nothing they offer is trusted.
//!
//! Promises: `race` offers to a sink until all is offered, the sink takes no more, or memory runs out. All that a racer
//! offers from a start with a supply by a plan may be known beforehand (`specs/Offers.antt`). Then `race` leaves the
//! racer as it was, the sink gets the first of the list in order, and `Ok` is answered only after the whole list or an
//! `Enough`. `IdleRacer` is known to offer nothing. `ChaosRacer` is known to offer what `specs/Chaos.antt` says: a run
//! by the epoch runner's round robin, in stretches of an epoch, with what each turn was (`specs/Racing.antt`), and one
//! state spoilt. `WildRacer` has a list of offers, which it makes whatever the guest does, each once, over all its
//! rounds. `offers_of` gathers the offers of a round. Builds on `epoch_runner` for the schedule, on `guest_kernel` for
//! states, on `supply` for the input and the clock, and on `sync_hints` for the hints.
//!
//! ```text
//! let mut racer = ChaosRacer::new(0);
//! for offer in offers_of(&rt, alloc, &mut racer, &state, &supply, &plan)? {
//!     .. offer.hints, offer.next ..
//! }
//! ```
#![tactic(auto)]

mod chaos;
mod flipped_state;
mod gathered_offers;
mod idle;
mod noted_epoch;
mod offer;
mod plan;
mod racer;
mod wild;

pub use chaos::ChaosRacer;
pub use gathered_offers::{Gather, offers_of};
pub use idle::IdleRacer;
pub use offer::{More, Offer};
pub use plan::Plan;
pub use racer::{JobSink, Racer};
pub use wild::WildRacer;
