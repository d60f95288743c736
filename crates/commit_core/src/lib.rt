//! Judges the results of a round in order: which epochs are committed, and where the round ends.
//!
//! Promises: each event of a job is noted once, and only after the one before it. Results are judged in the order of
//! their numbers, each once it was taken. An epoch is committed exactly if it starts in the committed state, and its
//! end is the committed state then. A result that starts elsewhere closes the round, and so does one that is idle. A
//! refused event changes nothing, and no event takes memory (`specs/Judging.antt`). `laws` says what that means for
//! whole rounds (`specs/JudgedRound.antt`). Builds on `epoch_runner` for the results and on `state_compare` for the
//! comparison.
//!
//! ```text
//! let mut core = Core::round(alloc, committed, jobs)?;
//! core.apply(Event::Offer(1));
//! core.apply(Event::Claim(1));
//! core.apply(Event::Done(1));
//! core.apply(Event::Take(1, ran));
//! match core.apply(Event::Judge) {
//!     Verdict::Commit { epoch, out } => ..,
//!     _ => ..,
//! }
//! ```
#![tactic(auto)]

mod event;
mod judging;
pub mod laws;
mod stage;
mod verdict;

pub use event::Event;
pub use judging::Core;
pub use stage::Stage;
pub use verdict::Verdict;
