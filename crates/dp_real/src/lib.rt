//! The outside as it is: a journal's file with standard output and standard error, standard input with the system's
//! clock, and files by name.
//!
//! Promises: each implementation meets its trait: a call fails only if its own count of faults rises, or is at its
//! greatest value, no count falls, and no count is changed by a call of another kind. A reader or a writer whose bytes
//! are known gives, or takes, the next of them. Nothing is known of what the system's own files, streams and clock
//! hold: what the system does is trusted, and tested. A read or a write is tried again if a signal interrupts it, until
//! `MAX_INTERRUPTS` have, and if it would block, until it doesn't. Each implementation keeps the last refusal of the
//! system. A journal's file is locked while it is attached, and a write or a sync of it fails if another program has
//! removed it or changed its length. Builds on `disk_model` for the traits.
//!
//! ```text
//! let mut files = RealFiles::new(rt);
//! let mut inlet = RealInlet::new(rt);
//! let world = RealWorld::new(rt);
//! let (_, status) = run(&rt, alloc, &words, &mut files, &mut inlet, world, IdleRacer, &OpenGate);
//! ```
#![tactic(auto)]

mod fault_count;
mod file_at;
mod journal_file;
mod real_files;
mod real_inlet;
mod real_world;
mod refusal;
mod transfer;

pub use real_files::RealFiles;
pub use real_inlet::RealInlet;
pub use real_world::RealWorld;
pub use refusal::Refusal;
pub use transfer::MAX_INTERRUPTS;

#[cfg(test)]
mod tests;
