//! A journal on a disk: begun, appended to record by record, and read whole.
//!
//! Promises: what was acknowledged is on the disk for good, byte for byte as `journal_text` has a journal with these
//! records. A crash at any moment of an append leaves a disk that reads as the journal before it or as the one after
//! it, and a crash at any moment of a begin one that reads as no journal or as the one begun (`specs/Images.antt`). A
//! journal that has reached its maximum length, or whose device has failed, takes nothing more, and reports it with its
//! numbers. An append takes no memory, since it has no allocator. Builds on `device`, `disk_model` and `journal_text`.
//!
//! ```text
//! let mut journal = Journal::begin(alloc, &mut world, guest, room)?;
//! journal.append(&mut world, &frame)?;
//! let bytes = read_whole(alloc, &mut world)?;
//! ```
#![tactic(auto)]

mod append;
mod begin;
mod journal;
pub mod laws;
mod reading;

pub use append::AppendFault;
pub use begin::BeginFault;
pub use journal::Journal;
pub use reading::{ReadFault, read_whole};
