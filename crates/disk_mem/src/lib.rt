//! The outside of a recorder and of a replayer in memory: `MemWorld` is a disk and two output streams, `MemFiles` are
//! files by name, `MemInlet` is an input in pieces, and a clock. A `HoldGate` shows whether two jobs run at once.
//!
//! Promises: a call on a `MemWorld` fails only by its number, as the `Fails` of its kind says, or with
//! `allocation_failed` true from then on. A fetch fails only by its number or at a name that no file has, or it answers
//! `OutOfMemory`. A take from a `MemInlet` fails only by its number. What each call leaves is known exactly, also if it
//! fails. A `MemWorld` keeps a record of all its calls, and its history is the replay of that record. Its `crash` gives
//! one of the images that a crash may leave now. Builds on `disk_model` for the traits that these implement, and on
//! `dp_base`.
//!
//! ```text
//! let disk = Fails::At(CallNumbers::from_vec(numbers));      // the numbers are 3
//! let mut world = MemWorld::new(alloc, disk, Fails::Never, 4096)?;
//! world.attach("journal", true)?;                            // call 1
//! let end = world.len()?;                                    // call 2
//! if world.write_at(end, record).is_err() {                  // call 3: not one byte of it is written
//!     return Ok(world.disk_fault_count());                   // 1
//! }
//! ```
#![tactic(auto)]

mod call;
mod contents;
mod counter;
mod crash;
mod fails;
mod hold_gate;
mod mem_files;
mod mem_inlet;
mod mem_world;
mod named_file;
mod pieces;

pub use call::Call;
pub use fails::{CallNumbers, Fails};
pub use hold_gate::HoldGate;
pub use mem_files::MemFiles;
pub use mem_inlet::MemInlet;
pub use mem_world::MemWorld;
pub use named_file::NamedFile;
