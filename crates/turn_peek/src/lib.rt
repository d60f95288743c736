//! What a hart's next turn is, seen before it is taken: an instruction that its thread does by itself, one that other
//! threads may wait for, or a call that takes an answer from outside.
//!
//! Promises: `peek_thread` returns what the next turn of a thread is, by its memory and by how much of the input the
//! guest has read (`specs/Peek.antt`), and changes nothing; `read_at_once` returns the answer of a read that takes no
//! input (`specs/ReadCall.antt`); `is_plain` returns by the word at pc whether a turn is plain if the hart goes on.
//! `laws` says what follows from the definitions alone. Builds on `dp_base`, on `cow_pages` for `Pages`, on `rv_step`
//! for the instructions, and on `guest_state` for harts and threads.
//!
//! ```text
//! match peek_thread(&thread, &pages, input) {
//!     Peek::NotRunnable => ..,
//!     Peek::Plain => ..,
//!     Peek::Sync | Peek::Sc => ..,
//!     Peek::Read { place, max } => ..,
//!     Peek::Clock => ..,
//! }
//! ```
#![tactic(auto)]

pub mod calls;
pub mod laws;
mod peek;
mod plain_word;
mod read_call;

pub use peek::{Peek, peek_thread};
pub use plain_word::is_plain;
pub use read_call::read_at_once;
