//! What a round has of the input: a window of it, and one reading of the clock.
//!
//! Promises: a `Supply` holds one window of at most its capacity, in a buffer that is made once. Each refill takes the
//! bytes right after those of the window before, so that the windows, joined, are what the input gave, in whatever
//! pieces it is read (`the_windows_are_the_input`). An answer is a part of the window, exactly as `answer_at` of
//! `specs/Supplied.antt` says, and what the input has at that offset (`an_answer_is_of_the_input`). Builds on
//! `disk_model` for the input.
//!
//! ```text
//! let mut supply = Supply::new(alloc, 65_536)?;
//! supply.refill(&mut inlet)?;
//! supply.set_stamp(inlet.clock());
//! match supply.answer(place, 4096) {
//!     Some(bytes) => ..      // no byte is the end of the input
//!     None => ..             // this place isn't known yet
//! }
//! ```
#![tactic(auto)]

mod laws;
mod supply;

pub use laws::{an_answer_is_of_the_input, an_answer_is_of_the_window, the_windows_are_the_input};
pub use supply::{InputFault, Supply};

/// How many bytes a window has at most.
pub const MAX_ROOM: u32 = 65_536;
