//! What the program says of itself: the line of a report, the line and the number of each status.
//!
//! Promises: each line is, byte for byte, the one in the tables of `specs/Texts.antt`. A status's line is emitted
//! without taking memory, so that `OutOfMemory` can be reported too, and after a failed emit a prefix of it was sent
//! and nothing else. Builds on `device` for what is sent, on `guest_state` for how a guest ended, on `dp_base` and
//! `disk_model`, and on `itoa` and `hex` for digits.
//!
//! ```text
//! let text = line(alloc, &report)?;                 // epochs 9 squashes 0 steps 9 sent 3 end exit 0 state 5e7e..
//! send_all(&mut world, Stream::Note, &text)?;
//! emit_fault(&mut world, &status)?;                 // dpcli: journal device failed
//! ExitCode::from(status.number())
//! ```
#![tactic(auto)]

mod fault_line;
mod output_fault;
mod report;
mod report_line;
mod status;

pub use fault_line::emit_fault;
pub use output_fault::OutputFault;
pub use report::Report;
pub use report_line::line;
pub use status::Status;
