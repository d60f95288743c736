//! The instructions of RV32I and of the A extension (RISC-V Unprivileged ISA 20191213), one step of a hart at a time.
//!
//! Promises: `decode` gives the instruction that a word encodes, and `None` exactly if it is illegal
//! (`specs/Decoding.antt`); over a memory whose pages are known `exec` does what the instruction at pc does, or answers
//! the first trap that applies (`specs/Execution.antt`, `specs/Step.antt`). `exec_word` does what a word's instruction
//! does, for a caller that has fetched the word. After `Ecall`, `Trap`, `Busy` and an `Err` the hart is as it was, and
//! so is a memory whose pages are known. Over any memory a step is busy if an access was, and an SC whose store the
//! memory has lost says so in its register (`specs/Contention.antt`). `laws` says what follows from the definitions
//! alone. Builds on `dp_base` for `Mem`, on `guest_state` for `Hart`, and in its proofs on `byteorder`.
//!
//! ```text
//! match exec(&mut hart, &mut memory)? {
//!     Stepped::Went => ..,
//!     Stepped::Ecall => ..,
//!     Stepped::Trap { cause, value } => ..,
//!     Stepped::Busy => ..,
//! }
//! ```
#![tactic(auto)]

mod atomic;
mod decoding;
mod execution;
mod immediate;
mod instr;
mod jump_branch;
pub mod laws;
mod load_store;
mod shifts;
mod step;
mod stepped;
mod trap_cause;

pub use decoding::decode;
pub use dp_base::is_below_signed;
pub use instr::Instr;
pub use jump_branch::address;
pub use step::{exec, exec_word};
pub use stepped::Stepped;
pub use trap_cause::{INSTRUCTION_DENIED, INSTRUCTION_MISALIGNED};
