//! Made guests: for each number a program of one to eight threads that share a counter under a lock, as the bytes of
//! its ELF file.
//!
//! Promises: `make` gives the file that `specs/Guest.antt` defines, so the same number gives the same bytes, and the
//! reader of guests' files accepts it (`elf_image`). What the program prints is shown by tests alone. Builds on
//! `elf_image` and `rv_step` for their definitions, on `dp_base` and on `byteorder`.
//!
//! ```text
//! let file = make(alloc, 23)?;
//! // 8 threads that add 1 to the counter 3 times each: it prints 00000018
//! ```
#![tactic(auto)]

mod elf_file;
mod encoding;
mod instruction;
mod listing;
mod register;

pub use elf_file::make;
