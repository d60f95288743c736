//! The reader of ELF files: which files are guests, and what of them is in memory when a guest starts.
//!
//! Promises: `load` accepts exactly the files that no row of the table of faults applies to (`specs/Faults.antt`),
//! answers the first row that applies else, and gives the image of the file (`specs/Image.antt`), whose segments give
//! the guest's first pages. `laws` says what follows from the definitions alone. Builds on `dp_base` and on
//! `byteorder`.
//!
//! ```text
//! match load(alloc, file) {
//!     Ok(image) => ..,
//!     Err(fault) => match fault.number() {
//!         Some(number) => ..,
//!         None => ..,
//!     },
//! }
//! ```
#![tactic(auto)]

mod elf_header;
mod image;
mod image_fault;
pub mod laws;
mod little_endian;
mod loading;
mod program_header;
mod span;
mod span_pages;
mod start_pages;

pub use image::{Image, Segment, Segments};
pub use image_fault::ImageFault;
pub use loading::load;
pub use span::Span;
