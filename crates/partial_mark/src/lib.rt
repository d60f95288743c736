//! The body of a partial mark, as data: a guest between two slices without the bytes of those pages that are the same
//! in its base, which is the state of the mark before, or the one in which the guest starts.
//!
//! Promises: a partial mark has one encoding, and no encoding is a prefix of another; each reader takes exactly what
//! the grammar accepts (`specs/Partial.antt`). The partial mark that is written of a state, applied to the same base,
//! is that state again (`specs/Base.antt`, `laws`). Builds on `guest_state`, whose checkpoints have the same fields,
//! threads and bounds.
//!
//! ```text
//! if is_partial(body) {
//!     let (page, rest) = read_partial_page(pages)?;
//!     match page.content {
//!         Some(bytes) => ..,
//!         None => ..,
//!     }
//! }
//! ```
#![tactic(auto)]

mod fields;
pub mod laws;
mod page;
mod partial_check;

pub use dp_base::journal_writer::PARTIAL_KIND;
pub use fields::{Fields, read_fields};
pub use page::{PartialPageView, read_partial_page};
pub use partial_check::{is_partial, skip_partial};
