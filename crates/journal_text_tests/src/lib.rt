//! Bytes of a journal: fields, epochs, records and headers, and the lists that an epoch is read into; and what the
//! definitions say of bytes, files and limits that stand here in full.
//!
//! This crate is its tests: they call `dp_base`, `slice_log`, `syscall_log`, `epoch_record` and `journal_text` as a
//! crate above them does. The bytes were written out from the format's tables.
#![tactic(auto)]

#[cfg(test)]
mod encoding_tests;
#[cfg(test)]
mod epoch_body_tests;
#[cfg(test)]
mod epoch_tests;
#[cfg(test)]
mod field_tests;
#[cfg(test)]
mod limit_tests;
#[cfg(test)]
mod log_tests;
#[cfg(test)]
mod record_tests;
#[cfg(test)]
mod worked_bytes;
#[cfg(test)]
mod worked_journals;
#[cfg(test)]
mod worked_limits;
