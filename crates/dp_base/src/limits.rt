//! The limits of a recording, each with its unit.

/// Bytes of a guest's file at most.
pub const MAX_GUEST_BYTES: u32 = 1_048_576;

/// Bytes of one page of guest memory.
pub const PAGE_BYTES: u32 = 4096;

/// Pages that a guest may have mapped at once.
pub const MAX_PAGES: u32 = 1024;

/// The first page number that no guest may map: all pages lie below FFFFF000 (hexadecimal).
pub const PAGE_NUMBERS: u32 = 0xfffff;

/// Number of the first page of thread 1's stack, at 7FFF0000 (hexadecimal).
pub const FIRST_STACK_PAGE: u32 = 0x7fff0;

/// Pages of thread 1's stack.
pub const STACK_PAGES: u32 = 16;

/// The stack pointer (x2) of thread 1 at the start.
pub const STACK_POINTER: u32 = 0x7fff_ffe0;

/// Threads that a guest may make in a run, the first included.
pub const MAX_THREADS: usize = 1024;

/// Threads that may be alive at once.
pub const MAX_LIVE_THREADS: usize = 64;

/// Bytes that one read or write call moves at most.
pub const MAX_CALL_BYTES: u32 = 4096;

/// Steps of one epoch at most.
pub const MAX_EPOCH_STEPS: u32 = 1_000_000;

/// Steps of one slice at most.
pub const MAX_SLICE_STEPS: u32 = 100_000;

/// Epochs from one mark to the next at most.
pub const MAX_MARK_EPOCHS: u32 = 1000;

/// Steps of one recording at most.
pub const MAX_RECORDING_STEPS: u64 = 1_000_000_000_000;

/// An epoch ends after the step at which it has written or read this many bytes.
pub const EPOCH_END_BYTES: u32 = 65_536;

/// Bytes of a journal record's body at most.
pub const MAX_BODY_BYTES: u32 = 16_777_216;

/// Maximum length of a journal in bytes. A recorder writes no more, and a replay reads no more of a file.
pub const MAX_JOURNAL_BYTES: u64 = 1 << 30;

/// Workers of a recording or a replay at most.
pub const MAX_WORKERS: u32 = 64;

/// Jobs of one round at most.
pub const MAX_JOBS: u32 = 64;
