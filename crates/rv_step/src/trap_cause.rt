// The causes of traps, with the numbers of the RISC-V privileged architecture. There a denied access is an access
// fault.

/// The cause of the trap at a pc that isn't a multiple of 4.
pub const INSTRUCTION_MISALIGNED: u8 = 0;

/// The cause of the trap at a pc whose word may not be executed.
pub const INSTRUCTION_DENIED: u8 = 1;

pub(crate) const ILLEGAL_INSTRUCTION: u8 = 2;

pub(crate) const BREAKPOINT: u8 = 3;

pub(crate) const LOAD_MISALIGNED: u8 = 4;

pub(crate) const LOAD_DENIED: u8 = 5;

pub(crate) const STORE_MISALIGNED: u8 = 6;

pub(crate) const STORE_DENIED: u8 = 7;
