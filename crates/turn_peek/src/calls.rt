//! The kernel's calls: their numbers, the registers of their number and arguments, the file descriptors that they take,
//! and the answers of those that fail.

/// The stack pointer.
pub const SP: u8 = 2;

/// The first argument, which becomes the answer.
pub const A0: u8 = 10;

/// The second argument.
pub const A1: u8 = 11;

/// The third argument.
pub const A2: u8 = 12;

/// The fourth argument.
pub const A3: u8 = 13;

/// The call's number.
pub const A7: u8 = 17;

/// The number of the call exit_thread.
pub const EXIT_THREAD: u32 = 0;

/// The number of the call exit_all.
pub const EXIT_ALL: u32 = 1;

/// The number of the call write.
pub const WRITE: u32 = 2;

/// The number of the call read.
pub const READ: u32 = 3;

/// The number of the call spawn.
pub const SPAWN: u32 = 4;

/// The number of the call futex_wait.
pub const FUTEX_WAIT: u32 = 5;

/// The number of the call futex_wake.
pub const FUTEX_WAKE: u32 = 6;

/// The number of the call yield.
pub const YIELD: u32 = 7;

/// The number of the call clock.
pub const CLOCK: u32 = 8;

/// The number of the call brk.
pub const BRK: u32 = 9;

/// The number of the call gettid.
pub const GETTID: u32 = 10;

/// The file descriptor that read takes: standard input.
pub const STANDARD_INPUT: u32 = 0;

/// The file descriptor that write takes: standard output.
pub const STANDARD_OUTPUT: u32 = 1;

/// The answer -9, bad file descriptor.
pub const EBADF: u32 = 0xffff_fff7;

/// The answer -11, try again.
pub const EAGAIN: u32 = 0xffff_fff5;

/// The answer -14, bad address.
pub const EFAULT: u32 = 0xffff_fff2;

/// The answer -22, invalid argument.
pub const EINVAL: u32 = 0xffff_ffea;

/// The answer -38, no such call.
pub const ENOSYS: u32 = 0xffff_ffda;
