/// The outcome of a step of a hart. After all but `Went` the hart is unchanged, and so is a memory whose pages are
/// known.
#[derive(Clone, Copy, Debug, PartialEq, Eq)]
pub enum Stepped {
    /// The instruction is done.
    Went,
    /// The hart is at an environment call, which the kernel does.
    Ecall,
    /// The hart is at a trap.
    Trap { cause: u8, value: u32 },
    /// Other harts were in the way of an access.
    Busy,
}
