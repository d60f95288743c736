// What an access to memory asks for, and its outcome.
ghost use Rattle.std.specs.Prelude.{◌≡◌};
ghost use Rattle.dp_base.specs.Memory.{amo_result};

use crate::is_below_signed;

/// How many bytes a load or a store has.
#[derive(Clone, Copy, Debug, PartialEq, Eq)]
pub enum Width {
    One,
    Two,
    Four,
}

/// What an access to memory came to.
#[derive(Clone, Copy, Debug, PartialEq, Eq, Drop)]
pub enum Access<T> {
    Done(T),
    /// Some byte lies on no page, or on a page without the flag.
    Denied,
    /// Other harts were in the way of the access.
    Busy,
}

/// What an AMO makes of the old word and its operand (RISC-V Unprivileged ISA 20191213, 8.4). `Min` and `Max` compare
/// signed words, `MinU` and `MaxU` unsigned ones.
#[derive(Clone, Copy, Debug, PartialEq, Eq)]
pub enum AmoOp {
    Swap,
    Add,
    Xor,
    And,
    Or,
    Min,
    Max,
    MinU,
    MaxU,
}

impl AmoOp {
    /// Returns the word that an AMO stores if it found this old word.
    #[inline(always)]
    pub fn result(self, old: u32, value: u32) -> u32
        ensures { result ≡ amo_result self old value }
    {
        match self {
            AmoOp::Swap => value,
            AmoOp::Add => old.wrapping_add(value),
            AmoOp::Xor => old ^ value,
            AmoOp::And => old & value,
            AmoOp::Or => old | value,
            AmoOp::Min if is_below_signed(old, value) => old,
            AmoOp::Min => value,
            AmoOp::Max if is_below_signed(old, value) => value,
            AmoOp::Max => old,
            AmoOp::MinU => old.min(value),
            AmoOp::MaxU => old.max(value),
        }
    }
}
