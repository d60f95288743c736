// What the integer instructions compute (RISC-V Unprivileged ISA 20191213, 2.4).
ghost use Rattle.std.specs.Prelude.{◌≡◌, ◌<◌};
ghost use Rattle.rv_step.specs.Effect.{one_if, shift_of, shifted_left, shifted_right, shifted_right_arithmetic};

#[inline(always)]
pub(crate) fn one_if(holds: bool) -> u32
    ensures { result ≡ one_if holds }
{
    if holds { 1 } else { 0 }
}

/// How far a shift by a register goes.
#[inline(always)]
pub(crate) fn shift_amount(value: u32) -> u32
    ensures amount { result ≡ shift_of value }
    ensures small { result < 32 }
{
    value % 32
}

#[inline(always)]
pub(crate) fn shifted_left(value: u32, count: u32) -> u32
    requires { count < 32 }
    ensures { result ≡ shifted_left value count }
{
    value << count
}

#[inline(always)]
pub(crate) fn shifted_right(value: u32, count: u32) -> u32
    requires { count < 32 }
    ensures { result ≡ shifted_right value count }
{
    value >> count
}

#[inline(always)]
pub(crate) fn shifted_right_arithmetic(value: u32, count: u32) -> u32
    requires { count < 32 }
    ensures { result ≡ shifted_right_arithmetic value count }
{
    (value.cast_signed() >> count).cast_unsigned()
}
