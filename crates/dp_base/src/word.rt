// Words as signed numbers.
ghost use Rattle.std.specs.Prelude.{◌≡◌, ◌<◌};
ghost use Rattle.dp_base.specs.Memory.{is_below_signed};

/// Returns whether a word is below another, both taken as signed.
#[inline(always)]
pub fn is_below_signed(a: u32, b: u32) -> bool
    ensures { result ≡ is_below_signed a b }
{
    a.cast_signed() < b.cast_signed()
}
