// Immediates of a word (RISC-V Unprivileged ISA 20191213, 2.3), with the sign extended to 32 bits.
ghost use Rattle.std.specs.Prelude.{◌≡◌};
ghost use Rattle.rv_step.specs.Field.{immediate_b, immediate_i, immediate_j, immediate_s, immediate_u};

#[inline(always)]
pub(crate) fn immediate_i(word: u32) -> u32
    ensures { result ≡ immediate_i word }
{
    let bits = word >> 20;
    if bits < 0x800 {
        bits
    } else {
        bits + 0xffff_f000
    }
}

#[inline(always)]
pub(crate) fn immediate_s(word: u32) -> u32
    ensures { result ≡ immediate_s word }
{
    let bits = ((word >> 25) << 5) + ((word >> 7) & 0x1f);
    if bits < 0x800 {
        bits
    } else {
        bits + 0xffff_f000
    }
}

#[inline(always)]
pub(crate) fn immediate_b(word: u32) -> u32
    ensures { result ≡ immediate_b word }
{
    let bits = ((word >> 31) << 12)
        + (((word >> 7) & 1) << 11)
        + (((word >> 25) & 0x3f) << 5)
        + (((word >> 8) & 0xf) << 1);
    if bits < 0x1000 {
        bits
    } else {
        bits + 0xffff_e000
    }
}

#[inline(always)]
pub(crate) fn immediate_u(word: u32) -> u32
    ensures { result ≡ immediate_u word }
{
    (word >> 12) << 12
}

#[inline(always)]
pub(crate) fn immediate_j(word: u32) -> u32
    ensures { result ≡ immediate_j word }
{
    let bits = ((word >> 31) << 20)
        + (((word >> 12) & 0xff) << 12)
        + (((word >> 20) & 1) << 11)
        + (((word >> 21) & 0x3ff) << 1);
    if bits < 0x10_0000 {
        bits
    } else {
        bits + 0xffe0_0000
    }
}
