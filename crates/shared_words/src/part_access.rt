// Accesses to part of a word, or to parts of two.
ghost use Rattle.std.specs.Prelude.{◌<◌};

use crate::naming::Naming;
use crate::racing_seat::RacingSeat;
use dp_base::Width;

// The bits of the low bytes of an access.
#[inline(always)]
pub(crate) fn mask_of(width: Width) -> u64 {
    match width {
        Width::One => 0xff,
        Width::Two => 0xffff,
        Width::Four => 0xffff_ffff,
    }
}

#[inline(always)]
pub(crate) fn low_word(value: u64) -> u32 {
    (value & 0xffff_ffff) as u32
}

#[inline(always)]
fn high_word(value: u64) -> u32 {
    (value >> 32 & 0xffff_ffff) as u32
}

// The address of the word after the one that holds an address.
#[inline(always)]
fn next_word(address: u32) -> Option<u32> {
    (address & 0xffff_fffc).checked_add(4)
}

// Loads bytes whose pages have the flag, a word after the other. Returns `None` if one hasn't.
pub(crate) fn load_part<J: Naming>(
    seat: &mut RacingSeat<'_, J>,
    flag: u8,
    address: u32,
    width: Width,
) -> Option<u32>
    requires { 0 < flag }
{
    let mask = mask_of(width);
    let shift = 8 * (address % 4);
    let first = seat.index_with(flag, address)?;
    let low = u64::from(seat.load(first));
    if mask << shift <= 0xffff_ffff {
        return Some(low_word(low >> shift & mask));
    }
    let second = seat.index_with(flag, next_word(address)?)?;
    let high = u64::from(seat.load(second));
    Some(low_word((high << 32 | low) >> shift & mask))
}

// Stores bytes whose pages have the flag, a word after the other. Returns `None` if one hasn't, and otherwise whether
// all are stored. If the second word is contended, the first one has been stored to. The hart does the same store
// again.
pub(crate) fn store_part<J: Naming>(
    seat: &mut RacingSeat<'_, J>,
    flag: u8,
    address: u32,
    width: Width,
    value: u32,
) -> Option<bool>
    requires { 0 < flag }
{
    let shift = 8 * (address % 4);
    let mask = mask_of(width) << shift;
    let bits = (u64::from(value) & mask_of(width)) << shift;
    let first = seat.index_with(flag, address)?;
    if mask <= 0xffff_ffff {
        return Some(seat.change_bits(first, low_word(mask), low_word(bits)));
    }
    let second = seat.index_with(flag, next_word(address)?)?;
    if !seat.change_bits(first, low_word(mask), low_word(bits)) {
        return Some(false);
    }
    Some(seat.change_bits(second, high_word(mask), high_word(bits)))
}
