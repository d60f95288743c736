// Equality of bytes, 64 at a time.
ghost use Rattle.std.specs.Prelude.{◌≡◌, ◌↔◌, ◌+◌, ◌≤◌, IsTrue, drop, length};
ghost use Rattle.std.specs.Simd.Lanes.{chunk};

use std::simd::prelude::*;

// How many bytes are compared at a time.
const BLOCK_BYTES: usize = 64;

/// Returns whether two slices are the same. Slices of different lengths aren't.
pub fn equal_bytes(left: &[u8], right: &[u8]) -> bool
    ensures { IsTrue result ↔ (left.now ≡ right.now) }
{
    if left.len() != right.len() {
        return false;
    }
    let mut at = 0;
    'parts: while left.len() - at >= BLOCK_BYTES {
        if !equal_block(left, right, at) {
            return false;
        }
        at += BLOCK_BYTES;
    }
    equal_tail(left, right, at)
}

// Whether the blocks from an index on are the same.
#[inline(always)]
fn equal_block(left: &[u8], right: &[u8], at: usize) -> bool
    requires left { at + BLOCK_BYTES ≤ length left.now }
    requires right { at + BLOCK_BYTES ≤ length right.now }
    ensures { IsTrue result ↔ (chunk at BLOCK_BYTES left.now ≡ chunk at BLOCK_BYTES right.now) }
{
    equal_lanes(
        u8x64::from_slice(&left[at..]),
        u8x64::from_slice(&right[at..]),
    )
}

#[inline(always)]
fn equal_lanes(left: u8x64, right: u8x64) -> bool
    requires left { length left ≡ BLOCK_BYTES }
    requires right { length right ≡ BLOCK_BYTES }
    ensures { IsTrue result ↔ (left ≡ right) }
{
    left.simd_ne(right).to_bitmask() == 0
}

// Whether the bytes from an index on are the same, one by one.
fn equal_tail(left: &[u8], right: &[u8], at: usize) -> bool
    requires left { at ≤ length left.now }
    requires same { length left.now ≡ length right.now }
    ensures { IsTrue result ↔ (drop at left.now ≡ drop at right.now) }
{
    let mut index = at;
    'bytes: while index < left.len() {
        if left[index] != right[index] {
            return false;
        }
        index += 1;
    }
    true
}
