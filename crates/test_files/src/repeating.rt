// Bytes that repeat.
ghost use Rattle.std.specs.Prelude.{◌≡◌, IfOk};
ghost use Rattle.test_files.specs.Bytes.{repeated};

use std::alloc::{AllocError, Allocator};

/// After how many bytes they repeat: a prime, so that no page and no piece of a power of two bytes begins like the one
/// before.
pub const PERIOD: u32 = 251;

/// Returns `count` bytes from 0 on, which rise to 250 and begin again.
#[tactic(auto, unfolding(crate::specs::Bytes::repeated))]
pub fn repeated<A: Allocator>(alloc: A, count: u32) -> Result<Vec<u8, A>, AllocError>
    ensures { IfOk result (λ bytes. bytes.items ≡ repeated count) }
{
    let mut bytes = Vec::new(alloc);
    for number in 0..count {
        bytes.push((number % PERIOD) as u8)?;
    }
    Ok(bytes)
}
