// Bytes of which some are replaced.
ghost use Rattle.std.specs.Prelude.{◌≡◌, IfOk};
ghost use Rattle.test_files.specs.Bytes.{replaced};

use std::alloc::{AllocError, Allocator};

/// Returns the bytes with `count` of them, from the offset `at` on, replaced by others. Nothing past the end is
/// replaced.
pub fn replaced<A: Allocator>(
    alloc: A,
    bytes: &[u8],
    at: usize,
    count: usize,
    by: &[u8],
) -> Result<Vec<u8, A>, AllocError>
    ensures { IfOk result (λ joined. joined.items ≡ replaced bytes.now at count by.now) }
{
    let (before, rest) = bytes.split_at(at.min(bytes.len()));
    let (_, behind) = rest.split_at(count.min(rest.len()));
    let mut joined = before.to_vec(alloc)?;
    joined.extend_from_slice(by)?;
    joined.extend_from_slice(behind)?;
    Ok(joined)
}
