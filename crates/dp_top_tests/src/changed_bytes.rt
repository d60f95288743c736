// Bytes of journals, with some of them replaced.
use std::alloc::Global;
use std::test::Fail;
use test_files::replaced;

/// The bytes after these replacements, one after the other.
pub(crate) fn all_replaced(
    alloc: Global,
    bytes: &[u8],
    replacements: &[(usize, usize, &[u8])],
) -> Result<Vec<u8>, Fail> {
    let mut changed = bytes.to_vec(alloc)?;
    for (at, count, by) in replacements {
        changed = replaced(alloc, &changed, *at, *count, by)?;
    }
    Ok(changed)
}
