// Files of words, against the same files by hand.
use super::{EXITS, EXITS_WORDS, WRITES, WRITES_WORDS, file_of};
use std::test::Fail;

#[test]
fn files_of_words(rt: HostRuntime) -> Result<(), Fail> {
    let alloc = rt.alloc();
    assert!(rt; file_of(alloc, &EXITS_WORDS)?.as_slice() == &EXITS[..]);
    assert!(rt; file_of(alloc, &WRITES_WORDS)?.as_slice() == &WRITES[..]);
    Ok(())
}
