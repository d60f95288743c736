// Bytes replaced, and bytes that repeat.
use super::{repeated, replaced};
use std::alloc::{AllocError, Global};
use std::test::Fail;

fn is_replaced(
    alloc: Global,
    at: usize,
    count: usize,
    by: &[u8],
    wanted: &[u8],
) -> Result<bool, AllocError> {
    Ok(replaced(alloc, b"abcde", at, count, by)?.as_slice() == wanted)
}

#[test]
fn bytes_replaced(rt: HostRuntime) -> Result<(), Fail> {
    // the place, how many are replaced, by what, and what comes of `abcde`
    let cases: [(usize, usize, &[u8], &[u8]); 9] = [
        (0, 0, b"", b"abcde"),
        (0, 0, b"x", b"xabcde"),
        (0, 1, b"xy", b"xybcde"),
        (2, 2, b"xy", b"abxye"),
        (4, 1, b"", b"abcd"),
        (5, 0, b"x", b"abcdex"),
        (4, 9, b"x", b"abcdx"),
        (9, 1, b"x", b"abcdex"),
        (0, usize::MAX, b"", b""),
    ];
    for (at, count, by, wanted) in cases {
        assert!(rt;
            is_replaced(rt.alloc(), at, count, by, wanted)?,
            "{count} at {at}"
        );
    }
    Ok(())
}

#[test]
fn bytes_repeated(rt: HostRuntime) -> Result<(), Fail> {
    let bytes = repeated(rt.alloc(), 504)?;
    assert_eq!(rt; bytes.len(), 504);
    let cases = [
        (0, 0),
        (1, 1),
        (250, 250),
        (251, 0),
        (501, 250),
        (502, 0),
        (503, 1),
    ];
    for (place, byte) in cases {
        assert_eq!(rt; bytes.get(place).copied(), Some(byte), "at {place}");
    }
    Ok(())
}
