use dp_base::OutOfMemory;
use epoch_record::{decode, encode, laws};
use std::alloc::Global;
use std::test::Fail;

// Of the epoch that a body has: how many slices, the steps of the last of them, and how many answers.
fn found(alloc: Global, body: &[u8]) -> Result<Option<(usize, u32, usize)>, OutOfMemory> {
    match decode(alloc, body)? {
        Some(epoch) => {
            let slices = epoch.slices.as_slice();
            let last = slices.last().map_or(0, |slice| slice.steps);
            Ok(Some((slices.len(), last, epoch.answers.as_slice().len())))
        }
        None => Ok(None),
    }
}

// The encoding of the epoch that a body has.
fn encoded_again(alloc: Global, body: &[u8]) -> Result<Option<Vec<u8>>, OutOfMemory> {
    laws::round_trip();
    match decode(alloc, body)? {
        Some(epoch) => Ok(Some(encode(alloc, &epoch)?)),
        None => Ok(None),
    }
}

#[test]
fn bodies(rt: HostRuntime) -> Result<(), Fail> {
    let cases: [(&[u8], Option<(usize, u32, usize)>); 12] = [
        // one slice
        (
            b"\x00\x01\x00\x00\x00\x01\x00\x03\x00\x00\x00\x00\x00\x00\x00",
            Some((1, 3, 0)),
        ),
        // a byte more
        (
            b"\x00\x01\x00\x00\x00\x01\x00\x03\x00\x00\x00\x00\x00\x00\x00\x00",
            None,
        ),
        // a byte less
        (
            b"\x00\x01\x00\x00\x00\x01\x00\x03\x00\x00\x00\x00\x00\x00",
            None,
        ),
        // a slice of no steps
        (
            b"\x00\x01\x00\x00\x00\x01\x00\x00\x00\x00\x00\x00\x00\x00\x00",
            None,
        ),
        // a slice of thread 0
        (
            b"\x00\x01\x00\x00\x00\x00\x00\x03\x00\x00\x00\x00\x00\x00\x00",
            None,
        ),
        // no slice
        (b"\x00\x00\x00\x00\x00\x00\x00\x00\x00", None),
        // another kind of record
        (
            b"\x01\x01\x00\x00\x00\x01\x00\x03\x00\x00\x00\x00\x00\x00\x00",
            None,
        ),
        // more slices counted than there are
        (
            b"\x00\xff\xff\xff\xff\x01\x00\x03\x00\x00\x00\x00\x00\x00\x00",
            None,
        ),
        // a read of 3 bytes, and a clock
        (
            b"\x00\x01\x00\x00\x00\x01\x00\x03\x00\x00\x00\x02\x00\x00\x00\x00\x03\x00abc\x01\x05\x00\x00\x00\x00\x00\x00\x00",
            Some((1, 3, 2)),
        ),
        // an answer of a third kind
        (
            b"\x00\x01\x00\x00\x00\x01\x00\x03\x00\x00\x00\x01\x00\x00\x00\x02\x05\x00\x00\x00\x00\x00\x00\x00",
            None,
        ),
        // 1,000,000 steps in two slices
        (
            b"\x00\x02\x00\x00\x00\x01\x00\x3f\x42\x0f\x00\x02\x00\x01\x00\x00\x00\x00\x00\x00\x00",
            Some((2, 1, 0)),
        ),
        // 1,000,001 steps in two slices
        (
            b"\x00\x02\x00\x00\x00\x01\x00\x40\x42\x0f\x00\x02\x00\x01\x00\x00\x00\x00\x00\x00\x00",
            None,
        ),
    ];
    for (body, epoch) in cases {
        assert_eq!(rt; found(rt.alloc(), body)?, epoch);
    }
    Ok(())
}

// A read takes 4,096 bytes at most.
#[test]
fn long_reads(rt: HostRuntime) -> Result<(), Fail> {
    for (size, epoch) in [(4096, Some((1, 3, 1))), (4097, None)] {
        let mut body = b"\x00\x01\x00\x00\x00\x01\x00\x03\x00\x00\x00\x01\x00\x00\x00\x00".to_vec(
            rt.alloc(),
        )?;
        body.extend_from_slice(&u16::to_le_bytes(size))?;
        body.resize(18 + usize::from(size), 7)?;
        assert_eq!(rt; found(rt.alloc(), &body)?, epoch);
    }
    Ok(())
}

#[test]
fn back_to_bytes(rt: HostRuntime) -> Result<(), Fail> {
    let body =
        b"\x00\x01\x00\x00\x00\x01\x00\x03\x00\x00\x00\x02\x00\x00\x00\x00\x03\x00abc\x01\x05\x00\x00\x00\x00\x00\x00\x00";
    let again = encoded_again(rt.alloc(), body)?.ok_or("it is an epoch's body")?;
    assert_eq!(rt; again.as_slice(), body.as_slice());
    Ok(())
}
