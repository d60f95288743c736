use dp_base::journal_reader::*;
use dp_base::little_endian::write_u16;
use std::test::*;

// Bodies, and whether each is an epoch's.
#[test]
fn epoch_bodies(rt: HostRuntime) {
    let cases: [(&[u8], bool); 12] = [
        // one slice
        (
            b"\x00\x01\x00\x00\x00\x01\x00\x03\x00\x00\x00\x00\x00\x00\x00",
            true,
        ),
        // a byte more
        (
            b"\x00\x01\x00\x00\x00\x01\x00\x03\x00\x00\x00\x00\x00\x00\x00\x00",
            false,
        ),
        // a byte less
        (
            b"\x00\x01\x00\x00\x00\x01\x00\x03\x00\x00\x00\x00\x00\x00",
            false,
        ),
        // a slice of no steps
        (
            b"\x00\x01\x00\x00\x00\x01\x00\x00\x00\x00\x00\x00\x00\x00\x00",
            false,
        ),
        // a slice of thread 0
        (
            b"\x00\x01\x00\x00\x00\x00\x00\x03\x00\x00\x00\x00\x00\x00\x00",
            false,
        ),
        // no slice
        (b"\x00\x00\x00\x00\x00\x00\x00\x00\x00", false),
        // another kind of record
        (
            b"\x01\x01\x00\x00\x00\x01\x00\x03\x00\x00\x00\x00\x00\x00\x00",
            false,
        ),
        // more slices counted than there are
        (
            b"\x00\xff\xff\xff\xff\x01\x00\x03\x00\x00\x00\x00\x00\x00\x00",
            false,
        ),
        // a read of 3 bytes, and a clock
        (
            b"\x00\x01\x00\x00\x00\x01\x00\x03\x00\x00\x00\x02\x00\x00\x00\x00\x03\x00abc\x01\x05\x00\x00\x00\x00\x00\x00\x00",
            true,
        ),
        // an answer of a third kind
        (
            b"\x00\x01\x00\x00\x00\x01\x00\x03\x00\x00\x00\x01\x00\x00\x00\x02\x05\x00\x00\x00\x00\x00\x00\x00",
            false,
        ),
        // 1,000,000 steps in two slices
        (
            b"\x00\x02\x00\x00\x00\x01\x00\x3f\x42\x0f\x00\x02\x00\x01\x00\x00\x00\x00\x00\x00\x00",
            true,
        ),
        // 1,000,001 steps in two slices
        (
            b"\x00\x02\x00\x00\x00\x01\x00\x40\x42\x0f\x00\x02\x00\x01\x00\x00\x00\x00\x00\x00\x00",
            false,
        ),
    ];
    for (body, is_epoch) in cases {
        assert_eq!(rt; is_epoch_body(body), is_epoch);
    }
}

// A read takes 4,096 bytes at most.
#[test]
fn long_reads(rt: HostRuntime) -> Result<(), Fail> {
    for (size, is_answer) in [(4096, true), (4097, false)] {
        let mut bytes = b"\x00".to_vec(rt.alloc())?;
        write_u16(&mut bytes, size)?;
        bytes.resize(3 + usize::from(size), 7)?;
        assert_eq!(rt; read_answer(&bytes).is_some(), is_answer);
    }
    Ok(())
}
