use dp_base::journal_writer::*;
use dp_base::little_endian::write_u64;
use dp_base::{Answer, Bytes, OutOfMemory, Slice, Tid};
use std::test::*;

#[test]
fn one_slice(rt: HostRuntime) -> Result<(), Fail> {
    let mut body = Vec::new(rt.alloc());
    write_epoch_body(
        &mut body,
        &[Slice {
            tid: Tid(1),
            steps: 3,
        }],
        &[],
    )?;
    assert_eq!(rt;
        body.as_slice(),
        b"\x00\x01\x00\x00\x00\x01\x00\x03\x00\x00\x00\x00\x00\x00\x00".as_slice()
    );
    Ok(())
}

#[test]
fn answers(rt: HostRuntime) -> Result<(), Fail> {
    let text = Bytes::from_vec(Vec::from_slice(rt.alloc(), b"abc")?);
    let given = [Answer::Read(text), Answer::Clock(5)];
    let mut body = Vec::new(rt.alloc());
    write_epoch_body(
        &mut body,
        &[Slice {
            tid: Tid(1),
            steps: 3,
        }],
        &given,
    )?;
    assert_eq!(rt; body.len(), 30);
    assert_eq!(rt;
        &body[11..],
        b"\x02\x00\x00\x00\x00\x03\x00abc\x01\x05\x00\x00\x00\x00\x00\x00\x00".as_slice()
    );
    Ok(())
}

#[test]
fn frame(rt: HostRuntime) -> Result<(), Fail> {
    let body = b"\x00\x01\x00\x00\x00\x01\x00\x03\x00\x00\x00\x00\x00\x00\x00";
    let mut out = Vec::new(rt.alloc());
    write_frame(&mut out, body)?;
    assert_eq!(rt;
        out.as_slice(),
        b"\x0f\x00\x00\x00\x00\x01\x00\x00\x00\x01\x00\x03\x00\x00\x00\x00\x00\x00\x00\x00".as_slice()
    );
    Ok(())
}

#[test]
fn header(rt: HostRuntime) -> Result<(), Fail> {
    let guest = [7; 96];
    let mut out = Vec::new(rt.alloc());
    write_header_body(&mut out, &guest)?;
    assert_eq!(rt; out.len(), 104);
    assert_eq!(rt; &out[..8], b"DPJ1\x60\x00\x00\x00".as_slice());
    Ok(())
}

// If memory runs out, a field leaves all as it was, and a longer encoding what stood before it.
#[test]
fn failed_allocations(rt: HostRuntime) -> Result<(), Fail> {
    let alloc = rt.alloc();
    let turns = [Slice {
        tid: Tid(2),
        steps: 9,
    }];
    let given = [Answer::Clock(5), Answer::Clock(6)];
    let mut out = Vec::from_slice(alloc, b"ab")?;
    if write_u64(&mut out, 7).is_err() {
        assert_eq!(rt; out.as_slice(), b"ab".as_slice());
    }
    let mut out = Vec::from_slice(alloc, b"ab")?;
    match write_epoch_body(&mut out, &turns, &given) {
        Ok(()) => assert_eq!(rt; out.len(), 2 + 33),
        Err(OutOfMemory) => assert!(rt; out.starts_with(b"ab")),
    }
    let mut out = Vec::from_slice(alloc, b"ab")?;
    match write_frame(&mut out, b"0123456789") {
        Ok(()) => assert_eq!(rt; out.len(), 2 + 15),
        Err(OutOfMemory) => assert!(rt; out.starts_with(b"ab")),
    }
    let mut out = Vec::from_slice(alloc, b"ab")?;
    match write_header_body(&mut out, b"0123456789") {
        Ok(()) => assert_eq!(rt; out.len(), 2 + 18),
        Err(OutOfMemory) => assert!(rt; out.starts_with(b"ab")),
    }
    Ok(())
}
