use dp_base::little_endian::*;
use std::test::*;

#[test]
fn written_numbers(rt: HostRuntime) -> Result<(), Fail> {
    let mut out = Vec::new(rt.alloc());
    write_u8(&mut out, 0xd5)?;
    write_u16(&mut out, 1)?;
    write_u32(&mut out, 15)?;
    write_u64(&mut out, 5)?;
    assert_eq!(rt;
        out.as_slice(),
        b"\xd5\x01\x00\x0f\x00\x00\x00\x05\x00\x00\x00\x00\x00\x00\x00".as_slice()
    );
    Ok(())
}

#[test]
fn read_numbers(rt: HostRuntime) -> Result<(), Fail> {
    let bytes = b"\xd5\x01\x00\x0f\x00\x00\x00\x05\x00\x00\x00\x00\x00\x00\x00\x07";
    let (first, rest) = read_u8(bytes).ok_or("one byte is there")?;
    assert_eq!(rt; first, 0xd5);
    let (second, rest) = read_u16(rest).ok_or("two bytes are there")?;
    assert_eq!(rt; second, 1);
    let (third, rest) = read_u32(rest).ok_or("four bytes are there")?;
    assert_eq!(rt; third, 15);
    let (fourth, rest) = read_u64(rest).ok_or("eight bytes are there")?;
    assert_eq!(rt; fourth, 5);
    assert_eq!(rt; rest, b"\x07".as_slice());
    Ok(())
}

#[test]
fn one_byte_too_few(rt: HostRuntime) {
    assert!(rt; matches!(read_u8(b""), None));
    assert!(rt; matches!(read_u16(b"\x01"), None));
    assert!(rt; matches!(read_u32(b"\x0f\x00\x00"), None));
    assert!(rt; matches!(read_u64(b"\x05\x00\x00\x00\x00\x00\x00"), None));
}
