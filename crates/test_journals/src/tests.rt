// Journals byte by byte.
use super::*;
use std::test::Fail;

#[test]
fn journals(rt: HostRuntime) -> Result<(), Fail> {
    let alloc = rt.alloc();
    let journal = journal_of(alloc, b"\xaa", &[&THREE_STEPS, b"\x07"])?;
    assert_eq!(rt;
        journal.as_slice(),
        b"\x01DPJ1\x01\0\0\0\xaa\x01\x0f\0\0\0\0\x01\0\0\0\x01\0\x03\0\0\0\0\0\0\0\x01\x01\0\0\0\x07\0".as_slice()
    );
    assert_eq!(rt; seen(&journal, 10), (Kind::Epoch, 30, 15));
    assert_eq!(rt; seen(&journal, 30), (Kind::Bad, 0, 0));
    let none = records_of(alloc, &[])?;
    assert_eq!(rt; none.as_slice(), b"\0".as_slice());
    assert_eq!(rt; seen(&none, 0), (Kind::End, 0, 0));
    let frame = frame_of_three_steps(alloc)?;
    assert_eq!(rt;
        frame.as_slice(),
        b"\x0f\0\0\0\0\x01\0\0\0\x01\0\x03\0\0\0\0\0\0\0\0".as_slice()
    );
    Ok(())
}
