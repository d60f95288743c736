// Calls that fail, and calls as letters.
use super::*;
use disk_model::{Files, Inlet, Stream, World};
use std::alloc::Global;
use std::test::Fail;

// Which of the first four calls fail.
fn first_four(alloc: Global, failing: Failing) -> Result<[bool; 4], Fail> {
    let fails = fails_of(alloc, failing)?;
    Ok([1, 2, 3, 4].map(|number| fails.fails_at(number)))
}

#[test]
fn calls_that_fail(rt: HostRuntime) -> Result<(), Fail> {
    let cases = [
        (Failing::Never, [false, false, false, false]),
        (Failing::At(2), [false, true, false, false]),
        (Failing::AtBoth(4, 1), [true, false, false, true]),
        (Failing::From(3), [false, false, true, true]),
    ];
    for (failing, wanted) in cases {
        assert_eq!(rt; first_four(rt.alloc(), failing)?, wanted);
    }
    Ok(())
}

#[test]
fn letters(rt: HostRuntime) -> Result<(), Fail> {
    let alloc = rt.alloc();
    let mut world = world_of(alloc, Failing::AtBoth(2, 5), Failing::At(1), 1)?;
    let _ = world.attach("j", true);
    let _ = world.len();
    let _ = world.write_at(0, b"a");
    let _ = world.read_at(0, &mut [0; 1]);
    let _ = world.cut(0);
    let _ = world.sync();
    let _ = world.emit(Stream::Out, b"a");
    let _ = world.emit(Stream::Out, b"a");
    let letters = letters_of(alloc, world.calls())?;
    assert_eq!(rt; letters.as_slice(), b"AlWRcSeE".as_slice());
    Ok(())
}

#[test]
fn givens(rt: HostRuntime) -> Result<(), Fail> {
    let alloc = rt.alloc();
    let words = texts_of(alloc, &["a", "", "bc"])?;
    assert_eq!(rt; words.len(), 3);
    assert_eq!(rt; words.get(2).map(|word| word.as_str()), Some("bc"));
    let mut files = file_named(alloc, "g", b"xy", Failing::Never)?;
    assert_eq!(rt; files.fetch(alloc, "g")?.as_slice(), b"xy".as_slice());
    let mut inlet = inlet_of(alloc, &[b"ab", b"c"], &[5], Failing::Never)?;
    let mut buf = [0; 4];
    assert_eq!(rt; inlet.take(&mut buf)?, 2);
    assert_eq!(rt; inlet.clock(), 5);
    Ok(())
}
