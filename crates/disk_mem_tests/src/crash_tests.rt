// What a crash leaves after a few calls, by each pick. The values come from the model of a disk, by hand.
use crate::step::{Step, take_step};
use Step::{Cut, Nothing, Sync, Write};
use dp_base::OutOfMemory;
use std::alloc::Global;
use std::test::Fail;
use test_worlds::{Failing, disk_of};

// The image of a pick after three steps on a disk with these bytes, where the call with this number fails.
fn image(
    alloc: Global,
    first: &[u8],
    steps: [Step; 3],
    failing: u64,
    pick: u32,
) -> Result<Vec<u8>, OutOfMemory> {
    let mut world = disk_of(alloc, first, Failing::At(failing))?;
    for step in steps {
        let _ = take_step(&mut world, step);
    }
    world.crash(alloc, pick)
}

// Whether the image of a pick is this one.
fn leaves(
    alloc: Global,
    first: &[u8],
    steps: [Step; 3],
    failing: u64,
    pick: u32,
    wanted: &[u8],
) -> Result<bool, OutOfMemory> {
    let left = image(alloc, first, steps, failing, pick)?;
    Ok(left.as_slice() == wanted)
}

// Whether the images of the picks 0, 1, 2 and 7 are these three, the last one twice.
fn all_leave(
    alloc: Global,
    first: &[u8],
    steps: [Step; 3],
    failing: u64,
    wanted: [&[u8]; 3],
) -> Result<[bool; 4], OutOfMemory> {
    let [kept, read, marked] = wanted;
    Ok([
        leaves(alloc, first, steps, failing, 0, kept)?,
        leaves(alloc, first, steps, failing, 1, read)?,
        leaves(alloc, first, steps, failing, 2, marked)?,
        leaves(alloc, first, steps, failing, 7, marked)?,
    ])
}

// The disk's bytes first, the calls, the number of the one that fails, and the three images.
fn behind_writes() -> [(&'static [u8], [Step; 3], u64, [&'static [u8]; 3]); 9] {
    [
        (b"", [Nothing, Nothing, Nothing], 0, [b"", b"", b""]),
        (
            b"abc",
            [Nothing, Nothing, Nothing],
            0,
            [b"abc", b"abc", b"abc"],
        ),
        (
            b"",
            [Write(0, b"xx"), Nothing, Nothing],
            0,
            [b"", b"xx", b"\x01\x01"],
        ),
        (
            b"",
            [Write(0, b"xx"), Sync, Nothing],
            0,
            [b"xx", b"xx", b"xx"],
        ),
        // over old bytes and past the end
        (
            b"\x01\x02\x03\x04\x05",
            [Write(1, b"\x09\x09"), Write(5, b"\x08\x08"), Nothing],
            0,
            [
                b"\x01\x02\x03\x04\x05",
                b"\x01\x09\x09\x04\x05\x08\x08",
                b"\x01\x01\x01\x04\x05\x01\x01",
            ],
        ),
        // a write that fails, over old bytes and past a gap
        (
            b"abcde",
            [Write(1, b"xx"), Nothing, Nothing],
            1,
            [b"abcde", b"abcde", b"a\x01\x01de"],
        ),
        (
            b"ab",
            [Write(4, b"x"), Nothing, Nothing],
            1,
            [b"ab", b"ab", b"ab\x01\x01\x01"],
        ),
        // a sync that fails, and one between two writes
        (
            b"abcde",
            [Write(1, b"x"), Sync, Nothing],
            2,
            [b"abcde", b"axcde", b"a\x01cde"],
        ),
        (
            b"abcde",
            [Write(1, b"x"), Sync, Write(3, b"y")],
            0,
            [b"axcde", b"axcye", b"axc\x01e"],
        ),
    ]
}

#[test]
fn images_behind_writes_and_syncs(rt: HostRuntime) -> Result<(), Fail> {
    for (row, (first, steps, failing, wanted)) in (1..).zip(behind_writes()) {
        let came = all_leave(rt.alloc(), first, steps, failing, wanted)?;
        assert_eq!(rt; came, [true; 4], "row {row}");
    }
    Ok(())
}

// The calls on a disk of five bytes, the number of the one that fails, and the three images.
fn behind_cuts() -> [([Step; 3], u64, [&'static [u8]; 3]); 7] {
    [
        (
            [Cut(2), Nothing, Nothing],
            0,
            [b"ab", b"ab", b"ab\x01\x01\x01"],
        ),
        (
            [Cut(2), Nothing, Nothing],
            1,
            [b"ab", b"abcde", b"ab\x01\x01\x01"],
        ),
        (
            [Cut(9), Nothing, Nothing],
            0,
            [b"abcde", b"abcde", b"abcde\x01\x01\x01\x01"],
        ),
        // the greatest length stays the one before the cut, or is the end of the write
        (
            [Cut(2), Write(2, b"x"), Nothing],
            0,
            [b"ab", b"abx", b"ab\x01\x01\x01"],
        ),
        (
            [Cut(2), Write(4, b"xx"), Nothing],
            0,
            [b"ab", b"ab\0\0xx", b"ab\x01\x01\x01\x01"],
        ),
        (
            [Cut(2), Sync, Write(2, b"x")],
            0,
            [b"ab", b"abx", b"ab\x01"],
        ),
        // a byte stays pending where it was cut off
        (
            [Write(0, b"x"), Cut(3), Write(3, b"y")],
            0,
            [b"abc", b"xbcy", b"\x01bc\x01\x01"],
        ),
    ]
}

#[test]
fn images_behind_cuts(rt: HostRuntime) -> Result<(), Fail> {
    for (row, (steps, failing, wanted)) in (1..).zip(behind_cuts()) {
        let came = all_leave(rt.alloc(), b"abcde", steps, failing, wanted)?;
        assert_eq!(rt; came, [true; 4], "row {row}");
    }
    Ok(())
}

// Whether all of the image without what is pending is these bytes, and whether one with each pending byte 1 can be had.
fn past_all_memory(alloc: Global, at: u64, kept: &[u8]) -> Result<(bool, bool), OutOfMemory> {
    let steps = [Write(at, b"x"), Nothing, Nothing];
    let is_kept = leaves(alloc, kept, steps, 1, 0, kept)?;
    Ok((is_kept, image(alloc, kept, steps, 1, 2).is_ok()))
}

// A write that failed where no memory ends: all of such an image can't be had, but one without it can.
#[test]
fn images_past_all_memory(rt: HostRuntime) -> Result<(), Fail> {
    for at in [u64::MAX, u64::MAX - 1] {
        assert_eq!(rt;
            past_all_memory(rt.alloc(), at, b"abc")?,
            (true, false),
            "at {at}"
        );
    }
    Ok(())
}
