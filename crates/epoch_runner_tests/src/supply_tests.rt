use disk_model::Inlet;
use dp_base::OutOfMemory;
use std::alloc::Global;
use std::test::Fail;
use supply::{InputFault, MAX_ROOM, Supply};
use test_worlds::{Failing, inlet_of};

// What four refills give, a line for each: `!` for one that fails, `.` where the end was seen before or is seen.
fn four_refills<I: Inlet>(alloc: Global, inlet: &mut I, room: u32) -> Result<Vec<u8>, OutOfMemory> {
    let mut lines = Vec::new(alloc);
    if room < 1 || MAX_ROOM < room {
        return Ok(lines);
    }
    let mut supply = Supply::new(alloc, room)?;
    for _ in 0..4 {
        if supply.has_ended() || 1 << 62 < supply.window_end() {
            lines.push(b'.')?;
            continue;
        }
        let place = supply.window_end();
        match supply.refill(inlet) {
            Ok(()) => {
                if let Some(bytes) = supply.answer(place, 100) {
                    lines.extend_from_slice(bytes)?;
                }
                lines.push(if supply.has_ended() { b'.' } else { b'\n' })?;
            }
            Err(InputFault) => lines.push(b'!')?,
        }
    }
    Ok(lines)
}

#[test]
fn refills_of_pieces(rt: HostRuntime) -> Result<(), Fail> {
    let alloc = rt.alloc();
    let cases = [
        // Pieces that are longer than the room.
        (
            [b"abcde".as_slice(), b"f".as_slice(), b"g".as_slice()],
            2,
            Failing::Never,
            b"ab\ncd\ne\nf\n".as_slice(),
        ),
        // An empty piece is the end.
        (
            [b"abc".as_slice(), b"".as_slice(), b"d".as_slice()],
            8,
            Failing::Never,
            b"abc\n...".as_slice(),
        ),
        // A take that fails loses nothing.
        (
            [b"abc".as_slice(), b"d".as_slice(), b"".as_slice()],
            2,
            Failing::At(2),
            b"ab\n!c\nd\n".as_slice(),
        ),
        (
            [b"abc".as_slice(), b"d".as_slice(), b"".as_slice()],
            MAX_ROOM,
            Failing::From(1),
            b"!!!!".as_slice(),
        ),
    ];
    for (pieces, room, failing, lines) in cases {
        let mut inlet = inlet_of(alloc, &pieces, &[], failing)?;
        assert_eq!(rt; four_refills(alloc, &mut inlet, room)?.as_slice(), lines);
    }
    Ok(())
}

// The answers of a window "cde" at place 2, and of the end at place 5.
fn windows_of(alloc: Global) -> Result<(Supply, Supply), OutOfMemory> {
    let pieces = [b"ab".as_slice(), b"cde".as_slice(), b"".as_slice()];
    let mut inlet = inlet_of(alloc, &pieces, &[], Failing::Never)?;
    let mut window = Supply::new(alloc, 3)?;
    let _ = window.refill(&mut inlet);
    if !window.has_ended() && window.window_end() < 1 << 62 {
        let _ = window.refill(&mut inlet);
    }
    let mut end = Supply::new(alloc, 3)?;
    let mut inlet = inlet_of(alloc, &[b"abc", b"de", b""], &[], Failing::Never)?;
    for _ in 0..3 {
        if !end.has_ended() && end.window_end() < 1 << 62 {
            let _ = end.refill(&mut inlet);
        }
    }
    Ok((window, end))
}

#[test]
fn answers_at_each_place(rt: HostRuntime) -> Result<(), Fail> {
    let alloc = rt.alloc();
    let (window, end) = windows_of(alloc)?;
    let cases = [
        (1, 4, None, None),
        (2, 4, Some(b"cde".as_slice()), None),
        (2, 3, Some(b"cde".as_slice()), None),
        (2, 2, Some(b"cd".as_slice()), None),
        (2, 0, Some(b"".as_slice()), None),
        (4, u32::MAX, Some(b"e".as_slice()), None),
        (5, 1, None, Some(b"".as_slice())),
        (5, 0, None, Some(b"".as_slice())),
        (6, 1, None, None),
        (u64::MAX, u32::MAX, None, None),
    ];
    for (place, max, in_window, at_end) in cases {
        assert_eq!(rt; window.answer(place, max), in_window, "at {place}");
        assert_eq!(rt; end.answer(place, max), at_end, "at {place}");
    }
    Ok(())
}

#[test]
fn a_stamp_stays(rt: HostRuntime) -> Result<(), Fail> {
    let alloc = rt.alloc();
    let mut supply = Supply::new(alloc, 1)?;
    assert_eq!(rt; supply.stamp(), 0);
    supply.set_stamp(u64::MAX);
    let mut inlet = inlet_of(alloc, &[b"a", b"b", b"c"], &[], Failing::From(2))?;
    let _ = supply.refill(&mut inlet);
    assert_eq!(rt; supply.stamp(), u64::MAX);
    Ok(())
}
