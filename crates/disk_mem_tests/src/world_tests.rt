// A disk and two streams in memory: which calls fail, what is written, read, cut and sent, and the record of it.
ghost use Rattle.std.specs.Prelude.{◌≡◌, ◌≤◌, ◌++◌, List, ℕ, Some, IsErr, OnOk};
ghost use Rattle.dp_base.specs.Counts.{Rose};
ghost use Rattle.disk_model.specs.Known.{known_disk};

use crate::step::{Step, take_step};
use disk_mem::MemWorld;
use disk_model::{Failed, Stream, World};
use dp_base::OutOfMemory;
use std::alloc::Global;
use std::test::Fail;
use test_worlds::{Failing, disk_of, letters_of, world_of};

// Through the bound alone, as a crate above does.
fn append<W: World>(world: &mut W, bytes: &[u8]) -> Result<(), Failed>
    ensures appended { (old : List ℕ) → known_disk (W.history world.old) ≡ Some old → OnOk result (known_disk (W.history world.new) ≡ Some (old ++ bytes.now)) }
    ensures cause { IsErr result → Rose (W.disk_faults world.old) (W.disk_faults world.new) }
    ensures count { W.disk_faults world.old ≤ W.disk_faults world.new }
{
    world.attach("journal", true)?;
    let end = world.len()?;
    world.write_at(end, bytes)?;
    world.sync()
}

// Whether a call fails just where its letter is small.
fn is_as(world: &mut MemWorld, step: Step, letter: u8) -> bool {
    take_step(world, step) != letter.is_ascii_lowercase()
}

// Whether of seven calls on the disk just those fail that have a small letter.
fn fail_as(world: &mut MemWorld, letters: &[u8]) -> bool {
    let [attach, write, len, read, cut, write_behind, sync] = letters else {
        return false;
    };
    let first = is_as(world, Step::Attach, *attach);
    let second = is_as(world, Step::Write(0, b"abc"), *write);
    let third = is_as(world, Step::Len, *len);
    let fourth = is_as(world, Step::Read(1), *read);
    let fifth = is_as(world, Step::Cut(2), *cut);
    let sixth = is_as(world, Step::Write(2, b"d"), *write_behind);
    let seventh = is_as(world, Step::Sync, *sync);
    first && second && third && fourth && fifth && sixth && seventh
}

// Whether seven calls failed and are recorded as these letters say, and left these bytes; the counts of calls and
// faults of the disk, and of emits and their faults; and whether an allocation failed.
fn seven_calls_as(
    alloc: Global,
    disk: Failing,
    letters: &[u8],
    bytes: &[u8],
) -> Result<([bool; 3], [u64; 4], bool), OutOfMemory> {
    let mut world = world_of(alloc, disk, Failing::From(1), 4)?;
    Ok((
        [
            fail_as(&mut world, letters),
            letters_of(alloc, world.calls())?.as_slice() == letters,
            world.bytes() == bytes,
        ],
        [
            world.disk_calls(),
            world.disk_fault_count(),
            world.emits(),
            world.sink_fault_count(),
        ],
        world.allocation_failed(),
    ))
}

// Which calls fail, a letter for each of seven, the bytes that they leave, and how many failed.
const CALLS: [(Failing, &[u8], &[u8], u64); 7] = [
    (Failing::Never, b"AWLRCWS", b"abd", 0),
    (Failing::At(2), b"AwLRCWS", b"\0\0d", 1),
    (Failing::AtBoth(5, 4), b"AWLrcWS", b"abd", 2),
    (Failing::AtBoth(7, 1), b"aWLRCWs", b"abd", 2),
    (Failing::AtBoth(0, 8), b"AWLRCWS", b"abd", 0),
    (Failing::From(5), b"AWLRcws", b"abc", 3),
    (Failing::From(1), b"awlrcws", b"", 7),
];

#[test]
fn disk_calls_fail_by_number(rt: HostRuntime) -> Result<(), Fail> {
    for (disk, letters, bytes, faults) in CALLS {
        let came = seven_calls_as(rt.alloc(), disk, letters, bytes)?;
        assert_eq!(rt;
            came,
            ([true; 3], [7, faults, 0, 0], false),
            "{faults} faults"
        );
    }
    Ok(())
}

// Whether an emit takes as much as this says. It has no clause, so that its caller carries nothing of the world's
// contract.
fn takes(world: &mut MemWorld, to: Stream, piece: &[u8], wanted: Result<usize, Failed>) -> bool {
    world.emit(to, piece) == wanted
}

// Whether four emits take as much as these say.
fn take_as(world: &mut MemWorld, taken: [Result<usize, Failed>; 4]) -> bool {
    let [first, second, third, fourth] = taken;
    let is_first = takes(world, Stream::Out, b"hi\n", first);
    let is_second = takes(world, Stream::Note, b"no", second);
    let is_third = takes(world, Stream::Out, b"\n", third);
    let is_fourth = takes(world, Stream::Out, b"", fourth);
    is_first && is_second && is_third && is_fourth
}

// Whether four emits take as much as these say, and the streams got these bytes; the counts of emits and their faults,
// and of calls on the disk; and whether an allocation failed.
fn four_emits_as(
    alloc: Global,
    sink: Failing,
    piece: u32,
    taken: [Result<usize, Failed>; 4],
    out: &[u8],
    note: &[u8],
) -> Result<([bool; 3], [u64; 3], bool), OutOfMemory> {
    let mut world = world_of(alloc, Failing::From(1), sink, piece.max(1))?;
    Ok((
        [
            take_as(&mut world, taken),
            world.sent(Stream::Out) == out,
            world.sent(Stream::Note) == note,
        ],
        [world.emits(), world.sink_fault_count(), world.disk_calls()],
        world.allocation_failed(),
    ))
}

// Which emits fail, the bytes that one takes at most, what each of four takes, what Out and Note get, and the faults.
const EMITS: [(Failing, u32, [Result<usize, Failed>; 4], &[u8], &[u8], u64); 5] = [
    (
        Failing::Never,
        2,
        [Ok(2), Ok(2), Ok(1), Ok(0)],
        b"hi\n",
        b"no",
        0,
    ),
    (
        Failing::Never,
        1,
        [Ok(1), Ok(1), Ok(1), Ok(0)],
        b"h\n",
        b"n",
        0,
    ),
    (
        Failing::Never,
        100,
        [Ok(3), Ok(2), Ok(1), Ok(0)],
        b"hi\n\n",
        b"no",
        0,
    ),
    (
        Failing::At(1),
        2,
        [Err(Failed), Ok(2), Ok(1), Ok(0)],
        b"\n",
        b"no",
        1,
    ),
    (
        Failing::From(2),
        2,
        [Ok(2), Err(Failed), Err(Failed), Err(Failed)],
        b"hi",
        b"",
        3,
    ),
];

#[test]
fn emits_in_pieces(rt: HostRuntime) -> Result<(), Fail> {
    for (sink, piece, taken, out, note, faults) in EMITS {
        let came = four_emits_as(rt.alloc(), sink, piece, taken, out, note)?;
        assert_eq!(rt;
            came,
            ([true; 3], [4, faults, 0], false),
            "pieces of {piece}"
        );
    }
    Ok(())
}

// What a write on a disk of five bytes answers, whether it leaves these, and the length after it.
fn written_as(
    alloc: Global,
    at: u64,
    bytes: &[u8],
    after: &[u8],
) -> Result<(Result<(), Failed>, bool, Result<u64, Failed>), OutOfMemory> {
    let mut world = disk_of(alloc, b"abcde", Failing::Never)?;
    let answer = world.write_at(at, bytes);
    let is_after = world.bytes() == after;
    Ok((answer, is_after, world.len()))
}

// An offset, bytes that are written there, and what the disk has after that.
const WRITES: [(u64, &[u8], &[u8]); 7] = [
    (0, b"xy", b"xycde"),
    (1, b"xy", b"axyde"),
    (3, b"xyz", b"abcxyz"),
    (5, b"xy", b"abcdexy"),
    (7, b"x", b"abcde\0\0x"),
    (2, b"", b"abcde"),
    (6, b"", b"abcde\0"),
];

#[test]
fn writes(rt: HostRuntime) -> Result<(), Fail> {
    for (at, bytes, after) in WRITES {
        let came = written_as(rt.alloc(), at, bytes, after)?;
        assert_eq!(rt; came, (Ok(()), true, Ok(after.len() as u64)), "at {at}");
    }
    Ok(())
}

// How many bytes a read of that disk gives into a buffer of four, and whether the buffer has these bytes after it.
fn read_as(
    alloc: Global,
    at: u64,
    after: &[u8],
) -> Result<(Result<usize, Failed>, bool), OutOfMemory> {
    let mut world = disk_of(alloc, b"abcde", Failing::Never)?;
    let mut buf = [b'.'; 4];
    let answer = world.read_at(at, &mut buf);
    Ok((answer, buf.as_slice() == after))
}

// An offset, how many bytes are read there, and the buffer after that.
const READS: [(u64, usize, &[u8]); 4] = [
    (0, 4, b"abcd"),
    (3, 2, b"de.."),
    (5, 0, b"...."),
    (u64::MAX, 0, b"...."),
];

#[test]
fn reads(rt: HostRuntime) -> Result<(), Fail> {
    for (at, count, after) in READS {
        assert_eq!(rt;
            read_as(rt.alloc(), at, after)?,
            (Ok(count), true),
            "at {at}"
        );
    }
    Ok(())
}

// What a cut of that disk answers, and whether it leaves these bytes.
fn cut_as(
    alloc: Global,
    len: u64,
    after: &[u8],
) -> Result<(Result<(), Failed>, bool), OutOfMemory> {
    let mut world = disk_of(alloc, b"abcde", Failing::Never)?;
    let answer = world.cut(len);
    Ok((answer, world.bytes() == after))
}

// A length, and what a cut to it leaves.
const CUTS: [(u64, &[u8]); 5] = [
    (0, b""),
    (3, b"abc"),
    (5, b"abcde"),
    (9, b"abcde"),
    (u64::MAX, b"abcde"),
];

#[test]
fn cuts(rt: HostRuntime) -> Result<(), Fail> {
    for (len, after) in CUTS {
        assert_eq!(rt; cut_as(rt.alloc(), len, after)?, (Ok(()), true), "to {len}");
    }
    Ok(())
}

// What a write far past the end and one within answer on a disk of three bytes; whether the disk is these bytes after
// each, and whether an allocation failed by then; how many faults there are after the first, and how many calls are
// recorded.
fn past_all_memory(
    alloc: Global,
    at: u64,
    first: &[u8],
    second: &[u8],
) -> Result<([Result<(), Failed>; 2], [bool; 4], u64, usize), OutOfMemory> {
    let mut world = disk_of(alloc, b"abc", Failing::Never)?;
    let far = world.write_at(at, b"xy");
    let is_first = world.bytes() == first;
    let (far_failed, faults) = (world.allocation_failed(), world.disk_fault_count());
    let recorded = world.calls().len();
    let within = world.write_at(1, b"x");
    let is_second = world.bytes() == second;
    Ok((
        [far, within],
        [is_first, far_failed, is_second, world.allocation_failed()],
        faults,
        recorded,
    ))
}

// What no memory can hold fails, and changes nothing.
#[test]
fn fails_past_all_memory(rt: HostRuntime) -> Result<(), Fail> {
    for at in [u64::MAX, u64::MAX - 1, 1 << 63, 1 << 62] {
        let came = past_all_memory(rt.alloc(), at, b"abc", b"axc")?;
        assert_eq!(rt; came, ([Err(Failed), Ok(())], [true; 4], 1, 0), "at {at}");
    }
    Ok(())
}

// What two appends to a disk of two bytes answer, where calls fail from this one on, and whether they leave these
// bytes.
fn appended_as(
    alloc: Global,
    from: u64,
    after: &[u8],
) -> Result<([Result<(), Failed>; 2], bool), OutOfMemory> {
    let mut world = disk_of(alloc, b"ab", Failing::From(from))?;
    let answers = [append(&mut world, b"cd"), append(&mut world, b"ef")];
    Ok((answers, world.bytes() == after))
}

#[test]
fn appends_through_the_bound(rt: HostRuntime) -> Result<(), Fail> {
    let came = appended_as(rt.alloc(), 5, b"abcd")?;
    assert_eq!(rt; came, ([Ok(()), Err(Failed)], true));
    Ok(())
}
