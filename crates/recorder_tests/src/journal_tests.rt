// Journals on memory forms: what doesn't fit or fails, and what is read back.
ghost use Rattle.std.specs.Prelude.{◌≤◌};

use disk_mem::MemWorld;
use epoch_journal::{AppendFault, BeginFault, Journal, read_whole};
use journal_text::Frame;
use std::alloc::Global;
use std::test::Fail;
use test_files::repeated;
use test_journals::frame_of_three_steps;
use test_worlds::{Failing, disk_of};

const ROOM: u64 = 1 << 30;

// A journal of a guest of one byte: the header and the closed gate are 11 bytes, and each record's frame is 20.
const GUEST: &[u8] = b"\xaa";

// What a journal's beginning on a disk with these bytes comes to: the fault, how many calls there were, and whether the
// disk has these bytes after it.
fn begun_on(
    alloc: Global,
    disk: &[u8],
    room: u64,
    after: &[u8],
) -> Result<(Option<BeginFault>, u64, bool), Fail>
    requires { room ≤ 1073741824 }
{
    let mut world = disk_of(alloc, disk, Failing::Never)?;
    let fault = Journal::begin(alloc, &mut world, GUEST, room).err();
    Ok((fault, world.disk_calls(), world.bytes() == after))
}

// What a disk that isn't empty, and rooms below the header's, come to. Nothing is written.
#[test]
fn begun_or_not(rt: HostRuntime) -> Result<(), Fail> {
    let header: &[u8] = b"\x01DPJ1\x01\x00\x00\x00\xaa\x00";
    // the disk's bytes, the room, the fault, how many calls there are, and the disk's bytes after them
    let cases: [(&[u8], u64, Option<BeginFault>, u64, &[u8]); 5] = [
        (b"", ROOM, None, 7, header),
        (b"", 11, None, 7, header),
        (b"", 10, Some(BeginFault::Full { end: 0, need: 11 }), 1, b""),
        (
            b"\x00",
            ROOM,
            Some(BeginFault::InUse { len: 1 }),
            1,
            b"\x00",
        ),
        // The disk is looked at before the room.
        (
            b"\x00\x00",
            10,
            Some(BeginFault::InUse { len: 2 }),
            1,
            b"\x00\x00",
        ),
    ];
    for (disk, room, refused, calls, after) in cases {
        assert_eq!(rt;
            begun_on(rt.alloc(), disk, room, after)?,
            (refused, calls, true)
        );
    }
    Ok(())
}

// Whether each of so many appends answers `Ok`.
fn all_append(journal: &mut Journal, world: &mut MemWorld, frame: &Frame, count: u32) -> bool {
    let mut all = true;
    for _ in 0..count {
        all = journal.append(world, frame).is_ok() && all;
    }
    all
}

// Of a journal on a disk whose call with this number fails: whether so many appends succeed, what the next three
// answer, and how many calls there were after the first of these and after the last.
fn failed_appends(
    alloc: Global,
    number: u64,
    count: u32,
    frame: &Frame,
) -> Result<(bool, [Result<(), AppendFault>; 3], [u64; 2]), Fail> {
    let mut world = disk_of(alloc, b"", Failing::At(number))?;
    let Ok(mut journal) = Journal::begin(alloc, &mut world, GUEST, ROOM) else {
        return Err("the journal begins".into());
    };
    let all = all_append(&mut journal, &mut world, frame, count);
    let failed = journal.append(&mut world, frame);
    let calls = world.disk_calls();
    let again = journal.append(&mut world, frame);
    let once_more = journal.append(&mut world, frame);
    Ok((all, [failed, again, once_more], [calls, world.disk_calls()]))
}

// After a call that fails, each append says how many records were acknowledged, and makes no call.
#[test]
fn append_after_a_failed_append(rt: HostRuntime) -> Result<(), Fail> {
    let frame = frame_of_three_steps(rt.alloc())?;
    // seven calls of the header, and four of each of eleven records
    for number in 8..52u64 {
        let last = ((number - 8) / 4) as u32;
        let came = failed_appends(rt.alloc(), number, last, &frame)?;
        let failed = Err(AppendFault::Failed { last });
        let answers = [Err(AppendFault::DiskFault), failed, failed];
        assert_eq!(rt; came, (true, answers, [number, number]), "call {number}");
    }
    Ok(())
}

// What two appends to a journal with this room answer, and the disk's length after them.
fn two_appends(
    alloc: Global,
    room: u64,
    frame: &Frame,
) -> Result<([Result<(), AppendFault>; 2], usize), Fail>
    requires { room ≤ 1073741824 }
{
    let mut world = disk_of(alloc, b"", Failing::Never)?;
    let Ok(mut journal) = Journal::begin(alloc, &mut world, GUEST, room) else {
        return Err("the journal begins".into());
    };
    let first = journal.append(&mut world, frame);
    let second = journal.append(&mut world, frame);
    Ok(([first, second], world.bytes().len()))
}

// Two records need 11 + 20 + 20 bytes. A record that has no room changes nothing.
#[test]
fn room_of_a_journal(rt: HostRuntime) -> Result<(), Fail> {
    let frame = frame_of_three_steps(rt.alloc())?;
    let full = |end| Err(AppendFault::Full { end, need: 20 });
    let cases = [
        (30, [full(11), full(11)], 11),
        (31, [Ok(()), full(31)], 31),
        (50, [Ok(()), full(31)], 31),
        (51, [Ok(()), Ok(())], 51),
    ];
    for (room, answers, len) in cases {
        assert_eq!(rt; two_appends(rt.alloc(), room, &frame)?, (answers, len));
    }
    Ok(())
}

// Whether the disk reads as these bytes, which it has, and how many calls that takes.
fn reads_whole(alloc: Global, disk: &[u8]) -> Result<(bool, u64), Fail> {
    let mut world = disk_of(alloc, disk, Failing::Never)?;
    let Ok(read) = read_whole(alloc, &mut world) else {
        return Err("a disk that doesn't fail is read".into());
    };
    Ok((read.as_slice() == disk, world.disk_calls()))
}

// Whether a disk whose call with this number fails is read, and how many calls that takes.
fn reads_failing(alloc: Global, disk: &[u8], number: u64) -> Result<(bool, u64), Fail> {
    let mut world = disk_of(alloc, disk, Failing::At(number))?;
    let is_read = read_whole(alloc, &mut world).is_ok();
    Ok((is_read, world.disk_calls()))
}

// A disk is read whole, in as many reads as it needs; where one fails, nothing is answered but that.
#[test]
fn disks_read_whole(rt: HostRuntime) -> Result<(), Fail> {
    let alloc = rt.alloc();
    let long = repeated(alloc, 70_000)?;
    for disk in [b"".as_slice(), b"\x01", &long] {
        let (is_same, calls) = reads_whole(alloc, disk)?;
        assert!(rt; is_same);
        for number in 1..=calls {
            assert_eq!(rt; reads_failing(alloc, disk, number)?, (false, number));
        }
    }
    Ok(())
}
