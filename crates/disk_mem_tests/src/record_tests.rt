// What a disk and two streams in memory record of each call, and what is kept of it with another disk.
use disk_mem::{Call, MemWorld};
use disk_model::{Failed, Stream, World};
use dp_base::OutOfMemory;
use std::alloc::Global;
use std::test::Fail;
use test_worlds::{Failing, letters_of, world_of};

// What five calls on the disk answer, in order, the third of which may fail, and an emit after the first three.
fn six_calls(world: &mut MemWorld) -> ([Result<(), Failed>; 5], Result<usize, Failed>) {
    let attached = world.attach("journal", true);
    let written = world.write_at(1, b"xy");
    let written_far = world.write_at(9, b"z");
    let emitted = world.emit(Stream::Note, b"note");
    let (cut, synced) = (world.cut(2), world.sync());
    ([attached, written, written_far, cut, synced], emitted)
}

fn is_as_made(call: &Call) -> bool {
    match call {
        Call::Write {
            at,
            bytes,
            ok: true,
        } => *at == 1 && bytes.as_slice() == b"xy".as_slice(),
        Call::Write {
            at,
            bytes,
            ok: false,
        } => *at == 9 && bytes.as_slice() == b"z".as_slice(),
        Call::Emit {
            to,
            piece,
            taken,
            ..
        } => { *to == Stream::Note && piece.as_slice() == b"note".as_slice() && *taken == 2 }
        Call::Cut { len, .. } => *len == 2,
        _ => true,
    }
}

fn are_as_made(calls: &[Call]) -> bool {
    for call in calls {
        if !is_as_made(call) {
            return false;
        }
    }
    true
}

// An empty disk whose third call fails, and which takes two bytes at an emit.
fn third_call_fails(alloc: Global) -> Result<MemWorld, OutOfMemory> {
    world_of(alloc, Failing::At(3), Failing::Never, 2)
}

// The answers of the six calls there, and whether the record has these letters and the calls as they were made.
fn six_calls_as(
    alloc: Global,
    letters: &[u8],
) -> Result<(([Result<(), Failed>; 5], Result<usize, Failed>), [bool; 2]), OutOfMemory> {
    let mut world = third_call_fails(alloc)?;
    let answers = six_calls(&mut world);
    Ok((
        answers,
        [
            letters_of(alloc, world.calls())?.as_slice() == letters,
            are_as_made(world.calls()),
        ],
    ))
}

#[test]
fn records_each_call(rt: HostRuntime) -> Result<(), Fail> {
    let came = six_calls_as(rt.alloc(), b"AWwECS")?;
    let answers = ([Ok(()), Ok(()), Err(Failed), Ok(()), Ok(())], Ok(2));
    assert_eq!(rt; came, (answers, [true; 2]));
    Ok(())
}

// After the six calls, of the same world with these bytes on its disk: whether it has these and nothing was sent on
// Note, how many calls are recorded, the counts of calls and faults of the disk, and of emits, and what an emit takes
// then.
fn restarted_with(
    alloc: Global,
    bytes: &[u8],
) -> Result<([bool; 2], usize, [u64; 3], Result<usize, Failed>), OutOfMemory> {
    let mut used = third_call_fails(alloc)?;
    let _ = six_calls(&mut used);
    let mut world = used.of_disk(alloc, bytes)?;
    let are_fresh = [world.bytes() == bytes, world.sent(Stream::Note).is_empty()];
    let recorded = world.calls().len();
    let counts = [world.disk_calls(), world.disk_fault_count(), world.emits()];
    Ok((are_fresh, recorded, counts, world.emit(Stream::Out, b"out")))
}

#[test]
fn another_disk_keeps_the_counts(rt: HostRuntime) -> Result<(), Fail> {
    let came = restarted_with(rt.alloc(), b"abc")?;
    assert_eq!(rt; came, ([true; 2], 0, [5, 1, 1], Ok(2)));
    Ok(())
}
