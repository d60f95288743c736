// What one crash leaves of a disk in memory: a walk over the record of its calls.
ghost use Rattle.std.specs.Prelude.{◌≡◌, ◌≤◌, ◌+◌, ◌-◌, ◌++◌, length, take, replicate, if◌then◌else◌, IfOk, OnOk};
ghost use Rattle.disk_model.specs.History.{History};
ghost use Rattle.disk_model.specs.Known.{overwritten};
ghost use Rattle.disk_mem.specs.Replay.{filled, start, after_call, replay};
ghost use Rattle.disk_mem.specs.Crashing.{without_pending, with_ones};

use crate::Call;
use crate::contents::{fill_up, write_within};
use dp_base::OutOfMemory;
use std::alloc::Global;

/// The disk without what is pending, at the least length, after these calls on a disk that had these bytes first.
pub(crate) fn kept_bytes(
    alloc: Global,
    first: &[u8],
    calls: &[Call],
) -> Result<Vec<u8>, OutOfMemory>
    ensures { IfOk result (λ bytes. bytes.items ≡ without_pending (replay (start first.now) calls.now).pending) }
{
    let mut disk = first.to_vec(alloc)?;
    let mut kept = first.to_vec(alloc)?;
    for call in calls {
        keep_synced(&mut kept, &disk, call)?;
        make_call(&mut disk, call)?;
    }
    Ok(kept)
}

/// The disk with each pending byte 1, at the greatest length.
pub(crate) fn bytes_with_ones(
    alloc: Global,
    first: &[u8],
    calls: &[Call],
) -> Result<Vec<u8>, OutOfMemory>
    ensures { IfOk result (λ bytes. bytes.items ≡ with_ones (replay (start first.now) calls.now).pending) }
{
    let mut disk = first.to_vec(alloc)?;
    let mut ones = first.to_vec(alloc)?;
    for call in calls {
        mark_pending(alloc, &mut ones, &disk, call)?;
        make_call(&mut disk, call)?;
    }
    Ok(ones)
}

// Does the work of a call on the disk. One that failed by its number did none.
fn make_call(disk: &mut Vec<u8>, call: &Call) -> Result<(), OutOfMemory>
    ensures { OnOk result ((h : History) → disk.old.items ≡ h.disk → disk.new.items ≡ (after_call call.now h).disk) }
{
    match call {
        Call::Write { at, bytes, ok } => {
            if *ok {
                return write_filled(disk, *at, bytes.as_slice());
            }
            Ok(())
        }
        Call::Cut { len, ok } => {
            if *ok {
                disk.truncate(*len as usize);
            }
            Ok(())
        }
        _ => Ok(()),
    }
}

// Writes bytes at an offset, after zero bytes if it is past the end.
fn write_filled(disk: &mut Vec<u8>, at: u64, bytes: &[u8]) -> Result<(), OutOfMemory>
    ensures { OnOk result (disk.new.items ≡ overwritten at bytes.now (filled at disk.old.items)) }
{
    let start = at as usize;
    fill_up(disk, start, bytes.len())?;
    write_within(disk, start, bytes);
    Ok(())
}

// What a call does to the disk without what is pending, if this is what was read before.
fn keep_synced(kept: &mut Vec<u8>, disk: &[u8], call: &Call) -> Result<(), OutOfMemory>
    ensures { OnOk result ((h : History) → disk.now ≡ h.disk → kept.old.items ≡ without_pending h.pending
        → kept.new.items ≡ without_pending (after_call call.now h).pending) }
{
    match call {
        Call::Cut { len, .. } => {
            kept.truncate(*len as usize);
            Ok(())
        }
        Call::Sync { ok } => {
            take_synced(kept, disk, *ok)?;
            Ok(())
        }
        _ => Ok(()),
    }
}

// What it does to the disk with each pending byte 1.
fn mark_pending(
    alloc: Global,
    ones: &mut Vec<u8>,
    disk: &[u8],
    call: &Call,
) -> Result<(), OutOfMemory>
    ensures { OnOk result ((h : History) → disk.now ≡ h.disk → ones.old.items ≡ with_ones h.pending
        → h.pending.least ≤ h.pending.greatest → ones.new.items ≡ with_ones (after_call call.now h).pending) }
{
    match call {
        Call::Write { at, bytes, .. } => {
            put_ones(alloc, ones, *at, bytes.as_slice().len())?;
            Ok(())
        }
        Call::Cut { len, .. } => {
            put_ones_behind(ones, *len)?;
            Ok(())
        }
        Call::Sync { ok } => {
            take_synced(ones, disk, *ok)?;
            Ok(())
        }
        _ => Ok(()),
    }
}

// What a sync does to an image: it takes what is read then, if the sync didn't fail.
fn take_synced(content: &mut Vec<u8>, disk: &[u8], ok: bool) -> Result<(), OutOfMemory>
    ensures { OnOk result (content.new.items ≡ (if ok then disk.now else content.old.items)) }
{
    if ok {
        content.clear();
        content.extend_from_slice(disk)?;
    }
    Ok(())
}

// Puts ones over `count` bytes from an offset on, and over a gap before it.
fn put_ones(alloc: Global, content: &mut Vec<u8>, at: u64, count: usize) -> Result<(), OutOfMemory>
    ensures { OnOk result (content.new.items
        ≡ overwritten at (replicate count 1) (content.old.items ++ replicate ((at + count) - length content.old.items) 1)) }
{
    let start = at as usize;
    // No memory holds an image that ends past what a `usize` counts.
    let Some(end) = start.checked_add(count) else {
        return Err(OutOfMemory);
    };
    let mut ones = Vec::new(alloc);
    ones.resize(count, 1)?;
    if content.len() < end {
        content.resize(end, 1)?;
    }
    write_within(content, start, &ones);
    Ok(())
}

// Puts ones over all bytes from an offset on, and over a gap before it.
fn put_ones_behind(content: &mut Vec<u8>, at: u64) -> Result<(), OutOfMemory>
    ensures { OnOk result (content.new.items ≡ take at (content.old.items ++ replicate (at - length content.old.items) 1)
        ++ replicate (length content.old.items - at) 1) }
{
    let start = at as usize;
    let len = content.len();
    if len < start {
        content.resize(start, 1)?;
        return Ok(());
    }
    content.truncate(start);
    content.resize(len, 1)?;
    Ok(())
}
