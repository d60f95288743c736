// What a world in memory holds.
ghost use Rattle.std.specs.Prelude.{◌≡◌, ◌+◌, ◌≤◌, [], min, length, take, drop, ◌-◌, ◌++◌, ◌∷◌, IfOk, OnOk, OnErr};
ghost use Rattle.dp_base.specs.Field.{AreBytes};
ghost use Rattle.disk_model.specs.History.{IsImage};
ghost use Rattle.disk_model.specs.Known.{overwritten};
ghost use Rattle.disk_model.specs.Steps.{stream_of};
ghost use Rattle.disk_mem.specs.declared.call.Call.TheVariants.{Write, Cut, Emit};
ghost use Rattle.disk_mem.specs.Replay.{filled, start, replay};
ghost use Rattle.disk_mem.specs.Recording.{new_recording, recorded, IsQuiet};
ghost use Rattle.disk_mem.specs.Crashing.{left_by};

use crate::Call;
use crate::crash::{bytes_with_ones, kept_bytes};
use disk_model::Stream;
use dp_base::{Bytes, OutOfMemory};
use std::alloc::Global;
use std::marker::Model;

/// A disk, what two streams have got, and the record of all calls. Clauses see the record, and the history.
///
/// A change is recorded before it is made, and what it needs is allocated before that. So one that answers
/// `OutOfMemory` changes nothing.
#[derive(Drop)]
pub(crate) struct Contents {
    alloc: Global,
    first: Vec<u8>,
    disk: Vec<u8>,
    sent: Vec<u8>,
    noted: Vec<u8>,
    calls: Vec<Call>,
}

impl Model for Contents {
    ghost use Rattle.disk_mem.specs.Replay.{start, replay};
    ghost use Rattle.disk_mem.specs.Recording.{Recording, recording, IsContentOf};

    ghost Value = { Recording };

    ghost view = { λ c. recording c.first.items c.calls.items };

    ghost invariant = { λ c. IsContentOf (replay (start c.first.items) c.calls.items) c.disk.items c.sent.items c.noted.items };
}

impl Contents {
    /// Makes an empty disk, with an empty record.
    pub(crate) fn new(alloc: Global) -> Contents
        ensures { result ≡ new_recording [] }
    {
        Contents {
            alloc,
            first: Vec::new(alloc),
            disk: Vec::new(alloc),
            sent: Vec::new(alloc),
            noted: Vec::new(alloc),
            calls: Vec::new(alloc),
        }
    }

    /// Makes a disk with these bytes, and an empty record.
    pub(crate) fn of_disk(alloc: Global, bytes: &[u8]) -> Result<Contents, OutOfMemory>
        ensures { IfOk result (λ c. c ≡ new_recording bytes.now) }
    {
        let first = bytes.to_vec(alloc)?;
        let disk = bytes.to_vec(alloc)?;
        Ok(Contents {
            alloc,
            first,
            disk,
            sent: Vec::new(alloc),
            noted: Vec::new(alloc),
            calls: Vec::new(alloc),
        })
    }

    /// Returns what a read of the whole disk gives. It is one of the images that a crash may leave now.
    pub(crate) fn disk(&self) -> &[u8]
        ensures whole { result.now ≡ self.now.history.disk }
        ensures image { IsImage self.now.history.pending result.now }
    {
        let bytes = self.disk.as_slice();
        are_bytes(bytes);
        bytes
    }

    /// Returns one of the images that a crash may leave now: 0 picks the disk without what is pending, 1 what a read
    /// gives, any other number the disk with each pending byte 1.
    pub(crate) fn crash(&self, alloc: Global, pick: u32) -> Result<Vec<u8>, OutOfMemory>
        ensures left { IfOk result (λ bytes. bytes.items ≡ left_by pick self.now.history) }
        ensures image { IfOk result (λ bytes. IsImage self.now.history.pending bytes.items) }
    {
        if pick == 0 {
            let kept = kept_bytes(alloc, &self.first, &self.calls)?;
            are_bytes(&kept);
            return Ok(kept);
        }
        if pick == 1 {
            let read = self.disk().to_vec(alloc)?;
            return Ok(read);
        }
        let marked = bytes_with_ones(alloc, &self.first, &self.calls)?;
        are_bytes(&marked);
        Ok(marked)
    }

    /// Returns what a stream has got.
    pub(crate) fn sent(&self, to: Stream) -> &[u8]
        ensures { result.now ≡ stream_of to self.now.history }
    {
        match to {
            Stream::Out => &self.sent,
            Stream::Note => &self.noted,
        }
    }

    /// Returns the record of all calls, in order. The history is their replay over the bytes that the disk had first.
    pub(crate) fn calls(&self) -> &[Call]
        ensures record { result.now ≡ self.now.calls }
        ensures replay { self.now.history ≡ replay (start self.now.first) result.now }
    {
        &self.calls
    }

    /// Copies bytes of the disk from an offset on into the start of a buffer. Returns how many.
    pub(crate) fn copy_to(&self, at: u64, buf: &mut [u8]) -> usize
        ensures count { result ≡ min (length buf.old) (length self.now.history.disk - at) }
        ensures copied { buf.new ≡ take result (drop at self.now.history.disk) ++ drop result buf.old }
    {
        let start = (at as usize).min(self.disk.len());
        let rest = &self.disk[start..];
        let count = rest.len().min(buf.len());
        buf[..count].copy_from_slice(&rest[..count]);
        count
    }

    /// Records a call that leaves the disk and the streams as they are.
    pub(crate) fn keep(&mut self, call: Call) -> Result<(), OutOfMemory>
        requires { IsQuiet call self.old.history }
        ensures ok { OnOk result (self.new ≡ recorded call self.old) }
        ensures err { OnErr result (self.new ≡ self.old) }
    {
        push_call(&mut self.calls, call)?;
        Ok(())
    }

    /// Writes bytes at an offset, after zero bytes if it is past the end. If not `ok` it only records the write.
    pub(crate) fn write(&mut self, at: u64, bytes: &[u8], ok: bool) -> Result<(), OutOfMemory>
        ensures ok { OnOk result (self.new ≡ recorded (Write at bytes.now ok) self.old) }
        ensures err { OnErr result (self.new ≡ self.old) }
    {
        let copy = copy_of(self.alloc, bytes)?;
        let call = Call::Write {
            at,
            bytes: copy,
            ok,
        };
        if ok {
            overwrite(&mut self.disk, &mut self.calls, call, at, bytes)?;
            return Ok(());
        }
        push_call(&mut self.calls, call)?;
        Ok(())
    }

    /// Cuts the disk to a length. If not `ok` it only records the cut.
    pub(crate) fn cut(&mut self, len: u64, ok: bool) -> Result<(), OutOfMemory>
        ensures ok { OnOk result (self.new ≡ recorded (Cut len ok) self.old) }
        ensures err { OnErr result (self.new ≡ self.old) }
    {
        push_call(&mut self.calls, Call::Cut { len, ok })?;
        if ok {
            self.disk.truncate(len as usize);
        }
        Ok(())
    }

    /// Sends the first bytes of a piece.
    pub(crate) fn emit(
        &mut self,
        to: Stream,
        piece: &[u8],
        taken: usize,
        ok: bool,
    ) -> Result<(), OutOfMemory>
        requires { taken ≤ length piece.now }
        ensures ok { OnOk result (self.new ≡ recorded (Emit to piece.now taken ok) self.old) }
        ensures err { OnErr result (self.new ≡ self.old) }
    {
        let copy = copy_of(self.alloc, piece)?;
        let call = Call::Emit {
            to,
            piece: copy,
            taken,
            ok,
        };
        match to {
            Stream::Out => {
                send(&mut self.sent, &mut self.calls, call, &piece[..taken])?;
                Ok(())
            }
            Stream::Note => {
                send(&mut self.noted, &mut self.calls, call, &piece[..taken])?;
                Ok(())
            }
        }
    }
}

fn copy_of(alloc: Global, bytes: &[u8]) -> Result<Bytes, OutOfMemory>
    ensures { IfOk result (λ copy. copy ≡ bytes.now) }
{
    Ok(Bytes::from_vec(bytes.to_vec(alloc)?))
}

// Puts a call at the end of a record.
fn push_call(calls: &mut Vec<Call>, call: Call) -> Result<(), OutOfMemory>
    ensures ok { OnOk result (calls.new.items ≡ calls.old.items ++ call ∷ []) }
    ensures err { OnErr result (calls.new.items ≡ calls.old.items) }
{
    match calls.push(call) {
        Ok(()) => Ok(()),
        Err(_) => Err(OutOfMemory),
    }
}

// A slice of u8 is of bytes.
fn are_bytes(bytes: &[u8])
    ensures { AreBytes bytes.now }
{}

// Writes bytes at an offset, after zero bytes if it is past the end, and records the call.
fn overwrite(
    disk: &mut Vec<u8>,
    calls: &mut Vec<Call>,
    call: Call,
    at: u64,
    bytes: &[u8],
) -> Result<(), OutOfMemory>
    ensures recorded { OnOk result (calls.new.items ≡ calls.old.items ++ call ∷ []) }
    ensures written { OnOk result (disk.new.items ≡ overwritten at bytes.now (filled at disk.old.items)) }
    ensures no_call { OnErr result (calls.new.items ≡ calls.old.items) }
    ensures no_byte { OnErr result (disk.new.items ≡ disk.old.items) }
{
    let start = at as usize;
    let len = disk.len();
    fill_up(disk, start, bytes.len())?;
    match push_call(calls, call) {
        Ok(()) => {
            write_within(disk, start, bytes);
            Ok(())
        }
        Err(OutOfMemory) => {
            disk.truncate(len);
            Err(OutOfMemory)
        }
    }
}

// Sends bytes to a stream, and records the call.
fn send(
    stream: &mut Vec<u8>,
    calls: &mut Vec<Call>,
    call: Call,
    bytes: &[u8],
) -> Result<(), OutOfMemory>
    ensures recorded { OnOk result (calls.new.items ≡ calls.old.items ++ call ∷ []) }
    ensures sent { OnOk result (stream.new.items ≡ stream.old.items ++ bytes.now) }
    ensures no_call { OnErr result (calls.new.items ≡ calls.old.items) }
    ensures no_byte { OnErr result (stream.new.items ≡ stream.old.items) }
{
    let len = stream.len();
    stream.extend_from_slice(bytes)?;
    match push_call(calls, call) {
        Ok(()) => Ok(()),
        Err(OutOfMemory) => {
            stream.truncate(len);
            Err(OutOfMemory)
        }
    }
}

// Extends the bytes with zeros, so that `count` bytes fit at an offset.
pub(crate) fn fill_up(content: &mut Vec<u8>, start: usize, count: usize) -> Result<(), OutOfMemory>
    ensures ok { OnOk result (content.new.items ≡ filled (start + count) content.old.items) }
    ensures err { OnErr result (content.new.items ≡ content.old.items) }
{
    // No memory holds more bytes than a `usize` counts.
    let Some(end) = start.checked_add(count) else {
        return Err(OutOfMemory);
    };
    if content.len() < end {
        content.resize(end, 0)?;
    }
    Ok(())
}

pub(crate) fn write_within(content: &mut Vec<u8>, start: usize, bytes: &[u8])
    requires { start + length bytes.now ≤ length content.old.items }
    ensures { content.new.items ≡ overwritten start bytes.now content.old.items }
{
    content[start..start + bytes.len()].copy_from_slice(bytes);
}
