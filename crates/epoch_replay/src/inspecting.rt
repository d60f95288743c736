// A journal is read whole, and its records are listed.
ghost use Rattle.std.specs.Prelude.{◌≡◌, ◌<◌, ◌≤◌, Err, IfOk, IsErr, IsErrOf, IsTrue, OnOk, is_ok, length, Option};
ghost use Rattle.dp_base.specs.declared.limits.TheConstants.{MAX_JOURNAL_BYTES};
ghost use Rattle.dp_base.specs.Counts.{Rose};
ghost use Rattle.disk_model.specs.History.{History};
ghost use Rattle.disk_model.specs.Known.{IfKnown, known_disk};
ghost use Rattle.disk_model.specs.declared.world.Stream.TheVariants.{Out};
ghost use Rattle.device.specs.Sending.{Sent};
ghost use Rattle.journal_text.specs.Reading.{Reading, reads};
ghost use Rattle.epoch_replay.specs.declared.inspect_fault.InspectFault.TheVariants as faults;
ghost use Rattle.epoch_replay.specs.Inspecting.{Inspected, IsWithinFile, ListedOn, ListedSoFar, InspectMetNoOther};
ghost use Rattle.epoch_replay.specs.Inspection.{end_line, epoch_line, guest_line, mark_line};
ghost use Rattle.epoch_replay.specs.Replaying.{OnDisk};

use crate::counts::{EpochCounts, epoch_counts, marked_steps};
use crate::inspect_fault::InspectFault;
use device::send_pieces;
use disk_model::{Failed, Stream, World};
use epoch_journal::read_whole;
use itoa::Buffer;
use journal_text::{Head, Rec, header, next_record};
use std::alloc::Global;

/// How far an inspection is in its journal.
#[derive(Clone, Copy)]
pub(crate) struct Listing {
    /// The offset of the next record's gate.
    pub at: u64,
    /// The number of the next record, from 1 on.
    pub number: u32,
}

/// Lists the journal on the attached disk, on Out: the length of the guest's file, a line for each record, and the
/// offset at which the list ends. Epochs and marks are numbered together. No record is run. Nothing is sent on Note.
/// The world is returned whatever happens. The disk is read once, from its start, and isn't written.
///
/// No memory is taken beside that for the journal's bytes, and none after the first line.
///
/// # Errors
///
/// See [`InspectFault`]. At a malformed record the lines of the records before it were sent, and no line for the end.
pub fn inspect<W: World>(alloc: Global, mut world: W) -> (W, Result<(), InspectFault>)
    ensures inspected { OnDisk (known_disk (W.history world))
        (λ bytes. Inspected (reads bytes) (W.history world) (W.history result.0) result.1) }
    ensures others { InspectMetNoOther result.1 (W.disk_faults world) (W.disk_faults result.0) (W.sink_faults world) (W.sink_faults result.0) }
    ensures disk_cause { result.1 ≡ Err faults.DiskFault → Rose (W.disk_faults world) (W.disk_faults result.0) }
    ensures sink_cause { result.1 ≡ Err faults.OutputFault → Rose (W.sink_faults world) (W.sink_faults result.0) }
    ensures disk_count { W.disk_faults world ≤ W.disk_faults result.0 }
    ensures sink_count { W.sink_faults world ≤ W.sink_faults result.0 }
{
    let answer = inspect_disk(alloc, &mut world);
    (world, answer)
}

fn inspect_disk<W: World>(alloc: Global, world: &mut W) -> Result<(), InspectFault>
    ensures inspected { OnDisk (known_disk (W.history world.old))
        (λ bytes. Inspected (reads bytes) (W.history world.old) (W.history world.new) result) }
    ensures others { InspectMetNoOther result (W.disk_faults world.old) (W.disk_faults world.new)
        (W.sink_faults world.old) (W.sink_faults world.new) }
    ensures disk_cause { IsErrOf result InspectFault.DiskFault →
        Rose (W.disk_faults world.old) (W.disk_faults world.new) }
    ensures sink_cause { IsErrOf result InspectFault.OutputFault →
        Rose (W.sink_faults world.old) (W.sink_faults world.new) }
    ensures disk_count { W.disk_faults world.old ≤ W.disk_faults world.new }
    ensures sink_count { W.sink_faults world.old ≤ W.sink_faults world.new }
{
    let file = read_whole(alloc, world)?;
    inspect_file(world, &file)
}

// Lists a journal that was read.
fn inspect_file<W: World>(world: &mut W, file: &[u8]) -> Result<(), InspectFault>
    requires { length file.now ≤ MAX_JOURNAL_BYTES }
    ensures inspected { Inspected (reads file.now) (W.history world.old) (W.history world.new) result }
    ensures others { InspectMetNoOther result (W.disk_faults world.old) (W.disk_faults world.new)
        (W.sink_faults world.old) (W.sink_faults world.new) }
    ensures no_disk_fault { IsErrOf result InspectFault.DiskFault → ⊥ }
    ensures sink_cause { IsErrOf result InspectFault.OutputFault →
        Rose (W.sink_faults world.old) (W.sink_faults world.new) }
    ensures disk_count { W.disk_faults world.new ≡ W.disk_faults world.old }
    ensures sink_count { W.sink_faults world.old ≤ W.sink_faults world.new }
{
    dp_base::laws::headers();
    dp_base::laws::lengths();
    journal_text::laws::a_header_stands_first();
    journal_text::laws::a_journal_is_its_parts();
    journal_text::laws::reading_goes_on();
    let guest_len = match header(file) {
        Head::Whole { guest_len } => guest_len,
        Head::NoJournal => return Err(InspectFault::NoJournal),
    };
    send_guest_line(world, guest_len)?;
    let mut here = Listing {
        at: 9 + guest_len as u64,
        number: 1,
    };
    let mut more = true;
    'records: while more {
        more = list_record(world, file, &mut here)?;
    }
    Ok(())
}

// Sends the line of the record at the inspection's offset, or of the list's end. Returns whether there was a record.
fn list_record<W: World>(
    world: &mut W,
    file: &[u8],
    here: &mut Listing,
) -> Result<bool, InspectFault>
    requires few { length file.now ≤ MAX_JOURNAL_BYTES }
    requires placed { IsWithinFile file.now here.old }
    ensures listed { (reading : Reading) (first : Option History) →
        ListedSoFar reading file.now first (W.history world.old) here.old →
        ListedOn reading file.now first (W.history world.new) here.new result }
    ensures others { InspectMetNoOther result (W.disk_faults world.old) (W.disk_faults world.new)
        (W.sink_faults world.old) (W.sink_faults world.new) }
    ensures placed { IfOk result (λ more. IsWithinFile file.now here.new) }
    ensures goes_on { IfOk result (λ more. IsTrue more → here.old.at < here.new.at) }
    ensures stays { IfOk result (λ more. here.old.at ≤ here.new.at) }
    ensures no_disk_fault { IsErrOf result InspectFault.DiskFault → ⊥ }
    ensures sink_cause { IsErrOf result InspectFault.OutputFault →
        Rose (W.sink_faults world.old) (W.sink_faults world.new) }
    ensures disk_count { W.disk_faults world.new ≡ W.disk_faults world.old }
    ensures sink_count { W.sink_faults world.old ≤ W.sink_faults world.new }
{
    journal_text::laws::reading_goes_on();
    journal_text::laws::a_record_stands_at_its_gate();
    dp_base::laws::whole_values();
    match next_record(file, here.at) {
        Rec::Epoch { body, next } => {
            let Some(counts) = epoch_counts(body) else {
                return Err(InspectFault::BadJournal(here.number));
            };
            send_epoch_line(world, here.number, counts)?;
            here.at = next;
            here.number += 1;
            Ok(true)
        }
        Rec::Mark { body, next } => {
            let Some(steps) = marked_steps(body) else {
                return Err(InspectFault::BadJournal(here.number));
            };
            send_mark_line(world, here.number, steps)?;
            here.at = next;
            here.number += 1;
            Ok(true)
        }
        Rec::Partial { body, next } => {
            let Some(steps) = marked_steps(body) else {
                return Err(InspectFault::BadJournal(here.number));
            };
            send_mark_line(world, here.number, steps)?;
            here.at = next;
            here.number += 1;
            Ok(true)
        }
        Rec::End { at } => {
            send_end_line(world, at)?;
            Ok(false)
        }
        Rec::Bad => Err(InspectFault::BadJournal(here.number)),
    }
}

fn send_guest_line<W: World>(world: &mut W, bytes: u32) -> Result<(), Failed>
    ensures history { IfKnown (Sent Out (guest_line bytes) (is_ok result)) (W.history world.old) (W.history world.new) }
    ensures none { OnOk result (W.sink_faults world.new ≡ W.sink_faults world.old) }
    ensures cause { IsErr result → Rose (W.sink_faults world.old) (W.sink_faults world.new) }
    ensures count { W.sink_faults world.old ≤ W.sink_faults world.new }
    ensures disk { W.disk_faults world.new ≡ W.disk_faults world.old }
{
    let mut digits = Buffer::new();
    send_pieces(
        world,
        Stream::Out,
        &[b"guest ", digits.format(bytes).as_bytes(), b"\n"],
    )
}

fn send_epoch_line<W: World>(world: &mut W, number: u32, counts: EpochCounts) -> Result<(), Failed>
    ensures history { IfKnown (Sent Out (epoch_line number counts.slices counts.steps counts.answers) (is_ok result))
        (W.history world.old) (W.history world.new) }
    ensures none { OnOk result (W.sink_faults world.new ≡ W.sink_faults world.old) }
    ensures cause { IsErr result → Rose (W.sink_faults world.old) (W.sink_faults world.new) }
    ensures count { W.sink_faults world.old ≤ W.sink_faults world.new }
    ensures disk { W.disk_faults world.new ≡ W.disk_faults world.old }
{
    let mut number_digits = Buffer::new();
    let mut slice_digits = Buffer::new();
    let mut step_digits = Buffer::new();
    let mut answer_digits = Buffer::new();
    send_pieces(
        world,
        Stream::Out,
        &[
            number_digits.format(number).as_bytes(),
            b" epoch slices ",
            slice_digits.format(counts.slices).as_bytes(),
            b" steps ",
            step_digits.format(counts.steps).as_bytes(),
            b" answers ",
            answer_digits.format(counts.answers).as_bytes(),
            b"\n",
        ],
    )
}

fn send_mark_line<W: World>(world: &mut W, number: u32, steps: u64) -> Result<(), Failed>
    ensures history { IfKnown (Sent Out (mark_line number steps) (is_ok result)) (W.history world.old) (W.history world.new) }
    ensures none { OnOk result (W.sink_faults world.new ≡ W.sink_faults world.old) }
    ensures cause { IsErr result → Rose (W.sink_faults world.old) (W.sink_faults world.new) }
    ensures count { W.sink_faults world.old ≤ W.sink_faults world.new }
    ensures disk { W.disk_faults world.new ≡ W.disk_faults world.old }
{
    let mut number_digits = Buffer::new();
    let mut step_digits = Buffer::new();
    send_pieces(
        world,
        Stream::Out,
        &[
            number_digits.format(number).as_bytes(),
            b" mark steps ",
            step_digits.format(steps).as_bytes(),
            b"\n",
        ],
    )
}

fn send_end_line<W: World>(world: &mut W, at: u64) -> Result<(), Failed>
    ensures history { IfKnown (Sent Out (end_line at) (is_ok result)) (W.history world.old) (W.history world.new) }
    ensures none { OnOk result (W.sink_faults world.new ≡ W.sink_faults world.old) }
    ensures cause { IsErr result → Rose (W.sink_faults world.old) (W.sink_faults world.new) }
    ensures count { W.sink_faults world.old ≤ W.sink_faults world.new }
    ensures disk { W.disk_faults world.new ≡ W.disk_faults world.old }
{
    let mut digits = Buffer::new();
    send_pieces(
        world,
        Stream::Out,
        &[b"end ", digits.format(at).as_bytes(), b"\n"],
    )
}
