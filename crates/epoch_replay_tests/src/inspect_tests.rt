// Inspections of journals, line by line.
ghost use Rattle.std.specs.Prelude.{◌<◌};

use crate::journals::journal;
use disk_model::{Stream, World};
use epoch_replay::{InspectFault, inspect};
use std::alloc::Global;
use std::test::Fail;
use test_files::EXITS;
use test_journals::{THREE_STEPS, journal_of};
use test_worlds::{Failing, world_of};

type Answer = Result<(), InspectFault>;

// What an inspection of a disk with these bytes answers and sends, if it writes nothing and notes nothing.
fn inspected(
    alloc: Global,
    bytes: &[u8],
    disk: Failing,
    sink: Failing,
    piece: u32,
) -> Result<(Answer, Vec<u8>), Fail>
    requires { 0 < piece }
{
    let mut world = world_of(alloc, disk, sink, piece)?.of_disk(alloc, bytes)?;
    if world.attach("j", false).is_err() {
        return Err("the disk is attached".into());
    }
    let (world, answer) = inspect(alloc, world);
    if world.bytes() != bytes {
        return Err("the disk isn't written".into());
    }
    if !world.sent(Stream::Note).is_empty() {
        return Err("nothing is noted".into());
    }
    Ok((answer, world.sent(Stream::Out).to_vec(alloc)?))
}

// Whether an inspection answers and sends this.
fn is_inspected(
    alloc: Global,
    bytes: &[u8],
    disk: Failing,
    sink: Failing,
    piece: u32,
    answer: Answer,
    text: &[u8],
) -> Result<bool, Fail>
    requires { 0 < piece }
{
    let (came, sent) = inspected(alloc, bytes, disk, sink, piece)?;
    Ok(came == answer && sent.as_slice() == text)
}

// The same where nothing fails.
fn says(alloc: Global, bytes: &[u8], answer: Answer, text: &[u8]) -> Result<bool, Fail> {
    is_inspected(
        alloc,
        bytes,
        Failing::Never,
        Failing::Never,
        4096,
        answer,
        text,
    )
}

// The journal of the guest that exits with 7 after three steps.
fn exits(alloc: Global) -> Result<Vec<u8>, Fail> {
    Ok(journal_of(alloc, &EXITS, &[&THREE_STEPS])?)
}

const EXITS_TEXT: &[u8] = b"guest 96\n1 epoch slices 1 steps 3 answers 0\nend 125\n";

#[test]
fn one_epoch(rt: HostRuntime) -> Result<(), Fail> {
    let alloc = rt.alloc();
    assert!(rt; says(alloc, &exits(alloc)?, Ok(()), EXITS_TEXT)?);
    Ok(())
}

// Two slices and three answers: a read of two bytes, the end of the input, and a reading of the clock.
const ANSWERS: [u8; 38] = [
    0, 2, 0, 0, 0, 1, 0, 0x10, 0x27, 0, 0, 2, 0, 0x01, 0, 0, 0, 3, 0, 0, 0, 0, 2, 0, 0x61, 0x62, 0,
    0, 0, 1, 1, 2, 3, 4, 5, 6, 7, 8,
];

#[test]
fn counts_of_an_epoch(rt: HostRuntime) -> Result<(), Fail> {
    let alloc = rt.alloc();
    let journal = journal_of(alloc, &[], &[&ANSWERS])?;
    let text = b"guest 0\n1 epoch slices 2 steps 10001 answers 3\nend 52\n";
    assert!(rt; says(alloc, &journal, Ok(()), text)?);
    Ok(())
}

// Epochs and marks, numbered together, of which none is judged: `w` and `h` are wrong marks, and `b` is an epoch that
// can't be run.
#[test]
fn marks(rt: HostRuntime) -> Result<(), Fail> {
    let alloc = rt.alloc();
    let text =
        b"guest 140\n1 epoch slices 1 steps 16393 answers 0\n2 mark steps 16393\n3 mark steps 16393\n4 epoch slices 1 steps 16393 answers 0\n5 mark steps 9223372036854775808\n6 epoch slices 1 steps 3 answers 0\nend 209864\n";
    assert!(rt; says(alloc, &journal(alloc, b"emwehb")?, Ok(()), text)?);
    Ok(())
}

#[test]
fn malformed_records(rt: HostRuntime) -> Result<(), Fail> {
    let alloc = rt.alloc();
    let text = b"guest 140\n1 epoch slices 1 steps 16393 answers 0\n2 mark steps 16393\n";
    let bad = Err(InspectFault::BadJournal(3));
    assert!(rt; says(alloc, &journal(alloc, b"em?e")?, bad, text)?);
    let first = Err(InspectFault::BadJournal(1));
    assert!(rt; says(alloc, &journal(alloc, b"?")?, first, b"guest 140\n")?);
    Ok(())
}

// A list that ends before the file does: its last record is torn, or its gate is closed.
#[test]
fn torn_ends(rt: HostRuntime) -> Result<(), Fail> {
    let alloc = rt.alloc();
    let mut file = exits(alloc)?;
    file.pop();
    file.extend_from_slice(&[1, 15, 0, 0, 0, 0, 1])?;
    assert!(rt; says(alloc, &file, Ok(()), EXITS_TEXT)?);
    let mut closed = exits(alloc)?;
    if let Some(gate) = closed.get_mut(105) {
        *gate = 2;
    }
    assert!(rt; says(alloc, &closed, Ok(()), b"guest 96\nend 105\n")?);
    Ok(())
}

#[test]
fn no_journal(rt: HostRuntime) -> Result<(), Fail> {
    let alloc = rt.alloc();
    let none = Err(InspectFault::NoJournal);
    assert!(rt; says(alloc, &[], none, b"")?);
    assert!(rt; says(alloc, &[1], none, b"")?);
    let mut other = exits(alloc)?;
    if let Some(name) = other.get_mut(4) {
        *name = b'2';
    }
    assert!(rt; says(alloc, &other, none, b"")?);
    let mut cut = exits(alloc)?;
    cut.truncate(104);
    assert!(rt; says(alloc, &cut, none, b"")?);
    Ok(())
}

// The attach is the disk's first call. The two reads are the next: all bytes, and none.
#[test]
fn reads_that_fail(rt: HostRuntime) -> Result<(), Fail> {
    let alloc = rt.alloc();
    let file = exits(alloc)?;
    let fault = Err(InspectFault::DiskFault);
    for number in 2..=3u64 {
        let disk = Failing::At(number);
        assert!(rt; is_inspected(alloc, &file, disk, Failing::Never, 4096, fault, b"")?);
    }
    let disk = Failing::At(4);
    assert!(rt; is_inspected(alloc, &file, disk, Failing::Never, 4096, Ok(()), EXITS_TEXT)?);
    Ok(())
}

// Whether an inspection whose emit of one byte with this number fails sends the bytes before it.
fn fails_at_byte(alloc: Global, file: &[u8], number: u64) -> Result<bool, Fail> {
    let fault = Err(InspectFault::OutputFault);
    let before = &EXITS_TEXT[..(number.saturating_sub(1) as usize).min(EXITS_TEXT.len())];
    is_inspected(
        alloc,
        file,
        Failing::Never,
        Failing::At(number),
        1,
        fault,
        before,
    )
}

#[test]
fn emits_that_fail(rt: HostRuntime) -> Result<(), Fail> {
    let alloc = rt.alloc();
    let file = exits(alloc)?;
    for number in 1..=EXITS_TEXT.len() as u64 {
        assert!(rt; fails_at_byte(alloc, &file, number)?);
    }
    let sink = Failing::At(EXITS_TEXT.len() as u64 + 1);
    assert!(rt; is_inspected(alloc, &file, Failing::Never, sink, 1, Ok(()), EXITS_TEXT)?);
    Ok(())
}
