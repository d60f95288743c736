ghost use Rattle.std.specs.Prelude.{◌≡◌, ◌≤◌, ◌++◌, IsErr, codes, decimal, is_ok};
ghost use Rattle.dp_base.specs.Counts.{Rose};
ghost use Rattle.disk_model.specs.Known.{IfKnown};
ghost use Rattle.disk_model.specs.declared.world.Stream.TheVariants.{Note};
ghost use Rattle.device.specs.Sending.{Sent, joined_pieces};
ghost use Rattle.dp_report.specs.Texts.{image_fault_text, status_line};

use crate::output_fault::OutputFault;
use crate::status::Status;
use device::send_pieces;
use disk_model::{Stream, World};
use itoa::Buffer;

/// Emits the status's line on Note, its newline included. At `Ok` there is no line, and no call is made. Takes no
/// memory.
///
/// # Errors
///
/// `OutputFault` if an emit failed. Any prefix of the line may have been sent, and nothing else was.
pub fn emit_fault<W: World>(world: &mut W, status: &Status) -> Result<(), OutputFault>
    ensures history { IfKnown (Sent Note (status_line status.now) (is_ok result)) (W.history world.old) (W.history world.new) }
    ensures nothing { status.now ≡ Status.Ok → world.new ≡ world.old }
    ensures cause { IsErr result → Rose (W.sink_faults world.old) (W.sink_faults world.new) }
    ensures count { W.sink_faults world.old ≤ W.sink_faults world.new }
    ensures disk { W.disk_faults world.new ≡ W.disk_faults world.old }
{
    let mut digits = Buffer::new();
    match *status {
        Status::Ok => Ok(()),
        Status::Usage => note(
            world,
            &[
                b"usage: dpcli record GUEST JOURNAL [options], replay JOURNAL [--workers N], inspect JOURNAL, selftest N\n",
            ],
        ),
        Status::GuestFault => note(world, &[b"dpcli: guest file could not be read\n"]),
        Status::BadImage(fault) => note(
            world,
            &[
                b"dpcli: guest refused: ",
                digits.format(fault).as_bytes(),
                b" ",
                image_fault_name(fault),
                b"\n",
            ],
        ),
        Status::InputFault => note(world, &[b"dpcli: input failed\n"]),
        Status::DiskFault => note(world, &[b"dpcli: journal device failed\n"]),
        Status::OutputFault => note(world, &[b"dpcli: output failed\n"]),
        Status::JournalInUse(len) => note(
            world,
            &[
                b"dpcli: journal is not empty: ",
                digits.format(len).as_bytes(),
                b" bytes\n",
            ],
        ),
        Status::BadJournal(number) => note_record(world, number, b" is malformed\n"),
        Status::BadEpoch(number) => note_record(world, number, b" does not run\n"),
        Status::StepLimit(steps) => note(
            world,
            &[
                b"dpcli: step limit ",
                digits.format(steps).as_bytes(),
                b" reached\n",
            ],
        ),
        Status::JournalFull { end, need } => {
            let mut need_digits = Buffer::new();
            note(
                world,
                &[
                    b"dpcli: journal full: ",
                    digits.format(end).as_bytes(),
                    b" + ",
                    need_digits.format(need).as_bytes(),
                    b" bytes\n",
                ],
            )
        }
        Status::OutOfMemory => note(world, &[b"dpcli: out of memory\n"]),
        Status::NoJournal => note(world, &[b"dpcli: no journal\n"]),
        Status::BadMark(number) => note_record(world, number, b" is a wrong mark\n"),
    }
}

// Emits what is to be said of the journal's record with this number.
fn note_record<W: World>(world: &mut W, number: u32, said: &[u8]) -> Result<(), OutputFault>
    ensures history { IfKnown (Sent Note (codes "dpcli: record " ++ decimal number ++ said.now) (is_ok result))
        (W.history world.old) (W.history world.new) }
    ensures cause { IsErr result → Rose (W.sink_faults world.old) (W.sink_faults world.new) }
    ensures count { W.sink_faults world.old ≤ W.sink_faults world.new }
    ensures disk { W.disk_faults world.new ≡ W.disk_faults world.old }
{
    let mut digits = Buffer::new();
    note(
        world,
        &[b"dpcli: record ", digits.format(number).as_bytes(), said],
    )
}

// Emits these pieces on Note.
fn note<W: World>(world: &mut W, pieces: &[&[u8]]) -> Result<(), OutputFault>
    ensures history { IfKnown (Sent Note (joined_pieces pieces.now) (is_ok result)) (W.history world.old) (W.history world.new) }
    ensures cause { IsErr result → Rose (W.sink_faults world.old) (W.sink_faults world.new) }
    ensures count { W.sink_faults world.old ≤ W.sink_faults world.new }
    ensures disk { W.disk_faults world.new ≡ W.disk_faults world.old }
{
    match send_pieces(world, Stream::Note, pieces) {
        Ok(()) => Ok(()),
        Err(_) => Err(OutputFault),
    }
}

// Why a guest's file is refused.
fn image_fault_name(fault: u32) -> &'static [u8]
    ensures { result.now ≡ image_fault_text fault }
{
    match fault {
        1 => b"TooLong",
        2 => b"NotElf",
        3 => b"NotClass32",
        4 => b"NotLittle",
        5 => b"NotExec",
        6 => b"NotRiscv",
        7 => b"BadTable",
        8 => b"Interp",
        9 => b"BadSegment",
        10 => b"TooManyPages",
        _ => b"Unknown",
    }
}
