// The lines, byte by byte.
use disk_model::{Failed, Stream, World};
use dp_base::Tid;
use dp_report::{OutputFault, Report, Status, emit_fault, line};
use guest_state::End;
use std::alloc::Global;
use std::test::Fail;

// A world that keeps what Note got. An emit takes seven bytes at most, and fails once `emits` is 0; each call on the
// disk fails.
#[derive(Drop)]
struct Notes {
    noted: Vec<u8>,
    emits: u32,
}

impl World for Notes {
    ghost use Rattle.std.specs.Prelude.{◌-◌, ◌^◌, None};

    ghost history = { λ _. None };

    ghost disk_faults = { λ _. 2 ^ 64 - 1 };

    ghost sink_faults = { λ _. 2 ^ 64 - 1 };

    fn attach(&mut self, _: &str, _: bool) -> Result<(), Failed> {
        Err(Failed)
    }

    fn len(&mut self) -> Result<u64, Failed> {
        Err(Failed)
    }

    fn read_at(&mut self, _: u64, _: &mut [u8]) -> Result<usize, Failed> {
        Err(Failed)
    }

    fn write_at(&mut self, _: u64, _: &[u8]) -> Result<(), Failed> {
        Err(Failed)
    }

    fn cut(&mut self, _: u64) -> Result<(), Failed> {
        Err(Failed)
    }

    fn sync(&mut self) -> Result<(), Failed> {
        Err(Failed)
    }

    fn emit(&mut self, to: Stream, bytes: &[u8]) -> Result<usize, Failed> {
        if self.emits == 0 || to == Stream::Out {
            return Err(Failed);
        }
        self.emits -= 1;
        let count = bytes.len().min(7);
        match self.noted.extend_from_slice(&bytes[..count]) {
            Ok(()) => Ok(count),
            Err(_) => Err(Failed),
        }
    }
}

// What the line of a status comes to where the emit after so many fails, and whether this was noted.
fn noted(
    alloc: Global,
    status: Status,
    emits: u32,
    text: &[u8],
) -> (Result<(), OutputFault>, bool) {
    let mut notes = Notes {
        noted: Vec::new(alloc),
        emits,
    };
    let answer = emit_fault(&mut notes, &status);
    (answer, notes.noted.as_slice() == text)
}

// A status, its number, and its line.
fn lines_of_statuses() -> [(Status, u8, &'static [u8]); 26] {
    [
        (Status::Ok, 0, b""),
        (
            Status::Usage,
            2,
            b"usage: dpcli record GUEST JOURNAL [options], replay JOURNAL [--workers N], inspect JOURNAL, selftest N\n",
        ),
        (
            Status::GuestFault,
            3,
            b"dpcli: guest file could not be read\n",
        ),
        (Status::BadImage(0), 4, b"dpcli: guest refused: 0 Unknown\n"),
        (Status::BadImage(1), 4, b"dpcli: guest refused: 1 TooLong\n"),
        (Status::BadImage(2), 4, b"dpcli: guest refused: 2 NotElf\n"),
        (
            Status::BadImage(3),
            4,
            b"dpcli: guest refused: 3 NotClass32\n",
        ),
        (
            Status::BadImage(4),
            4,
            b"dpcli: guest refused: 4 NotLittle\n",
        ),
        (Status::BadImage(5), 4, b"dpcli: guest refused: 5 NotExec\n"),
        (
            Status::BadImage(6),
            4,
            b"dpcli: guest refused: 6 NotRiscv\n",
        ),
        (
            Status::BadImage(7),
            4,
            b"dpcli: guest refused: 7 BadTable\n",
        ),
        (Status::BadImage(8), 4, b"dpcli: guest refused: 8 Interp\n"),
        (
            Status::BadImage(9),
            4,
            b"dpcli: guest refused: 9 BadSegment\n",
        ),
        (
            Status::BadImage(10),
            4,
            b"dpcli: guest refused: 10 TooManyPages\n",
        ),
        (
            Status::BadImage(11),
            4,
            b"dpcli: guest refused: 11 Unknown\n",
        ),
        (Status::InputFault, 5, b"dpcli: input failed\n"),
        (Status::DiskFault, 6, b"dpcli: journal device failed\n"),
        (Status::OutputFault, 7, b"dpcli: output failed\n"),
        (
            Status::JournalInUse(126),
            8,
            b"dpcli: journal is not empty: 126 bytes\n",
        ),
        (Status::BadJournal(0), 9, b"dpcli: record 0 is malformed\n"),
        (
            Status::BadEpoch(4294967295),
            10,
            b"dpcli: record 4294967295 does not run\n",
        ),
        (
            Status::StepLimit(1000000000),
            11,
            b"dpcli: step limit 1000000000 reached\n",
        ),
        (
            Status::JournalFull { end: 106, need: 20 },
            12,
            b"dpcli: journal full: 106 + 20 bytes\n",
        ),
        (Status::OutOfMemory, 13, b"dpcli: out of memory\n"),
        (Status::NoJournal, 14, b"dpcli: no journal\n"),
        (Status::BadMark(3), 15, b"dpcli: record 3 is a wrong mark\n"),
    ]
}

#[test]
fn statuses(rt: HostRuntime) -> Result<(), Fail> {
    for (status, number, text) in lines_of_statuses() {
        let came = noted(rt.alloc(), status, 100, text);
        assert_eq!(rt; (status.number(), came), (number, (Ok(()), true)));
    }
    Ok(())
}

// "dpcli: " is one emit, and "record " the next.
#[test]
fn failed_emits(rt: HostRuntime) -> Result<(), Fail> {
    let sent: [&[u8]; 5] = [
        b"",
        b"dpcli: ",
        b"dpcli: record ",
        b"dpcli: record 12",
        b"dpcli: record 12 is a w",
    ];
    for (emits, sent) in (0..).zip(sent) {
        let came = noted(rt.alloc(), Status::BadMark(12), emits, sent);
        assert_eq!(rt; came, (Err(OutputFault), true), "behind {emits} emits");
    }
    Ok(())
}

// A report of epochs 1, squashes 2, steps 3 and so many bytes sent, whose digest's bytes are 0 to 31.
fn report(sent: u64, end: End) -> Report {
    Report {
        epochs: 1,
        squashes: 2,
        steps: 3,
        sent,
        end,
        state: [
            0, 1, 2, 3, 4, 5, 6, 7, 8, 9, 10, 11, 12, 13, 14, 15, 16, 17, 18, 19, 20, 21, 22, 23,
            24, 25, 26, 27, 28, 29, 30, 31,
        ],
    }
}

#[test]
fn reports(rt: HostRuntime) -> Result<(), Fail> {
    let trap = End::Trap {
        tid: Tid(1),
        cause: 3,
        value: 0x00010054,
    };
    let cases: [(Report, &[u8]); 4] = [
        (
            report(4, End::Exit(7)),
            b"epochs 1 squashes 2 steps 3 sent 4 end exit 7 state 000102030405060708090a0b0c0d0e0f101112131415161718191a1b1c1d1e1f\n",
        ),
        (
            report(18446744073709551615, trap),
            b"epochs 1 squashes 2 steps 3 sent 18446744073709551615 end trap 3 thread 1 value 00010054 state 000102030405060708090a0b0c0d0e0f101112131415161718191a1b1c1d1e1f\n",
        ),
        (
            report(0, End::Deadlock),
            b"epochs 1 squashes 2 steps 3 sent 0 end deadlock state 000102030405060708090a0b0c0d0e0f101112131415161718191a1b1c1d1e1f\n",
        ),
        (
            report(4, End::None),
            b"epochs 1 squashes 2 steps 3 sent 4 end none state 000102030405060708090a0b0c0d0e0f101112131415161718191a1b1c1d1e1f\n",
        ),
    ];
    for (report, text) in cases {
        assert_eq!(rt; line(rt.alloc(), &report)?.as_slice(), text);
    }
    Ok(())
}
