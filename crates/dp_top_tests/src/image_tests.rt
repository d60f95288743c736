// Files of guests, refused and accepted, recorded and replayed.
use crate::changed_bytes::all_replaced;
use crate::command::ran;
use crate::replay_tests::{REPLAY, plays_as, recorded};
use crate::run_tests::RECORD;
use disk_mem::MemWorld;
use disk_model::Stream;
use dp_report::Status;
use std::alloc::Global;
use std::sync::Wait;
use std::test::Fail;
use std::thread::Threads;
use test_files::{EXITS, repeated, replaced};
use test_journals::journal_of;
use test_worlds::{Failing, disk_of};

// Writes `hi` and a newline out of a second segment of 4,097 bytes, of which the file has three, and exit_all(0): 8
// steps.
const TWO_SEGMENTS: [u8; 151] = [
    0x7f, 0x45, 0x4c, 0x46, 0x01, 0x01, 0x01, 0x00, 0x00, 0x00, 0x00, 0x00, 0x00, 0x00, 0x00, 0x00,
    0x02, 0x00, 0xf3, 0x00, 0x01, 0x00, 0x00, 0x00, 0x74, 0x00, 0x01, 0x00, 0x34, 0x00, 0x00, 0x00,
    0x00, 0x00, 0x00, 0x00, 0x00, 0x00, 0x00, 0x00, 0x34, 0x00, 0x20, 0x00, 0x02, 0x00, 0x00, 0x00,
    0x00, 0x00, 0x00, 0x00, 0x01, 0x00, 0x00, 0x00, 0x00, 0x00, 0x00, 0x00, 0x00, 0x00, 0x01, 0x00,
    0x00, 0x00, 0x01, 0x00, 0x94, 0x00, 0x00, 0x00, 0x94, 0x00, 0x00, 0x00, 0x05, 0x00, 0x00, 0x00,
    0x00, 0x10, 0x00, 0x00, 0x01, 0x00, 0x00, 0x00, 0x94, 0x00, 0x00, 0x00, 0x00, 0x00, 0x02, 0x00,
    0x00, 0x00, 0x02, 0x00, 0x03, 0x00, 0x00, 0x00, 0x01, 0x10, 0x00, 0x00, 0x06, 0x00, 0x00, 0x00,
    0x00, 0x10, 0x00, 0x00, 0x13, 0x05, 0x10, 0x00, 0xb7, 0x05, 0x02, 0x00, 0x13, 0x06, 0x30, 0x00,
    0x93, 0x08, 0x20, 0x00, 0x73, 0x00, 0x00, 0x00, 0x13, 0x05, 0x00, 0x00, 0x93, 0x08, 0x10, 0x00,
    0x73, 0x00, 0x00, 0x00, 0x68, 0x69, 0x0a,
];

// The status of a recording of a file on a disk whose first call would fail, where it makes none, and sends this alone.
fn recording_refused<R: Threads + Wait + Sync>(
    rt: &R,
    alloc: Global,
    file: &[u8],
    line: &[u8],
) -> Result<Status, Fail> {
    let failing = disk_of(alloc, b"", Failing::From(1))?;
    let (after, status) = ran(rt, alloc, &RECORD, file, Failing::Never, &[], failing)?;
    let silent = after.disk_calls() == 0 && after.sent(Stream::Out).is_empty();
    if !silent || after.sent(Stream::Note) != line {
        return Err("the line of the fault alone".into());
    }
    Ok(status)
}

// What a file comes to: the status of that recording, and that of a replay of a journal that has it. Both send the same
// on Note, and nothing else.
fn refused<R: Threads + Wait + Sync>(
    rt: &R,
    alloc: Global,
    file: &[u8],
    line: &[u8],
) -> Result<(Status, Status), Fail> {
    let recorded = recording_refused(rt, alloc, file, line)?;
    let journal = journal_of(alloc, file, &[])?;
    let (replayed, _) = plays_as(rt, alloc, REPLAY, &journal, b"", line)?;
    Ok((recorded, replayed))
}

// The same of the guest of 96 bytes with these bytes from an offset on.
fn changed_refused<R: Threads + Wait + Sync>(
    rt: &R,
    alloc: Global,
    offset: usize,
    by: &[u8],
    line: &[u8],
) -> Result<(Status, Status), Fail> {
    let file = replaced(alloc, &EXITS, offset, by.len(), by)?;
    refused(rt, alloc, &file, line)
}

#[test]
fn images_refused(rt: HostRuntime) -> Result<(), Fail> {
    // In the guest of 96 bytes: an offset, the bytes that are put there, the fault and its line.
    let cases: [(usize, &[u8], u32, &[u8]); 14] = [
        (0, b"\x7e", 2, b"dpcli: guest refused: 2 NotElf\n"),
        (4, b"\x02", 3, b"dpcli: guest refused: 3 NotClass32\n"),
        (5, b"\x02", 4, b"dpcli: guest refused: 4 NotLittle\n"),
        (16, b"\x03", 5, b"dpcli: guest refused: 5 NotExec\n"),
        (18, b"\xb7", 6, b"dpcli: guest refused: 6 NotRiscv\n"),
        (42, b"\x21", 7, b"dpcli: guest refused: 7 BadTable\n"),
        // the greatest number of entries, and the greatest offset of their table
        (44, b"\xff\xff", 7, b"dpcli: guest refused: 7 BadTable\n"),
        (
            28,
            b"\xff\xff\xff\xff",
            7,
            b"dpcli: guest refused: 7 BadTable\n",
        ),
        (52, b"\x03", 8, b"dpcli: guest refused: 8 Interp\n"),
        (72, b"\x5f", 9, b"dpcli: guest refused: 9 BadSegment\n"),
        // a segment that ends a byte past the last page, and one of the greatest size
        (
            60,
            b"\xa1\xef\xff\xff",
            9,
            b"dpcli: guest refused: 9 BadSegment\n",
        ),
        (
            72,
            b"\xff\xff\xff\xff",
            9,
            b"dpcli: guest refused: 9 BadSegment\n",
        ),
        // 1,009 pages and the stack's 16
        (
            72,
            b"\x01\0\x3f\0",
            10,
            b"dpcli: guest refused: 10 TooManyPages\n",
        ),
        // no class of files, and for no machine: the first applies
        (
            4,
            b"\0\x01\x01\0\0\0\0\0\0\0\0\0\x02\0\xf2",
            3,
            b"dpcli: guest refused: 3 NotClass32\n",
        ),
    ];
    for (offset, by, number, line) in cases {
        let fault = Status::BadImage(number);
        assert_eq!(rt;
            changed_refused(&rt, rt.alloc(), offset, by, line)?,
            (fault, fault)
        );
    }
    Ok(())
}

// The guest of 96 bytes, cut to each length: its header has 52 bytes, and the table of its segments ends at 84.
#[test]
fn images_cut_short(rt: HostRuntime) -> Result<(), Fail> {
    let cases: [(usize, usize, u32, &[u8]); 3] = [
        (0, 51, 2, b"dpcli: guest refused: 2 NotElf\n"),
        (52, 83, 7, b"dpcli: guest refused: 7 BadTable\n"),
        (84, 95, 9, b"dpcli: guest refused: 9 BadSegment\n"),
    ];
    for (first, last, number, line) in cases {
        let fault = Status::BadImage(number);
        for len in first..=last {
            let (cut, _) = EXITS.split_at(len.min(EXITS.len()));
            let came = refused(&rt, rt.alloc(), cut, line)?;
            assert_eq!(rt; (came, cut.len()), ((fault, fault), len));
        }
    }
    Ok(())
}

#[test]
fn images_of_no_byte_and_of_too_many(rt: HostRuntime) -> Result<(), Fail> {
    let fault = Status::BadImage(2);
    let line: &[u8] = b"dpcli: guest refused: 2 NotElf\n";
    assert_eq!(rt; refused(&rt, rt.alloc(), &[], line)?, (fault, fault));
    let long = repeated(rt.alloc(), 1_048_577)?;
    let fault = Status::BadImage(1);
    let line: &[u8] = b"dpcli: guest refused: 1 TooLong\n";
    assert_eq!(rt; refused(&rt, rt.alloc(), &long, line)?, (fault, fault));
    Ok(())
}

// What a recording left, as it came to this status: that, the journal's length, and the status of its replay, where
// both send the same on Out and on Note.
fn replayed_as<R: Threads + Wait + Sync>(
    rt: &R,
    alloc: Global,
    after: &MemWorld,
    status: Status,
    sent: &[u8],
    noted: &[u8],
) -> Result<(Status, usize, Status), Fail> {
    if after.sent(Stream::Out) != sent || after.sent(Stream::Note) != noted {
        return Err("other bytes on Out or on Note".into());
    }
    let (replayed, _) = plays_as(rt, alloc, REPLAY, after.bytes(), sent, noted)?;
    Ok((status, after.bytes().len(), replayed))
}

// The same of a recording of a file.
fn recorded_as<R: Threads + Wait + Sync>(
    rt: &R,
    alloc: Global,
    file: &[u8],
    sent: &[u8],
    noted: &[u8],
) -> Result<(Status, usize, Status), Fail> {
    let (after, status) = recorded(rt, alloc, &RECORD, file)?;
    replayed_as(rt, alloc, &after, status, sent, noted)
}

// The digests were had from the format's tables.
#[test]
fn images_accepted(rt: HostRuntime) -> Result<(), Fail> {
    let noted: &[u8] =
        b"epochs 1 squashes 0 steps 3 sent 0 end exit 7 state 06a721f5c541ef4b3c446ddf48d3ea4072cdd1feb1e0e7aa9b5e7eb7211a6a91\n";
    // e_flags, and a second program header of a type that isn't known
    let file = all_replaced(
        rt.alloc(),
        &EXITS,
        &[
            (24, 1, b"\x74"),
            (36, 1, b"\x01"),
            (44, 1, b"\x02"),
            (68, 5, b"\x80\0\0\0\x80"),
            (
                84,
                0,
                b"\x03\0\0\x70\0\0\0\0\0\0\0\0\0\0\0\0\0\0\0\0\0\0\0\0\0\0\0\0\0\0\0\0",
            ),
        ],
    )?;
    let came = recorded_as(&rt, rt.alloc(), &file, b"", noted)?;
    assert_eq!(rt; came, (Status::Ok, 158, Status::Ok));
    let noted: &[u8] =
        b"epochs 1 squashes 0 steps 8 sent 3 end exit 0 state 72ae5c3bfa6d562ea014d581330a795ded39dfb7aadbebe470e74bc9a0917fdf\n";
    let came = recorded_as(&rt, rt.alloc(), &TWO_SEGMENTS, b"hi\n", noted)?;
    assert_eq!(rt; came, (Status::Ok, 181, Status::Ok));
    Ok(())
}

// The guest of 96 bytes as a segment that ends where memory does, so that nothing is mapped at its entry; and with as
// many pages as there may be.
#[test]
fn images_at_their_bounds(rt: HostRuntime) -> Result<(), Fail> {
    let cases: [(usize, &[u8], &[u8]); 2] = [
        (
            60,
            b"\xa0\xef\xff\xff",
            b"epochs 1 squashes 0 steps 1 sent 0 end trap 1 thread 1 value 00010054 state b0195e7131095ce710db8f711b75151e4008e4d86b34881f094043eb987eb0ab\n",
        ),
        (
            72,
            b"\0\0\x3f\0",
            b"epochs 1 squashes 0 steps 3 sent 0 end exit 7 state 608f7d9a3e91a785569be376ccb3a41f2ea12f515b7c8caa5de30deea185cb82\n",
        ),
    ];
    for (offset, by, noted) in cases {
        let file = replaced(rt.alloc(), &EXITS, offset, by.len(), by)?;
        let came = recorded_as(&rt, rt.alloc(), &file, b"", noted)?;
        assert_eq!(rt; came, (Status::Ok, 126, Status::Ok));
    }
    Ok(())
}

// EBREAK first: one step, and a trap is an end like another.
#[test]
fn a_guest_that_traps(rt: HostRuntime) -> Result<(), Fail> {
    let noted: &[u8] =
        b"epochs 1 squashes 0 steps 1 sent 0 end trap 3 thread 1 value 00010054 state 802cf0037a09142bddca6a322692520e7b8b4eaa4abd6fc9d59abc8393efc7fa\n";
    let changes: [(usize, usize, &[u8]); 2] = [
        (84, 12, b"\x73\0\x10\0"),
        (68, 5, b"\x58\0\0\0\x58"),
    ];
    let file = all_replaced(rt.alloc(), &EXITS, &changes)?;
    let came = recorded_as(&rt, rt.alloc(), &file, b"", noted)?;
    assert_eq!(rt; came, (Status::Ok, 118, Status::Ok));
    Ok(())
}
