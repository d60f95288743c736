// Records of a journal, whole and damaged: each field at its least, at its greatest and one past.
use super::mark_of_start;
use std::alloc::Global;
use std::test::Fail;
use test_files::{EXITS, WRITES, replaced};
use test_journals::{Kind, records_of, seen};

// Whether a body is of this kind and the journal ends after its record. It is a bad record's else.
fn is_record(alloc: Global, body: &[u8], wanted: Kind) -> Result<bool, Fail> {
    let file = records_of(alloc, &[body])?;
    let (kind, next, len) = seen(&file, 0);
    if kind == Kind::Bad {
        return Ok(false);
    }
    if kind == wanted && len == body.len() && seen(&file, next) == (Kind::End, next, 0) {
        return Ok(true);
    }
    Err("neither of this kind nor bad".into())
}

// Whether a mark's body with some bytes replaced is a mark's.
fn is_mark(alloc: Global, body: &[u8], at: usize, count: usize, by: &[u8]) -> Result<bool, Fail> {
    is_record(alloc, &replaced(alloc, body, at, count, by)?, Kind::Mark)
}

// The tables below count on it: 1 byte of kind, and 69,879 of the state.
#[test]
fn length_of_a_start(rt: HostRuntime) -> Result<(), Fail> {
    assert_eq!(rt; mark_of_start(rt.alloc(), &EXITS)?.len(), 69_880);
    assert_eq!(rt; mark_of_start(rt.alloc(), &WRITES)?.len(), 69_880);
    Ok(())
}

// In each table a row is an offset in the body, how many bytes are replaced, by what, and whether it is a mark then.
const NUMBERS: [(usize, usize, &[u8], bool); 11] = [
    // the kind
    (0, 1, b"\x01", true),
    (0, 1, b"\x02", false),
    // steps and input
    (1, 8, b"\xff\xff\xff\xff\xff\xff\xff\xff", true),
    (9, 8, b"\xff\xff\xff\xff\xff\xff\xff\xff", true),
    // the heap's start and the break: 0, FFFFF000 and one past; no multiple of 4,096; below the start
    (17, 8, b"\x00\x00\x00\x00\x00\x00\x00\x00", true),
    (17, 8, b"\x00\xf0\xff\xff\x00\xf0\xff\xff", true),
    (17, 8, b"\x00\xf0\xff\xff\x01\xf0\xff\xff", false),
    (17, 8, b"\x01\x10\x01\x00\x01\x10\x01\x00", false),
    (21, 4, b"\xff\x0f\x01\x00", false),
    (21, 4, b"\x01\x10\x01\x00", true),
    (21, 4, b"\x01\xf0\xff\xff", false),
];

#[test]
fn numbers_of_a_mark(rt: HostRuntime) -> Result<(), Fail> {
    let body = mark_of_start(rt.alloc(), &EXITS)?;
    for (at, count, by, answer) in NUMBERS {
        assert_eq!(rt; is_mark(rt.alloc(), &body, at, count, by)?, answer);
    }
    Ok(())
}

const END_AND_THREADS: [(usize, usize, &[u8], bool); 12] = [
    // the end: each kind, and one past; a trap of threads 0, 1 and 2, and of causes 0, 7 and 8
    (25, 1, b"\x01\xff\xff\xff\xff", true),
    (25, 1, b"\x02\x01\x00\x00\x00\x00\x00\x00", true),
    (25, 1, b"\x02\x01\x00\x07\xff\xff\xff\xff", true),
    (25, 1, b"\x02\x01\x00\x08\xff\xff\xff\xff", false),
    (25, 1, b"\x02\x00\x00\x07\xff\xff\xff\xff", false),
    (25, 1, b"\x02\x02\x00\x07\xff\xff\xff\xff", false),
    (25, 1, b"\x03", true),
    (25, 1, b"\x04", false),
    // threads: none, and one that waits, that has exited, and of a fourth kind
    (26, 135, b"\x00\x00", false),
    (28, 1, b"\x01\xfc\xff\xff\xff", true),
    (28, 133, b"\x02\xff\xff\xff\xff", true),
    (28, 1, b"\x03", false),
];

#[test]
fn end_and_threads_of_a_mark(rt: HostRuntime) -> Result<(), Fail> {
    let body = mark_of_start(rt.alloc(), &EXITS)?;
    for (at, count, by, answer) in END_AND_THREADS {
        assert_eq!(rt; is_mark(rt.alloc(), &body, at, count, by)?, answer);
    }
    Ok(())
}

const PAGES: [(usize, usize, &[u8], bool); 12] = [
    // none, one more than there are, and one fewer
    (161, 69_719, b"\x00\x00", true),
    (161, 2, b"\x12\x00", false),
    (161, 2, b"\x10\x00", false),
    // the first page has the number below that of the second, the same, and the one above
    (163, 4, b"\xef\xff\x07\x00", true),
    (163, 4, b"\xf0\xff\x07\x00", false),
    (163, 4, b"\xf1\xff\x07\x00", false),
    // flags
    (167, 1, b"\x07", true),
    (167, 1, b"\x08", false),
    // the last page has the greatest number, and one past
    (65_779, 4, b"\xfe\xff\x0f\x00", true),
    (65_779, 4, b"\xff\xff\x0f\x00", false),
    // a byte too few, and a byte too many
    (69_879, 1, b"", false),
    (69_880, 0, b"\x00", false),
];

#[test]
fn pages_of_a_mark(rt: HostRuntime) -> Result<(), Fail> {
    let body = mark_of_start(rt.alloc(), &EXITS)?;
    for (at, count, by, answer) in PAGES {
        assert_eq!(rt; is_mark(rt.alloc(), &body, at, count, by)?, answer);
    }
    Ok(())
}

// A mark with so many pages of zeros, numbered from 0 on. It has one thread, which is gone with code 7.
fn body_of_pages(alloc: Global, count: u16) -> Result<Vec<u8>, Fail> {
    let mut body = Vec::new(alloc);
    body.extend_from_slice(b"\x01\x03\0\0\0\0\0\0\0\0\0\0\0\0\0\0\0\0\x10\x01\0\0\x10\x01\0\0")?;
    body.extend_from_slice(b"\x01\0\x02\x07\0\0\0")?;
    body.extend_from_slice(&u16::to_le_bytes(count))?;
    for number in 0..count {
        body.extend_from_slice(&u32::to_le_bytes(u32::from(number)))?;
        body.push(5)?;
        body.extend_from_slice(&[0; 4096])?;
    }
    Ok(body)
}

// At most 1,024 pages.
#[test]
fn page_counts_of_a_mark(rt: HostRuntime) -> Result<(), Fail> {
    for (count, answer) in [(0, true), (1, true), (1_024, true), (1_025, false)] {
        let body = body_of_pages(rt.alloc(), count)?;
        assert_eq!(rt; is_record(rt.alloc(), &body, Kind::Mark)?, answer);
    }
    Ok(())
}

// An epoch's body: kind, how many slices, each slice's thread and steps, how many answers, and each answer: a read's is
// a length and its bytes, a clock's is nanoseconds.
const SLICES: [(&[u8], bool); 12] = [
    // thread 0, the least and the greatest
    (b"\x00\x01\0\0\0\x00\x00\x01\0\0\0\0\0\0\0", false),
    (b"\x00\x01\0\0\0\x01\x00\x01\0\0\0\0\0\0\0", true),
    (b"\x00\x01\0\0\0\xff\xff\x01\0\0\0\0\0\0\0", true),
    // steps: 0, 1,000,000 and one past, also of two slices
    (b"\x00\x01\0\0\0\x01\x00\x00\0\0\0\0\0\0\0", false),
    (b"\x00\x01\0\0\0\x01\x00\x40\x42\x0f\0\0\0\0\0", true),
    (b"\x00\x01\0\0\0\x01\x00\x41\x42\x0f\0\0\0\0\0", false),
    (
        b"\x00\x02\0\0\0\x01\x00\x3f\x42\x0f\0\x01\x00\x01\0\0\0\0\0\0\0",
        true,
    ),
    (
        b"\x00\x02\0\0\0\x01\x00\x3f\x42\x0f\0\x01\x00\x02\0\0\0\0\0\0\0",
        false,
    ),
    (b"\x00\x01\0\0\0\x01\x00\xff\xff\xff\xff\0\0\0\0", false),
    // no slice, one more than there is, and as many as can be said
    (b"\x00\0\0\0\0\0\0\0\0", false),
    (b"\x00\x02\0\0\0\x01\x00\x01\0\0\0\0\0\0\0", false),
    (b"\x00\xff\xff\xff\xff\x01\x00\x01\0\0\0\0\0\0\0", false),
];

#[test]
fn slices_of_an_epoch(rt: HostRuntime) -> Result<(), Fail> {
    for (body, answer) in SLICES {
        assert_eq!(rt; is_record(rt.alloc(), body, Kind::Epoch)?, answer);
    }
    Ok(())
}

// What follows a slice of thread 1 with one step.
const ANSWERS: [(&[u8], bool); 11] = [
    // none, one more than there is, and as many as can be said
    (b"\0\0\0\0", true),
    (b"\x01\0\0\0", false),
    (b"\xff\xff\xff\xff", false),
    // a read of nothing, and of one byte more than there is
    (b"\x01\0\0\0\x00\0\0", true),
    (b"\x01\0\0\0\x00\x02\0a", false),
    // a clock at 0 and at its greatest, and a third kind of answer
    (b"\x01\0\0\0\x01\0\0\0\0\0\0\0\0", true),
    (b"\x01\0\0\0\x01\xff\xff\xff\xff\xff\xff\xff\xff", true),
    (b"\x01\0\0\0\x02\0\0\0\0\0\0\0\0", false),
    // a byte too few, a byte too many, and nothing
    (b"\0\0\0", false),
    (b"\0\0\0\0\0", false),
    (b"", false),
];

#[test]
fn answers_of_an_epoch(rt: HostRuntime) -> Result<(), Fail> {
    for (behind, answer) in ANSWERS {
        let body = replaced(
            rt.alloc(),
            b"\x00\x01\0\0\0\x01\x00\x01\0\0\0",
            11,
            0,
            behind,
        )?;
        assert_eq!(rt; is_record(rt.alloc(), &body, Kind::Epoch)?, answer);
    }
    Ok(())
}

// The length of a read's answer is at most 4,096.
#[test]
fn longest_answer_of_an_epoch(rt: HostRuntime) -> Result<(), Fail> {
    for (len, answer) in [(4_096u16, true), (4_097, false)] {
        let mut body = b"\x00\x01\0\0\0\x01\x00\x01\0\0\0\x01\0\0\0\x00".to_vec(rt.alloc())?;
        body.extend_from_slice(&u16::to_le_bytes(len))?;
        for _ in 0..len {
            body.push(0)?;
        }
        assert_eq!(rt; is_record(rt.alloc(), &body, Kind::Epoch)?, answer);
    }
    Ok(())
}
