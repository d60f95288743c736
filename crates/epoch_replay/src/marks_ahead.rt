// Marks ahead of a replay: where they are, by the lengths and kinds of records alone, and which of them have to be opened.
// Nothing of this is relied on, since a mark is judged where a replay comes to it.
use dp_base::OutOfMemory;
use dp_base::journal_writer::OPEN_GATE;
use dp_base::little_endian::{read_u8, read_u16, read_u32, read_u64};
use guest_state::read_thread;
use journal_text::MARK_KIND;
use partial_mark::{PARTIAL_KIND, read_fields, read_partial_page};
use std::alloc::Global;

// The pages of a partial mark, which are read one after another.
#[derive(Clone, Copy)]
struct MarkPages<'a> {
    count: u16,
    bytes: &'a [u8],
}

/// Returns the gates of the marks that are opened, each over the one before it, to have the state of the last of the next
/// `count` marks after the record at this gate. These are that last mark, and each that has bytes of a page which the
/// next of these takes from its base. Returns `None` if there are fewer marks.
pub(crate) fn marks_to_open(
    alloc: Global,
    file: &[u8],
    gate: u64,
    count: u32,
) -> Result<Option<Vec<u64>>, OutOfMemory> {
    let Some(marks) = marks_after(alloc, file, gate, count)? else {
        return Ok(None);
    };
    let mut opened = Vec::new(alloc);
    let mut wanted = Vec::new(alloc);
    'marks: for mark in marks.iter().rev() {
        let pages = pages_of_mark(file, *mark);
        if opened.is_empty() || has_bytes_of(pages, &wanted) {
            opened.push(*mark)?;
            wanted = pages_of_the_base(alloc, pages)?;
        }
    }
    opened.reverse();
    Ok(Some(opened))
}

// The gates of the next marks after the record at this gate. `None` if there are fewer.
fn marks_after(
    alloc: Global,
    file: &[u8],
    gate: u64,
    count: u32,
) -> Result<Option<Vec<u64>>, OutOfMemory> {
    let mut marks = Vec::new(alloc);
    let mut last = gate;
    'marks: for _ in 0..count {
        let Some(mark) = next_mark(file, last) else {
            return Ok(None);
        };
        marks.push(mark)?;
        last = mark;
    }
    Ok(Some(marks))
}

// Whether a mark has bytes of one of these pages, whose numbers rise. One that isn't partial has bytes of all.
fn has_bytes_of(pages: Option<MarkPages<'_>>, wanted: &[u32]) -> bool {
    if wanted.is_empty() {
        return false;
    }
    let Some(MarkPages { count, bytes }) = pages else {
        return true;
    };
    let mut rest = bytes;
    'pages: for _ in 0..count {
        let Some((page, behind)) = read_partial_page(rest) else {
            return true;
        };
        if page.content.is_some() && wanted.binary_search(&page.number).is_ok() {
            return true;
        }
        rest = behind;
    }
    false
}

// The numbers of the pages that a mark takes from its base. One that isn't partial has no base.
fn pages_of_the_base(alloc: Global, pages: Option<MarkPages<'_>>) -> Result<Vec<u32>, OutOfMemory> {
    let mut numbers = Vec::new(alloc);
    let Some(MarkPages { count, bytes }) = pages else {
        return Ok(numbers);
    };
    let mut rest = bytes;
    'pages: for _ in 0..count {
        let Some((page, behind)) = read_partial_page(rest) else {
            return Ok(numbers);
        };
        if page.content.is_none() {
            numbers.push(page.number)?;
        }
        rest = behind;
    }
    Ok(numbers)
}

// The pages of the partial mark at this gate, if it is one up to them.
fn pages_of_mark(file: &[u8], gate: u64) -> Option<MarkPages<'_>> {
    if gate >= file.len() as u64 {
        return None;
    }
    let (_gate, rest) = read_u8(&file[gate as usize..])?;
    let (_size, rest) = read_u32(rest)?;
    let (kind, rest) = read_u8(rest)?;
    if kind != PARTIAL_KIND {
        return None;
    }
    let (_fields, rest) = read_fields(rest)?;
    let (threads, rest) = read_u16(rest)?;
    let rest = after_threads(threads, rest)?;
    let (count, bytes) = read_u16(rest)?;
    Some(MarkPages { count, bytes })
}

// The bytes after so many threads.
fn after_threads(count: u16, bytes: &[u8]) -> Option<&[u8]> {
    let mut rest = bytes;
    'threads: for _ in 0..count {
        let (_thread, behind) = read_thread(rest)?;
        rest = behind;
    }
    Some(rest)
}

/// Returns how many marks follow the record at this gate, at most `ahead`, and the gate of the last of them.
pub(crate) fn last_mark(file: &[u8], gate: u64, ahead: u32) -> (u32, u64) {
    let mut last = gate;
    'marks: for count in 0..ahead {
        let Some(mark) = next_mark(file, last) else {
            return (count, last);
        };
        last = mark;
    }
    (ahead, last)
}

/// Returns the count of steps in the mark at this gate: the first field after the gate, the length and the kind. 0 if it
/// is cut off.
pub(crate) fn steps_of_mark(file: &[u8], gate: u64) -> u64 {
    if gate >= file.len() as u64 {
        return 0;
    }
    let rest = &file[gate as usize..];
    if rest.len() < 6 {
        return 0;
    }
    match read_u64(&rest[6..]) {
        Some((steps, _)) => steps,
        None => 0,
    }
}

/// Returns the gate of the first mark after the record at this gate. `None` if the records end before it.
pub(crate) fn next_mark(file: &[u8], gate: u64) -> Option<u64> {
    let mut mark = next_gate(file, gate)?;
    'gates: while !is_mark_at(file, mark) {
        let next = next_gate(file, mark)?;
        if next <= mark {
            return None;
        }
        mark = next;
    }
    Some(mark)
}

/// Returns whether the record at this gate has the kind of a mark, full or partial. Nothing else of the record is tested.
pub(crate) fn is_mark_at(file: &[u8], gate: u64) -> bool {
    if gate >= 1 << 40 {
        return false;
    }
    match file.get(gate as usize + 5) {
        Some(kind) => *kind == MARK_KIND || *kind == PARTIAL_KIND,
        None => false,
    }
}

// The gate after the record at this gate, by its length alone. `None` if this gate is closed.
fn next_gate(file: &[u8], gate: u64) -> Option<u64> {
    if gate >= file.len() as u64 {
        return None;
    }
    let rest = &file[gate as usize..];
    let (byte, rest) = rest.split_first()?;
    if *byte != OPEN_GATE {
        return None;
    }
    let (size, _) = read_u32(rest)?;
    Some(gate.saturating_add(5 + u64::from(size)))
}
