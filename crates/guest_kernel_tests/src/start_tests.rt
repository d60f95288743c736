// The states in which guests start, each by hand from its file.
use crate::guests::started;
use crate::one_turn::one_turn;
use crate::slice_tests::{hart_of, ran_from, slice, trap};
use guest_kernel::{End, Hart, Pages, SliceRun, Turn, start_from_file};
use std::alloc::{AllocError, Global};
use std::test::Fail;
use test_files::{EXITS_WORDS, WITH_ATTRIBUTES, replaced};

// What segments have of the file: it goes on with aa.
const CONTENTS: [u8; 8] = [0x11, 0x12, 0x13, 0x14, 0x15, 0x16, 0x17, 0x18];

// The header of a file with this entry and so many segments.
fn header(alloc: Global, entry: u32, count: u8) -> Result<Vec<u8>, AllocError> {
    let mut file = test_files::file_of(alloc, &[])?;
    file.truncate(52);
    let file = replaced(alloc, &file, 24, 4, &entry.to_le_bytes())?;
    replaced(alloc, &file, 44, 1, &[count])
}

// Adds the header of a segment: p_offset, p_vaddr, p_filesz, p_memsz, p_flags.
fn put_segment(file: &mut Vec<u8>, segment: [u32; 5]) -> Result<(), AllocError> {
    let [offset, addr, filesz, memsz, flags] = segment;
    for number in [1, offset, addr, addr, filesz, memsz, flags, 4096] {
        file.extend_from_slice(&number.to_le_bytes())?;
    }
    Ok(())
}

// A file with this entry and these segments. `CONTENTS` are at 0x100.
pub(crate) fn file_of(
    alloc: Global,
    entry: u32,
    segments: &[[u32; 5]],
) -> Result<Vec<u8>, AllocError> {
    let count = segments.len().min(6) as u8;
    let mut file = header(alloc, entry, count)?;
    for segment in segments {
        put_segment(&mut file, *segment)?;
    }
    file.resize(0x100, 0xaa)?;
    file.extend_from_slice(&CONTENTS)?;
    file.resize(0x200, 0xaa)?;
    Ok(file)
}

// A page of zeros but for one place: its number, its flags, and the word at an offset, cut at the page's end.
type Row = (u32, u8, usize, u32);

// Whether the page at this place in rising order is this one.
fn is_page(pages: &Pages, place: usize, row: Row) -> bool {
    let (number, flags, offset, word) = row;
    let Some(page) = pages.at(place) else {
        return false;
    };
    let word = word.to_le_bytes();
    let mut bytes = page.bytes.iter().enumerate();
    page.number == number
        && page.flags == flags
        && page.bytes.len() == 4096
        && bytes.all(|(place, byte)| {
            let wanted = word.get(place.wrapping_sub(offset)).copied();
            *byte == wanted.unwrap_or(0)
        })
}

// The first place from this one on at which another page stands than these.
fn first_other(pages: &Pages, start: usize, rows: &[Row]) -> Option<usize> {
    for (index, row) in rows.iter().enumerate() {
        let place = start.wrapping_add(index);
        if !is_page(pages, place, *row) {
            return Some(place);
        }
    }
    None
}

// The same of the pages of the stack.
fn first_other_of_stack(pages: &Pages, start: usize) -> Option<usize> {
    for index in 0..16 {
        let place = start.wrapping_add(index as usize);
        if !is_page(pages, place, (0x7fff0 + index, 6, 0, 0)) {
            return Some(place);
        }
    }
    None
}

// The first place at which another page stands than these: pages below the stack, its own, and those above it.
fn first_wrong(pages: &Pages, below: &[Row], above: &[Row]) -> Option<usize> {
    let stack = below.len();
    let wrong = first_other(pages, 0, below).or(first_other_of_stack(pages, stack));
    wrong.or(first_other(pages, stack.wrapping_add(16), above))
}

// Thread 1's pc, the heap's start, the break, how many pages there are, and the first place of another page than is
// wanted.
type Seen = (u32, u32, u32, u32, Option<usize>);

// What is seen of the start state of a file with this entry and these segments, where these are the pages below the
// stack and above it.
fn look(
    alloc: Global,
    entry: u32,
    segments: &[[u32; 5]],
    below: &[Row],
    above: &[Row],
) -> Result<Seen, Fail> {
    let state = start_from_file(alloc, &file_of(alloc, entry, segments)?)?;
    let wrong = first_wrong(&state.pages, below, above);
    let pc = hart_of(&state).ok_or("thread 1 runs")?.pc;
    let pages = state.pages.pages();
    Ok((pc, state.heap, state.brk, pages, wrong))
}

// The heap's start and the break, how many bytes were read and turns taken, how many threads there are, and the end.
type Beside = ((u32, u32), (u64, u64), (usize, End));

// Thread 1 of the guest that exits with 7 as it starts, and what is beside it.
fn start_of_seven(alloc: Global) -> Result<(Hart, Beside), Fail> {
    let state = started(alloc, &EXITS_WORDS)?;
    let hart = *hart_of(&state).ok_or("thread 1 runs")?;
    let breaks = (state.heap, state.brk);
    let counts = (state.input, state.steps);
    Ok((hart, (breaks, counts, (state.threads.len(), state.end))))
}

#[test]
fn starts(rt: HostRuntime) -> Result<(), Fail> {
    let (hart, beside) = start_of_seven(rt.alloc())?;
    assert_eq!(rt; hart.pc, 0x10054);
    for number in 0..32 {
        let value = if number == 2 { 0x7fff_ffe0 } else { 0 };
        assert_eq!(rt; hart.register(number), value);
    }
    assert_eq!(rt; beside, ((0x11000, 0x11000), (0, 0), (1, End::None)));
    Ok(())
}

// The segments, the entry, the pages below the stack and those above it, how many there are with the stack's, and
// where the heap starts.
fn page_cases() -> [(
    &'static [[u32; 5]],
    u32,
    &'static [Row],
    &'static [Row],
    u32,
    u32,
); 8] {
    [
        // two on one page
        (
            &[[0x106, 0x1_0013, 1, 0x10, 2], [0x100, 0x1_0010, 3, 3, 1]],
            0x1_0010,
            &[(0x10, 3, 0x10, 0x1713_1211)],
            &[],
            17,
            0x1_1000,
        ),
        // over two pages
        (
            &[[0x100, 0x1_0ffe, 5, 5, 5]],
            0x1_0ffe,
            &[(0x10, 5, 0xffe, 0x1211), (0x11, 5, 0, 0x15_1413)],
            &[],
            18,
            0x1_2000,
        ),
        // zeros after the file's bytes, up to the first byte of a third page
        (
            &[[0x100, 0x1_0ffc, 2, 0x1005, 6]],
            0x1_0001,
            &[(0x10, 6, 0xffc, 0x1211), (0x11, 6, 0, 0), (0x12, 6, 0, 0)],
            &[],
            19,
            0x1_3000,
        ),
        // no byte in memory: one on a page of its own, one on the other's page
        (
            &[
                [0x100, 0x3_0000, 0, 0, 7],
                [0x100, 0x1_0000, 1, 1, 4],
                [0x100, 0x1_0800, 0, 0, 2],
            ],
            0x3_0000,
            &[(0x10, 4, 0, 0x11)],
            &[],
            17,
            0x1_1000,
        ),
        // right after the stack, right before it, and far below
        (
            &[
                [0x104, 0x8000_0000, 1, 1, 5],
                [0x100, 0x7ffe_fffe, 2, 2, 3],
                [0x102, 0x2_0fff, 1, 2, 4],
            ],
            0x8000_0002,
            &[
                (0x20, 4, 0xfff, 0x13),
                (0x21, 4, 0, 0),
                (0x7ffef, 3, 0xffe, 0x1211),
            ],
            &[(0x80000, 5, 0, 0x15)],
            20,
            0x8000_1000,
        ),
        // the page before the stack's first, to its end
        (
            &[[0x100, 0x7ffe_f000, 2, 0x1000, 7]],
            0xffff_ffff,
            &[(0x7ffef, 7, 0, 0x1211)],
            &[],
            17,
            0x7fff_0000,
        ),
        // the first page and the last
        (
            &[[0x107, 0xffff_efff, 1, 1, 2], [0x100, 0, 1, 1, 1]],
            0,
            &[(0, 1, 0, 0x11)],
            &[(0xf_fffe, 2, 0xfff, 0x18)],
            18,
            0xffff_f000,
        ),
        // the one that ends last stands first, and flags after the third bit
        (
            &[
                [0x100, 0x3_0000, 1, 0x1001, 0xffff_fff8],
                [0x103, 0x1_0fff, 1, 1, 0xd],
            ],
            0x1_0fff,
            &[(0x10, 5, 0xfff, 0x14), (0x30, 0, 0, 0x11), (0x31, 0, 0, 0)],
            &[],
            19,
            0x3_2000,
        ),
    ]
}

#[test]
fn start_pages(rt: HostRuntime) -> Result<(), Fail> {
    let alloc = rt.alloc();
    for (segments, entry, below, above, pages, heap) in page_cases() {
        let found = look(alloc, entry, segments, below, above)?;
        assert_eq!(rt; found, (entry, heap, heap, pages, None), "heap {heap:x}");
    }
    Ok(())
}

// Whether the page of a guest's file begins with it and has zeros after it; and the flags of pages on which nothing is.
fn page_of_seven(alloc: Global) -> Result<(bool, bool, [Option<u8>; 5]), Fail> {
    let state = started(alloc, &EXITS_WORDS)?;
    let file = test_files::file_of(alloc, &EXITS_WORDS)?;
    let page = state.pages.page_bytes(0x10).ok_or("the file's page")?;
    let is_first = page.starts_with(&file);
    let are_zeros = page.iter().skip(96).all(|byte| *byte == 0);
    let flags = [0, 0xf, 0x11, 0x7ffef, 0x80000].map(|number| state.pages.flags(number));
    Ok((is_first, are_zeros, flags))
}

// The guest's bytes are on its page from the file's first on.
#[test]
fn the_page_of_a_whole_file(rt: HostRuntime) -> Result<(), Fail> {
    assert_eq!(rt; page_of_seven(rt.alloc())?, (true, true, [None; 5]));
    Ok(())
}

// The flags of the page that a segment fills; a turn of a guest that starts on it at an odd address, the step count,
// and the end.
fn turn_on_a_full_page(alloc: Global) -> Result<(Option<u8>, Turn, u64, End), Fail> {
    let file = file_of(alloc, 0x20001, &[[0x100, 0x2_0000, 3, 4096, 7]])?;
    let state = start_from_file(alloc, &file)?;
    let flags = state.pages.flags(0x20);
    let (turn, state, _) = one_turn(alloc, state, 1)?;
    Ok((flags, turn, state.steps, state.end))
}

#[test]
fn a_segment_that_fills_its_page(rt: HostRuntime) -> Result<(), Fail> {
    let went = Turn::Stepped {
        used: false,
        yielded: false,
    };
    assert_eq!(rt;
        turn_on_a_full_page(rt.alloc())?,
        (Some(7), went, 1, trap(0, 0x20001))
    );
    Ok(())
}

// A run of the guest with attributes: what it comes to, the end, the step count, and how many pages are mapped.
fn ran_with_attributes(alloc: Global) -> Result<(SliceRun, End, u64, u32), Fail> {
    let start = start_from_file(alloc, &WITH_ATTRIBUTES)?;
    let ((run, end, steps, _), state, _) = ran_from(alloc, start, &[slice(1, 3)], &[])?;
    Ok((run, end, steps, state.pages.pages()))
}

#[test]
fn with_attributes(rt: HostRuntime) -> Result<(), Fail> {
    assert_eq!(rt;
        ran_with_attributes(rt.alloc())?,
        (SliceRun::Whole, End::Exit(7), 3, 17)
    );
    Ok(())
}
