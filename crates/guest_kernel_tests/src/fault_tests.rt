// How many pages guests start with, and files that are refused, each by hand.
use crate::start_tests::file_of;
use guest_kernel::{ImageFault, start_from_file};
use std::alloc::{AllocError, Global};
use std::test::Fail;
use test_files::{EXITS_WORDS, replaced};

// How many pages the guest of a file starts with.
fn pages_of(alloc: Global, file: &[u8]) -> Result<u32, ImageFault> {
    let state = start_from_file(alloc, file)?;
    Ok(state.pages.pages())
}

// The same of a file with these segments.
fn pages_from(alloc: Global, segments: &[[u32; 5]]) -> Result<Result<u32, ImageFault>, AllocError> {
    let file = file_of(alloc, 0, segments)?;
    Ok(pages_of(alloc, &file))
}

// The segments, and how many pages there are.
fn page_counts() -> [(&'static [[u32; 5]], Result<u32, ImageFault>); 5] {
    [
        // 1,008 pages from 0x10 on, and a byte more
        (&[[0x100, 0x1_0000, 8, 0x3f_0000, 6]], Ok(1024)),
        (
            &[[0x100, 0x1_0000, 8, 0x3f_0001, 6]],
            Err(ImageFault::TooManyPages),
        ),
        // 1,007 pages and one above the stack, on which a second segment adds none, and on the next one does
        (
            &[
                [0x100, 0x1_0000, 8, 0x3e_f000, 6],
                [0x100, 0x9000_0000, 1, 1, 6],
            ],
            Ok(1024),
        ),
        (
            &[
                [0x100, 0x9000_0fff, 1, 1, 6],
                [0x100, 0x1_0000, 8, 0x3e_f000, 6],
                [0x100, 0x9000_0000, 1, 1, 6],
            ],
            Ok(1024),
        ),
        (
            &[
                [0x100, 0x9000_1000, 1, 1, 6],
                [0x100, 0x1_0000, 8, 0x3e_f000, 6],
                [0x100, 0x9000_0000, 1, 1, 6],
            ],
            Err(ImageFault::TooManyPages),
        ),
    ]
}

#[test]
fn as_many_pages_as_there_may_be(rt: HostRuntime) -> Result<(), Fail> {
    let alloc = rt.alloc();
    for (segments, pages) in page_counts() {
        assert_eq!(rt; pages_from(alloc, segments)?, pages);
    }
    Ok(())
}

// What the start of the guest that exits with 7 comes to, cut to or filled up with zeros to a length, with these bytes
// at an offset.
fn pages_with(
    alloc: Global,
    length: usize,
    offset: usize,
    bytes: &[u8],
) -> Result<Result<u32, ImageFault>, AllocError> {
    let mut file = test_files::file_of(alloc, &EXITS_WORDS)?;
    file.resize(length, 0)?;
    let file = replaced(alloc, &file, offset, bytes.len(), bytes)?;
    Ok(pages_of(alloc, &file))
}

// The same of a file of zeros, one byte too long.
fn pages_of_zeros(alloc: Global) -> Result<Result<u32, ImageFault>, AllocError> {
    let mut zeros = Vec::new(alloc);
    zeros.resize(1_048_577, 0)?;
    Ok(pages_of(alloc, &zeros))
}

// The length, and what comes of it.
fn lengths() -> [(usize, Result<u32, ImageFault>); 5] {
    [
        (96, Ok(17)),
        (0, Err(ImageFault::NotElf)),
        (51, Err(ImageFault::NotElf)),
        (1_048_576, Ok(17)),
        (1_048_577, Err(ImageFault::TooLong)),
    ]
}

#[test]
fn lengths_of_a_file(rt: HostRuntime) -> Result<(), Fail> {
    for (length, pages) in lengths() {
        let found = pages_with(rt.alloc(), length, 0, &[])?;
        assert_eq!(rt; found, pages, "{length} bytes");
    }
    Ok(())
}

// An offset and the bytes there; the fault.
fn wrong_bytes() -> [(usize, &'static [u8], ImageFault); 8] {
    [
        (4, &[2], ImageFault::NotClass32),
        (5, &[2], ImageFault::NotLittle),
        (16, &[3], ImageFault::NotExec),
        (18, &[0x3e], ImageFault::NotRiscv),
        (42, &[0x38], ImageFault::BadTable),
        (52, &[3], ImageFault::Interp),
        // p_memsz
        (72, &[0x5f], ImageFault::BadSegment),
        // p_filesz 0, p_memsz 3f0001
        (68, &[0, 0, 0, 0, 1, 0, 0x3f], ImageFault::TooManyPages),
    ]
}

#[test]
fn faults(rt: HostRuntime) -> Result<(), Fail> {
    for (offset, bytes, fault) in wrong_bytes() {
        let found = pages_with(rt.alloc(), 96, offset, bytes)?;
        assert_eq!(rt; found, Err(fault), "at {offset}");
    }
    Ok(())
}

#[test]
fn a_file_of_zeros(rt: HostRuntime) -> Result<(), Fail> {
    assert_eq!(rt; pages_of_zeros(rt.alloc())?, Err(ImageFault::TooLong));
    Ok(())
}
