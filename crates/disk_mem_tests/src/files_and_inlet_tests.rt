// Files by name, and an input in pieces, in memory.
ghost use Rattle.std.specs.Prelude.{◌≤◌, IsErrOf, IfOk};
ghost use Rattle.disk_model.specs.declared.files.TheConstants.{MAX_FETCH_BYTES};
ghost use Rattle.dp_base.specs.Counts.{Rose};

use disk_mem::{Fails, MemFiles, NamedFile};
use disk_model::{FetchFault, Files, Inlet, MAX_FETCH_BYTES};
use dp_base::OutOfMemory;
use std::alloc::Global;
use std::test::Fail;
use test_worlds::{Failing, fails_of, inlet_of};

fn file_len<F: Files>(files: &mut F, alloc: Global, name: &str) -> Result<usize, FetchFault>
    ensures few { IfOk result (λ n. n ≤ MAX_FETCH_BYTES) }
    ensures cause { IsErrOf result FetchFault.Failed → Rose (F.file_faults files.old) (F.file_faults files.new) }
{
    let file = files.fetch(alloc, name)?;
    Ok(file.len())
}

fn add_file(
    alloc: Global,
    files: &mut Vec<NamedFile>,
    name: &str,
    bytes: &[u8],
) -> Result<(), OutOfMemory> {
    let name = String::from_str(alloc, name)?;
    let bytes = bytes.to_vec(alloc)?;
    files.push(NamedFile { name, bytes })?;
    Ok(())
}

fn add_long_file(alloc: Global, files: &mut Vec<NamedFile>) -> Result<(), OutOfMemory> {
    let mut bytes = Vec::new(alloc);
    bytes.resize(MAX_FETCH_BYTES + 1, 7)?;
    add_file(alloc, files, "long", &bytes)
}

const FILES: [(&str, &[u8]); 4] = [
    ("one", b"1"),
    ("none", b""),
    ("two", b"12"),
    ("one", b"123"),
];

// Five files, two of one name, one of a byte more than a fetch returns.
fn five_files(alloc: Global) -> Result<Vec<NamedFile>, OutOfMemory> {
    let mut files = Vec::new(alloc);
    for (name, bytes) in FILES {
        add_file(alloc, &mut files, name, bytes)?;
    }
    add_long_file(alloc, &mut files)?;
    Ok(files)
}

fn files_of(alloc: Global, fails: Fails) -> Result<MemFiles, OutOfMemory> {
    Ok(MemFiles::new(five_files(alloc)?, fails))
}

// What each of six names gives, how many fetches there were, and how many failed.
fn six_fetches(
    alloc: Global,
    failing: Failing,
) -> Result<([Result<usize, FetchFault>; 6], u64, u64), OutOfMemory> {
    let mut files = files_of(alloc, fails_of(alloc, failing)?)?;
    let lens = [
        file_len(&mut files, alloc, "one"),
        file_len(&mut files, alloc, "none"),
        file_len(&mut files, alloc, "two"),
        file_len(&mut files, alloc, "other"),
        file_len(&mut files, alloc, "long"),
        file_len(&mut files, alloc, ""),
    ];
    Ok((lens, files.fetches(), files.file_fault_count()))
}

// Whether a file has these bytes.
fn has_file(alloc: Global, name: &str, wanted: &[u8]) -> Result<bool, Fail> {
    let mut files = files_of(alloc, Fails::Never)?;
    let Ok(bytes) = files.fetch(alloc, name) else {
        return Err(Fail::new("no file"));
    };
    Ok(bytes.as_slice() == wanted)
}

#[test]
fn fetches_by_name(rt: HostRuntime) -> Result<(), Fail> {
    let absent = Err(FetchFault::Failed);
    let cases = [
        (
            Failing::Never,
            [Ok(1), Ok(0), Ok(2), absent, Ok(MAX_FETCH_BYTES), absent],
            2,
        ),
        (
            Failing::At(3),
            [Ok(1), Ok(0), absent, absent, Ok(MAX_FETCH_BYTES), absent],
            3,
        ),
        (
            Failing::From(2),
            [Ok(1), absent, absent, absent, absent, absent],
            5,
        ),
    ];
    for (failing, lens, faults) in cases {
        assert_eq!(rt; six_fetches(rt.alloc(), failing)?, (lens, 6, faults));
    }
    assert!(rt; has_file(rt.alloc(), "one", b"1")?);
    Ok(())
}

// How many bytes a take gives, 9 where it fails. They are added to what was given.
fn take_once<I: Inlet>(inlet: &mut I, size: usize, given: &mut Vec<u8>) -> Result<u8, OutOfMemory> {
    let mut buf = [0; 4];
    let part = &mut buf[..size.min(4)];
    let Ok(count) = inlet.take(part) else {
        return Ok(9);
    };
    given.extend_from_slice(&part[..count])?;
    Ok(count.min(8) as u8)
}

// How many bytes each of five takes gives, and whether all that was given is these bytes.
fn five_takes<I: Inlet>(
    alloc: Global,
    inlet: &mut I,
    sizes: [usize; 5],
    wanted: &[u8],
) -> Result<([u8; 5], bool), OutOfMemory> {
    let mut given = Vec::new(alloc);
    let mut counts = [0; 5];
    for (count, size) in counts.iter_mut().zip(sizes) {
        *count = take_once(inlet, size, &mut given)?;
    }
    Ok((counts, given.as_slice() == wanted))
}

// The same of an input in pieces, how many takes there were, and how many failed.
fn takes_of(
    alloc: Global,
    pieces: [&[u8]; 3],
    sizes: [usize; 5],
    failing: Failing,
    wanted: &[u8],
) -> Result<(([u8; 5], bool), u64, u64), OutOfMemory> {
    let mut inlet = inlet_of(alloc, &pieces, &[5, 7], failing)?;
    let taken = five_takes(alloc, &mut inlet, sizes, wanted)?;
    Ok((taken, inlet.takes(), inlet.input_fault_count()))
}

// The pieces, how many bytes each take asks for, which takes fail, how many bytes each gives, all bytes, and the
// faults.
const TAKES: [([&[u8]; 3], [usize; 5], Failing, [u8; 5], &[u8], u64); 4] = [
    // A piece that is longer than the buffer, and a buffer with no room.
    (
        [b"abc", b"de", b"f"],
        [2, 2, 4, 0, 4],
        Failing::Never,
        [2, 1, 2, 0, 1],
        b"abcdef",
        0,
    ),
    // An empty piece is the end.
    (
        [b"abc", b"", b"d"],
        [4, 1, 4, 0, 4],
        Failing::Never,
        [3, 0, 0, 0, 0],
        b"abc",
        0,
    ),
    // A take that fails loses nothing.
    (
        [b"ab", b"c", b"d"],
        [1, 4, 4, 4, 4],
        Failing::At(2),
        [1, 9, 1, 1, 1],
        b"abcd",
        1,
    ),
    (
        [b"ab", b"c", b"d"],
        [4, 4, 4, 4, 4],
        Failing::From(3),
        [2, 1, 9, 9, 9],
        b"abc",
        3,
    ),
];

#[test]
fn takes_pieces(rt: HostRuntime) -> Result<(), Fail> {
    for (pieces, sizes, failing, counts, given, faults) in TAKES {
        let came = takes_of(rt.alloc(), pieces, sizes, failing, given)?;
        assert_eq!(rt; came, ((counts, true), 5, faults));
    }
    Ok(())
}
