// Words, a file and an input.
ghost use Rattle.std.specs.Prelude.{◌≡◌, map, string_bytes, IfOk};
ghost use Rattle.disk_mem.specs.MemoryInput.{of_pieces};
ghost use Rattle.test_worlds.specs.Outside.{fails_as, one_file};

use crate::{Failing, fails_of};
use disk_mem::{MemFiles, MemInlet, NamedFile};
use dp_base::OutOfMemory;
use std::alloc::{AllocError, Global};

/// Returns arguments as a command line has them.
pub fn texts_of(alloc: Global, words: &[&str]) -> Result<Vec<String>, AllocError>
    ensures { IfOk result (λ texts. map string_bytes texts.items ≡ map (λ word. word.now) words.now) }
{
    let mut texts = Vec::new(alloc);
    for word in words {
        texts.push(String::from_str(alloc, word)?)?;
    }
    Ok(texts)
}

/// Makes a directory of one file of this name, some of whose fetches fail.
///
/// # Errors
/// No memory.
pub fn file_named(
    alloc: Global,
    name: &str,
    bytes: &[u8],
    failing: Failing,
) -> Result<MemFiles, OutOfMemory>
    ensures { IfOk result (λ files. files ≡ one_file name.now bytes.now (fails_as failing)) }
{
    let mut files = Vec::new(alloc);
    files.push(NamedFile {
        name: String::from_str(alloc, name)?,
        bytes: bytes.to_vec(alloc)?,
    })?;
    Ok(MemFiles::new(files, fails_of(alloc, failing)?))
}

/// Makes an input of these pieces, some of whose takes fail, and a clock with these readings.
///
/// # Errors
/// No memory.
pub fn inlet_of(
    alloc: Global,
    pieces: &[&[u8]],
    clocks: &[u64],
    failing: Failing,
) -> Result<MemInlet, OutOfMemory>
    ensures { IfOk result (λ inlet. inlet ≡ of_pieces (map (λ piece. piece.now) pieces.now) clocks.now (fails_as failing)) }
{
    let owned = owned(alloc, pieces)?;
    let clocks = clocks.to_vec(alloc)?;
    Ok(MemInlet::new(owned, clocks, fails_of(alloc, failing)?))
}

fn owned(alloc: Global, pieces: &[&[u8]]) -> Result<Vec<Vec<u8>>, AllocError>
    ensures { IfOk result (λ owned. map (λ v. v.items) owned.items ≡ map (λ piece. piece.now) pieces.now) }
{
    let mut owned = Vec::new(alloc);
    for piece in pieces {
        owned.push(piece.to_vec(alloc)?)?;
    }
    Ok(owned)
}
