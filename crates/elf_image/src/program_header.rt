// The program header table (System V ABI, edition 4.1, chapter 5 "Program Header").
ghost use Rattle.std.specs.Prelude.{◌≡◌, ◌+◌, ◌*◌, ◌≤◌, length, map, IfOk};
ghost use Rattle.std.specs.List.{filter, list_any};
ghost use Rattle.elf_image.specs.File.{e_phnum, e_phoff, program_header_at, is_interpreter, is_loaded, program_headers};
ghost use Rattle.elf_image.specs.Faults.{is_bad_entry};
ghost use Rattle.elf_image.specs.Image.{entry_span, has_bytes};

use crate::elf_header::{E_PHNUM, E_PHOFF};
use crate::little_endian::{half_at, word_at};
use crate::span::{STACK, Span};
use dp_base::OutOfMemory;
use dp_base::limits::{PAGE_BYTES, PAGE_NUMBERS};
use std::alloc::Global;

const PT_LOAD: u32 = 1;

const PT_INTERP: u32 = 3;

/// No address of a segment is this one or a later one.
pub(crate) const MEMORY_END: u64 = PAGE_NUMBERS as u64 * PAGE_BYTES as u64;

/// An entry of the table, without p_paddr and p_align.
#[derive(Clone, Copy, Debug, PartialEq, Eq)]
pub(crate) struct ProgramHeader {
    pub p_type: u32,
    pub p_offset: u32,
    pub p_vaddr: u32,
    pub p_filesz: u32,
    pub p_memsz: u32,
    pub p_flags: u32,
}

/// Returns the entry at an offset of a file.
fn entry_at(file: &[u8], offset: usize) -> ProgramHeader
    requires { offset + 32 ≤ length file.now }
    ensures { result ≡ program_header_at file.now offset }
{
    ProgramHeader {
        p_type: word_at(file, offset),
        p_offset: word_at(file, offset + 4),
        p_vaddr: word_at(file, offset + 8),
        p_filesz: word_at(file, offset + 16),
        p_memsz: word_at(file, offset + 20),
        p_flags: word_at(file, offset + 24),
    }
}

/// Returns the entries of a file's table.
pub(crate) fn program_headers(alloc: Global, file: &[u8]) -> Result<Vec<ProgramHeader>, OutOfMemory>
    requires has_header { 52 ≤ length file.now }
    requires has_table { e_phoff file.now + 32 * e_phnum file.now ≤ length file.now }
    ensures { IfOk result (λ headers. headers.items ≡ program_headers file.now) }
{
    let start = word_at(file, E_PHOFF) as usize;
    let mut headers = Vec::new(alloc);
    for index in 0..half_at(file, E_PHNUM) {
        headers.push(entry_at(file, start + 32 * index as usize))?;
    }
    Ok(headers)
}

/// Returns whether one of the entries names an interpreter.
pub(crate) fn has_interpreter(headers: &[ProgramHeader]) -> bool
    ensures { result ≡ list_any is_interpreter headers.now }
{
    headers.iter().any(|p| p.p_type == PT_INTERP)
}

/// Returns the entries that are loaded.
pub(crate) fn loaded(
    alloc: Global,
    headers: &[ProgramHeader],
) -> Result<Vec<ProgramHeader>, OutOfMemory>
    ensures { IfOk result (λ loaded. loaded.items ≡ filter is_loaded headers.now) }
{
    let mut loaded = Vec::new(alloc);
    for p in headers {
        if p.p_type == PT_LOAD {
            loaded.push(*p)?;
        }
    }
    Ok(loaded)
}

/// Returns whether an entry that is loaded is longer in the file than in memory, isn't in the file, ends after the
/// memory, or has a page of the stack.
pub(crate) fn has_bad_entry(file: &[u8], loaded: &[ProgramHeader]) -> bool
    ensures { result ≡ list_any (is_bad_entry file.now) loaded.now }
{
    loaded.iter().any(|p| is_bad_entry(file, *p))
}

// Whether an entry of the program header table is bad.
fn is_bad_entry(file: &[u8], p: ProgramHeader) -> bool
    ensures { result ≡ is_bad_entry file.now p }
{
    let span = Span {
        addr: p.p_vaddr,
        size: p.p_memsz,
    };
    p.p_memsz < p.p_filesz
        || (file.len() as u64) < u64::from(p.p_offset) + u64::from(p.p_filesz)
        || MEMORY_END < span.end()
        || span.meets(STACK)
}

/// Returns the address ranges of the segments of these entries: of each entry that has bytes in memory.
pub(crate) fn spans(alloc: Global, loaded: &[ProgramHeader]) -> Result<Vec<Span>, OutOfMemory>
    ensures { IfOk result (λ spans. spans.items ≡ map entry_span (filter has_bytes loaded.now)) }
{
    let mut spans = Vec::new(alloc);
    for p in loaded {
        if p.p_memsz > 0 {
            spans.push(Span {
                addr: p.p_vaddr,
                size: p.p_memsz,
            })?;
        }
    }
    Ok(spans)
}
