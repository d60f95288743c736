// From a file to its image.
ghost use Rattle.std.specs.Prelude.{◌≡◌, ◌⊎◌, ◌+◌, ◌≤◌, false, nat_lt, length, map, All, None, IfOk, IfErr};
ghost use Rattle.std.specs.List.{filter, list_any};
ghost use Rattle.elf_image.specs.Faults.{has_bad_segment, image_fault, is_bad_entry, fault_number};
ghost use Rattle.elf_image.specs.File.{load_headers};
ghost use Rattle.elf_image.specs.Image.{IsImageOf, has_bytes, segment_of, segments_of};
ghost use Rattle.elf_image.specs.Segment.{MEMORY_END, spans_of, start_pages};

use crate::elf_header::{E_ENTRY, E_MACHINE, E_TYPE, EI_CLASS, EI_DATA, has_bad_table, is_not_elf};
use crate::image::{Image, Segment, Segments};
use crate::image_fault::ImageFault;
use crate::little_endian::{byte_at, half_at, word_at};
use crate::program_header::{
    ProgramHeader, has_bad_entry, has_interpreter, loaded, program_headers, spans,
};
use crate::span::Span;
use crate::span_pages::{first_pages, heap_start, overlap};
use dp_base::limits::{MAX_GUEST_BYTES, MAX_PAGES};
use dp_base::{Bytes, OutOfMemory};
use std::alloc::Global;

const ELFCLASS32: u8 = 1;

const ELFDATA2LSB: u8 = 1;

const ET_EXEC: u16 = 2;

const EM_RISCV: u16 = 243;

/// Returns the image of a guest's file (System V ABI, edition 4.1, ELF32), or the first fault that applies to it.
#[tactic(auto, unfolding(crate::specs::Faults::image_fault))]
pub fn load(alloc: Global, file: &[u8]) -> Result<Image, ImageFault>
    ensures image { IfOk result (λ image. IsImageOf file.now image) }
    ensures accepted { IfOk result (λ image. image_fault file.now ≡ None) }
    ensures refused { IfErr result (λ fault. (fault ≡ ImageFault.OutOfMemory) ⊎ (image_fault file.now ≡ fault_number fault)) }
{
    if file.len() > MAX_GUEST_BYTES as usize {
        return Err(ImageFault::TooLong);
    }
    if is_not_elf(file) {
        return Err(ImageFault::NotElf);
    }
    if byte_at(file, EI_CLASS) != ELFCLASS32 {
        return Err(ImageFault::NotClass32);
    }
    if byte_at(file, EI_DATA) != ELFDATA2LSB {
        return Err(ImageFault::NotLittle);
    }
    if half_at(file, E_TYPE) != ET_EXEC {
        return Err(ImageFault::NotExec);
    }
    if half_at(file, E_MACHINE) != EM_RISCV {
        return Err(ImageFault::NotRiscv);
    }
    if has_bad_table(file) {
        return Err(ImageFault::BadTable);
    }
    let headers = program_headers(alloc, file)?;
    if has_interpreter(&headers) {
        return Err(ImageFault::Interp);
    }
    let loaded = loaded(alloc, &headers)?;
    let spans = spans(alloc, &loaded)?;
    if has_bad_segment(file, &loaded, &spans) {
        return Err(ImageFault::BadSegment);
    }
    if has_too_many_pages(alloc, &spans)? {
        return Err(ImageFault::TooManyPages);
    }
    Ok(Image {
        entry: word_at(file, E_ENTRY),
        segments: Segments::from_vec(segments(alloc, file, &loaded)?),
        heap: heap_start(&spans),
    })
}

// Whether a bad entry is loaded, two segments have a byte in common, or none has a byte.
fn has_bad_segment(file: &[u8], entries: &[ProgramHeader], spans: &[Span]) -> bool
    requires theirs { entries.now ≡ load_headers file.now }
    requires where_they_lie { spans.now ≡ spans_of (segments_of file.now) }
    ensures answer { result ≡ has_bad_segment file.now }
    ensures whole { result ≡ false → list_any (is_bad_entry file.now) entries.now ≡ false }
    ensures ends { result ≡ false → All (λ s. s.addr + s.size ≤ MEMORY_END) spans.now }
{
    has_bad_entry(file, entries) || overlap(spans) || spans.is_empty()
}

fn has_too_many_pages(alloc: Global, spans: &[Span]) -> Result<bool, OutOfMemory>
    requires { All (λ s. s.addr + s.size ≤ MEMORY_END) spans.now }
    ensures { IfOk result (λ answer. answer ≡ nat_lt MAX_PAGES (length (start_pages spans.now))) }
{
    Ok(first_pages(alloc, spans)?.len() > MAX_PAGES as usize)
}

// The segments of the entries that have bytes in memory.
fn segments(
    alloc: Global,
    file: &[u8],
    loaded: &[ProgramHeader],
) -> Result<Vec<Segment>, OutOfMemory>
    requires { list_any (is_bad_entry file.now) loaded.now ≡ false }
    ensures { IfOk result (λ segments. segments.items ≡ map (segment_of file.now) (filter has_bytes loaded.now)) }
{
    let mut segments = Vec::new(alloc);
    for p in loaded {
        if p.p_memsz > 0 {
            segments.push(segment_of(alloc, file, *p)?)?;
        }
    }
    Ok(segments)
}

fn segment_of(alloc: Global, file: &[u8], p: ProgramHeader) -> Result<Segment, OutOfMemory>
    requires { is_bad_entry file.now p ≡ false }
    ensures { IfOk result (λ segment. segment ≡ segment_of file.now p) }
{
    let start = p.p_offset as usize;
    let bytes = &file[start..start + p.p_filesz as usize];
    Ok(Segment {
        addr: p.p_vaddr,
        bytes: Bytes::from_vec(Vec::from_slice(alloc, bytes)?),
        size: p.p_memsz,
        flags: (p.p_flags % 8) as u8,
    })
}
