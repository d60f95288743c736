// The pages of a guest's memory, as its segments give them.
ghost use Rattle.std.specs.Prelude.{◌≡◌, ◌+◌, ◌-◌, ◌*◌, ◌<◌, ℕ, IfOk, if◌then◌else◌, slice_index, slice_index_or};
ghost use Rattle.elf_image.specs.Image.{has_byte, image_page_bytes, page_flags};
ghost use Rattle.elf_image.specs.Segment.{ArePageNumbers, spans_of, start_pages};

use crate::image::{Segment, Segments};
use crate::span::Span;
use crate::span_pages;
use dp_base::OutOfMemory;
use dp_base::limits::{PAGE_BYTES, PAGE_NUMBERS};
use std::alloc::Global;

impl Segments {
    /// Returns the pages that a guest starts with, by number, rising: those that have a byte of a segment, and those of
    /// the stack.
    pub fn start_pages(&self, alloc: Global) -> Result<Vec<u32>, OutOfMemory>
        ensures numbers { IfOk result (λ numbers. numbers.items ≡ start_pages (spans_of self.now)) }
        ensures kept { IfOk result (λ numbers. ArePageNumbers numbers.items) }
    {
        let spans = spans(alloc, self.as_slice())?;
        span_pages::first_pages(alloc, &spans)
    }

    /// Returns the flags of a page: those of all segments that have a byte on it.
    pub fn page_flags(&self, number: u32) -> u8
        ensures flags { result ≡ page_flags self.now number }
        ensures known { result < 8 }
    {
        page_flags(self.as_slice(), number)
    }

    /// Returns the bytes of a page, which are 0 if no segment has them.
    pub fn page_bytes(&self, number: u32) -> [u8; 4096]
        requires { number < PAGE_NUMBERS }
        ensures { result ≡ image_page_bytes self.now number }
    {
        page_bytes(self.as_slice(), number)
    }
}

// The addresses of the segments.
fn spans(alloc: Global, segments: &[Segment]) -> Result<Vec<Span>, OutOfMemory>
    ensures { IfOk result (λ spans. spans.items ≡ spans_of segments.now) }
{
    let mut spans = Vec::new(alloc);
    for segment in segments {
        spans.push(segment.span())?;
    }
    Ok(spans)
}

fn page_flags(segments: &[Segment], number: u32) -> u8
    ensures { result ≡ page_flags segments.now number }
{
    let mut flags = 0;
    for segment in segments {
        if segment.span().has_page(number) {
            flags |= segment.flags;
        }
    }
    flags
}

fn page_bytes(segments: &[Segment], number: u32) -> [u8; 4096]
    requires { number < PAGE_NUMBERS }
    ensures { result ≡ image_page_bytes segments.now number }
{
    let mut page = [0; 4096];
    // The first segment that has a byte gives it, so the first is written last.
    for segment in segments.iter().rev() {
        write_part(&mut page, segment, number);
    }
    page
}

// Writes a segment's bytes to a page. Those after the bytes of the file are 0.
fn write_part(page: &mut [u8; 4096], segment: &Segment, number: u32)
    requires { number < PAGE_NUMBERS }
    ensures { (offset : ℕ) → offset < PAGE_BYTES → slice_index page.new offset
        ≡ (if has_byte segment.now (PAGE_BYTES * number + offset)
        then slice_index_or segment.now.bytes (PAGE_BYTES * number + offset - segment.now.addr) 0
        else slice_index page.old offset) }
{
    let start = u64::from(PAGE_BYTES * number);
    let first = start.max(u64::from(segment.addr));
    let end = (start + u64::from(PAGE_BYTES)).min(segment.span().end());
    let bytes = segment.bytes.as_slice();
    for address in first..end {
        let place = (address - u64::from(segment.addr)) as usize;
        page[(address - start) as usize] = bytes.get(place).copied().unwrap_or(0);
    }
}
