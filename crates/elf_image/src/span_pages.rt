// What is asked of the segments of a file together.
ghost use Rattle.std.specs.Prelude.{◌≡◌, ◌+◌, ◌≤◌, ◌++◌, ◌||◌, ℕ, Bool, [], ◌∷◌, All, IfOk, take};
ghost use Rattle.std.specs.List.{list_any};
ghost use Rattle.elf_image.specs.Next.{IsNextPassing};
ghost use Rattle.elf_image.specs.Segment.{MEMORY_END, has_page, heap_start, meet, overlap, stack, start_pages};

use crate::span::{STACK, Span};
use dp_base::OutOfMemory;
use dp_base::limits::{MAX_PAGES, PAGE_BYTES};
use std::alloc::Global;

/// Returns whether two of the spans have a byte in common.
pub(crate) fn overlap(spans: &[Span]) -> bool
    ensures { result ≡ overlap spans.now }
{
    let mut rest = spans;
    while let [first, others @ ..] = rest {
        if meets_one(*first, others) {
            return true;
        }
        rest = others;
    }
    false
}

fn meets_one(span: Span, others: &[Span]) -> bool
    ensures { result ≡ list_any (λ t. meet span.addr span.size t.addr t.size) others.now }
{
    others.iter().any(|other| span.meets(*other))
}

/// Returns the numbers of the pages that a guest starts with, in rising order: those that have a byte of one of the
/// spans, and those of the stack. If there are more than a guest may have, it returns the first of them, one more than
/// a guest may have.
pub(crate) fn first_pages(alloc: Global, spans: &[Span]) -> Result<Vec<u32>, OutOfMemory>
    requires { All (λ s. s.addr + s.size ≤ MEMORY_END) spans.now }
    ensures { IfOk result (λ numbers. numbers.items ≡ take (MAX_PAGES + 1) (start_pages spans.now)) }
{
    let mut numbers = Vec::new(alloc);
    let mut least = 0;
    while numbers.len() <= MAX_PAGES as usize {
        let Some(number) = next_page(spans, least) else {
            return Ok(numbers);
        };
        numbers.push(number)?;
        least = number + 1;
    }
    Ok(numbers)
}

// The least number from one on of a page that has a byte of one of the spans or of the stack.
fn next_page(spans: &[Span], least: u32) -> Option<u32>
    ensures { IsNextPassing (λ number. list_any (λ s. has_page s number) (spans.now ++ stack ∷ [])) least result }
{
    let mut next = None;
    for span in spans {
        next = lesser(next, span.next_page(least));
    }
    lesser(next, STACK.next_page(least))
}

// The lesser of two numbers, or the one that there is.
fn lesser(a: Option<u32>, b: Option<u32>) -> Option<u32>
    ensures { (p q : ℕ → Bool) (least : ℕ) → IsNextPassing p least a → IsNextPassing q least b → IsNextPassing (λ k. p k || q k) least result }
{
    match (a, b) {
        (Some(a), Some(b)) => Some(a.min(b)),
        (Some(a), None) => Some(a),
        (None, b) => b,
    }
}

/// Returns the start of the next page after the span that ends last.
pub(crate) fn heap_start(spans: &[Span]) -> u32
    requires { All (λ s. s.addr + s.size ≤ MEMORY_END) spans.now }
    ensures { result ≡ heap_start spans.now }
{
    let mut top = 0;
    for span in spans {
        top = top.max(span.addr + span.size);
    }
    (top + (PAGE_BYTES - 1)) / PAGE_BYTES * PAGE_BYTES
}
