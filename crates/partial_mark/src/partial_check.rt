// Whether bytes are a partial mark, with nothing of it stored.
ghost use Rattle.std.specs.Prelude.{◌≡◌, is_some, length, option_map};
ghost use Rattle.dp_base.specs.Encoding.{whole};
ghost use Rattle.dp_base.specs.Journal.{many_at};
ghost use Rattle.guest_state.specs.Checkpoint.{live, rising, thread_from};
ghost use Rattle.guest_state.specs.View.{counting, testing};
ghost use Rattle.partial_mark.specs.Partial.{parts_from, partial_from, partial_page_from};
ghost use Rattle.partial_mark.specs.View.{outlines};

use crate::fields::read_fields;
use crate::page::read_partial_page;
use dp_base::journal_writer::PARTIAL_KIND;
use dp_base::little_endian::{read_u8, read_u16};
use guest_state::{CheckpointBounds, alive_count, read_thread};

/// Returns whether the bytes are one partial mark, and nothing follows it. Takes no memory.
pub fn is_partial(bytes: &[u8]) -> bool
    ensures { result ≡ is_some (whole partial_from bytes.now) }
{
    match skip_partial(bytes) {
        Some(rest) => rest.is_empty(),
        None => false,
    }
}

/// Returns the bytes after a partial mark. Returns `None` exactly if the bytes don't start with one. Takes no memory.
#[tactic(auto, unfolding(crate::specs::Partial::partial_from))]
pub fn skip_partial(bytes: &[u8]) -> Option<&[u8]>
    ensures { option_map (λ x. x.now) result ≡ option_map (λ x. x.1) (partial_from bytes.now) }
{
    let (kind, rest) = read_u8(bytes)?;
    if kind == PARTIAL_KIND {
        skip_parts(rest)
    } else {
        None
    }
}

// The bytes after all that follows the kind.
#[tactic(auto, unfolding(crate::specs::Partial::parts_from, crate::specs::Partial::counted_from))]
fn skip_parts(bytes: &[u8]) -> Option<&[u8]>
    ensures { option_map (λ x. x.now) result ≡ option_map (λ x. x.1) (parts_from bytes.now) }
{
    let (fields, rest) = read_fields(bytes)?;
    let (threads, rest) = read_u16(rest)?;
    let (live, rest) = skip_threads(threads, rest)?;
    let (pages, rest) = read_u16(rest)?;
    let (rising, rest) = skip_pages(pages, rest)?;
    let bounds = CheckpointBounds {
        heap: fields.heap,
        brk: fields.brk,
        end: fields.end,
        threads,
        live,
        pages,
        rising,
    };
    if bounds.hold() { Some(rest) } else { None }
}

// The number of threads that are alive, and the bytes after them.
fn skip_threads(count: u16, bytes: &[u8]) -> Option<(usize, &[u8])>
    ensures { option_map (λ x. counting count x.0 x.1.now) result
        ≡ option_map (λ x. counting (length x.0) (live x.0) x.1) (many_at thread_from count bytes.now) }
{
    let mut alive = 0;
    let mut rest = bytes;
    'threads: for _ in 0..count {
        let Some((thread, behind)) = read_thread(rest) else {
            return None;
        };
        alive += alive_count(&thread);
        rest = behind;
    }
    Some((alive, rest))
}

// Whether the numbers of the pages rise, and the bytes after them.
fn skip_pages(count: u16, bytes: &[u8]) -> Option<(bool, &[u8])>
    ensures { option_map (λ x. testing count x.0 x.1.now) result
        ≡ option_map (λ x. testing (length x.0) (rising (outlines x.0)) x.1) (many_at partial_page_from count bytes.now) }
{
    let mut all_rise = true;
    let mut least = 0;
    let mut rest = bytes;
    'pages: for _ in 0..count {
        let Some((page, behind)) = read_partial_page(rest) else {
            return None;
        };
        all_rise &= least <= page.number;
        least = page.number + 1;
        rest = behind;
    }
    Some((all_rise, rest))
}
