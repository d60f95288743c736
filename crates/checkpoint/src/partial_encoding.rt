// A state's partial mark in memory: what changed since its base.
ghost use Rattle.std.specs.Prelude.{◌≡◌, ◌++◌, true, IfOk, IsErr, length, map, option_map};
ghost use Rattle.std.specs.List.{flat_map};
ghost use Rattle.byteorder.specs.Endian.{little_bytes};
ghost use Rattle.dp_base.specs.View.{page_of};
ghost use Rattle.guest_state.specs.Checkpoint.{end_bytes, thread_bytes, word};
ghost use Rattle.partial_mark.specs.Base.{content_against, fields_of, has_base_bytes, page_against, partial_of};
ghost use Rattle.partial_mark.specs.Partial.{content_bytes, counted_bytes, fields_bytes, partial_bytes, partial_page_bytes};
ghost use Rattle.checkpoint.specs.Sink.{Adds};
ghost use Rattle.checkpoint.specs.State.{IsEncodable, checkpoint_of};

use crate::base_page::look_up;
use crate::encoding::Buffer;
use crate::encoding_parts::{write_counted_threads, write_end, write_numbers, write_word};
use crate::sink::Sink;
use byte_lanes::equal_bytes;
use dp_base::{OutOfMemory, PageView};
use guest_kernel::State;
use partial_mark::PARTIAL_KIND;
use std::alloc::Global;

/// Returns the partial mark of a state against its base: all of the state, but the bytes of pages that are the same in
/// the base.
pub fn encode_partial(alloc: Global, state: &State, base: &State) -> Result<Vec<u8>, OutOfMemory>
    requires state { IsEncodable state.now }
    requires base { IsEncodable base.now }
    ensures { IfOk result (λ bytes. bytes.items ≡ partial_bytes (partial_of (checkpoint_of base.now) (checkpoint_of state.now))) }
{
    let mut buffer = Buffer {
        bytes: Vec::new(alloc),
    };
    write_partial(&mut buffer, state, base)?;
    Ok(buffer.bytes)
}

fn write_partial<S: Sink>(sink: &mut S, state: &State, base: &State) -> Result<(), OutOfMemory>
    ensures added { Adds S.holds sink.old sink.new result (partial_bytes (partial_of (checkpoint_of base.now) (checkpoint_of state.now))) }
{
    sink.put(&[PARTIAL_KIND])?;
    write_fields(sink, state)?;
    write_counted_threads(sink, state.threads.as_slice())?;
    write_counted_pages(sink, state, base)
}

// All but the threads and the pages.
fn write_fields<S: Sink>(sink: &mut S, state: &State) -> Result<(), OutOfMemory>
    ensures added { Adds S.holds sink.old sink.new result (fields_bytes (fields_of (checkpoint_of state.now))) }
{
    write_numbers(sink, state)?;
    write_end(sink, state.end)
}

// The pages, after their number.
fn write_counted_pages<S: Sink>(
    sink: &mut S,
    state: &State,
    base: &State,
) -> Result<(), OutOfMemory>
    ensures added { Adds S.holds sink.old sink.new result
        (counted_bytes partial_page_bytes (map (page_against base.now.pages) state.now.pages)) }
{
    sink.put(&(state.pages.pages() as u16).to_le_bytes())?;
    write_pages(sink, state, base)
}

fn write_pages<S: Sink>(sink: &mut S, state: &State, base: &State) -> Result<(), OutOfMemory>
    ensures added { Adds S.holds sink.old sink.new result
        (flat_map partial_page_bytes (map (page_against base.now.pages) state.now.pages)) }
{
    let count = state.pages.pages() as usize;
    let mut base_place = 0;
    'pages: for place in 0..count {
        let Some(page) = state.pages.at(place) else {
            unreachable!();
        };
        let (next_place, same_number) = look_up(&base.pages, base_place, page.number);
        write_page(sink, &page, same_number)?;
        base_place = next_place;
    }
    Ok(())
}

// A page, by the base's page with its number.
fn write_page<S: Sink>(
    sink: &mut S,
    page: &PageView<'_>,
    same_number: Option<PageView<'_>>,
) -> Result<(), OutOfMemory>
    ensures added { Adds S.holds sink.old sink.new result (word page.now.number ++ (little_bytes 1 page.now.flags
        ++ content_bytes (content_against (option_map page_of same_number.entry) (page_of page.now)))) }
{
    write_word(sink, page.number)?;
    sink.put(&[page.flags])?;
    if has_base_bytes(page.bytes, same_number) {
        sink.put(&[0])
    } else {
        sink.put(&[1])?;
        sink.put(page.bytes)
    }
}

// Whether a page has these bytes.
fn has_base_bytes(bytes: &[u8], page: Option<PageView<'_>>) -> bool
    ensures { result ≡ has_base_bytes bytes.now (option_map page_of page.entry) }
{
    match page {
        Some(page) => equal_bytes(page.bytes, bytes),
        None => false,
    }
}
