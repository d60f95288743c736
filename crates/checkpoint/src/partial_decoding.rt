// A state from its partial mark and the mark's base.
ghost use Rattle.std.specs.Prelude.{◌≡◌, ◌<◌, All, IfOk, IfSome, OnOk, is_some, length, option_map};
ghost use Rattle.dp_base.specs.declared.limits.TheConstants.{MAX_PAGES};
ghost use Rattle.dp_base.specs.Memory.{page_at};
ghost use Rattle.partial_mark.specs.Base.{page_over, restored};
ghost use Rattle.partial_mark.specs.View.{IsPageRead, partial_page_of};
ghost use Rattle.checkpoint.specs.Against.{HoldPages, before, before_pages, pages_restored, with_last};
ghost use Rattle.checkpoint.specs.State.{IsEncodable, checkpoint_of};

use crate::base_page::look_up;
use crate::decoding::read_threads;
use dp_base::OutOfMemory;
use dp_base::little_endian::{read_u8, read_u16};
use guest_kernel::{Pages, State, Threads};
use guest_state::Thread;
use partial_mark::{Fields, PartialPageView, is_partial, read_fields, read_partial_page};
use std::alloc::Global;

/// Returns the state whose partial mark against this base these bytes are. Returns `None` exactly if they are no
/// partial mark, also if more bytes follow it, or if the base lacks a page of which the mark has no bytes.
pub fn decode_partial(
    alloc: Global,
    body: &[u8],
    base: &State,
) -> Result<Option<State>, OutOfMemory>
    requires { IsEncodable base.now }
    ensures found { IfOk result (λ found. option_map checkpoint_of found ≡ restored (checkpoint_of base.now) body.now) }
    ensures encodable { IfOk result (λ found. IfSome found IsEncodable) }
{
    partial_mark::laws::whole_partials();
    partial_mark::laws::a_partial_stands_for_a_checkpoint();
    if !is_partial(body) {
        return Ok(None);
    }
    let Some((fields, threads, page_count, rest)) = read_before_pages(alloc, body)? else {
        return Ok(None);
    };
    let Some(pages) = restore_pages(alloc, page_count, rest, &base.pages)? else {
        return Ok(None);
    };
    Ok(Some(State {
        pages,
        heap: fields.heap,
        brk: fields.brk,
        threads: Threads::from_vec(threads),
        input: fields.input,
        steps: fields.steps,
        end: fields.end,
    }))
}

// The fields before the pages, the number of pages, and their bytes.
#[tactic(auto, unfolding(crate::specs::Against::before_pages))]
fn read_before_pages(
    alloc: Global,
    body: &[u8],
) -> Result<Option<(Fields, Vec<Thread>, u16, &[u8])>, OutOfMemory>
    ensures { IfOk result (λ found. option_map (λ x. before x.0 x.1.items x.2 x.3.now) found ≡ before_pages body.now) }
{
    let Some((_kind, rest)) = read_u8(body) else {
        return Ok(None);
    };
    let Some((fields, rest)) = read_fields(rest) else {
        return Ok(None);
    };
    let Some((thread_count, rest)) = read_u16(rest) else {
        return Ok(None);
    };
    let Some((threads, rest)) = read_threads(alloc, thread_count, rest)? else {
        return Ok(None);
    };
    let Some((page_count, rest)) = read_u16(rest) else {
        return Ok(None);
    };
    Ok(Some((fields, threads, page_count, rest)))
}

// So many pages, with the base's bytes where they have none. Returns `None` if the base lacks one of those.
fn restore_pages(
    alloc: Global,
    count: u16,
    bytes: &[u8],
    base: &Pages,
) -> Result<Option<Pages>, OutOfMemory>
    requires { HoldPages count bytes.now }
    ensures { IfOk result (λ found. found ≡ pages_restored base.now count bytes.now) }
{
    let mut pages = Pages::new(alloc)?;
    let mut base_place = 0;
    let mut rest = bytes;
    'pages: for _ in 0..count {
        let Some((page, behind)) = read_partial_page(rest) else {
            return Ok(None);
        };
        let (next_place, same_number) = look_up(base, base_place, page.number);
        if !map_over(&mut pages, base, same_number.is_some(), page)? {
            return Ok(None);
        }
        base_place = next_place;
        rest = behind;
    }
    Ok(Some(pages))
}

// Maps a page after all others: with its own bytes, or with those of the base, which both then share. Returns whether
// there are such bytes.
fn map_over(
    pages: &mut Pages,
    base: &Pages,
    is_in_base: bool,
    page: PartialPageView<'_>,
) -> Result<bool, OutOfMemory>
    requires above { All (λ p. p.number < page.number) pages.old }
    requires room { length pages.old < MAX_PAGES }
    requires read { IsPageRead (partial_page_of page) }
    requires in_base { is_in_base ≡ is_some (page_at base.now page.number) }
    ensures answer { IfOk result (λ mapped. mapped ≡ is_some (page_over base.now (partial_page_of page.entry))) }
    ensures ok { OnOk result (pages.new ≡ with_last pages.old (page_over base.now (partial_page_of page.entry))) }
{
    match page.content {
        Some(bytes) => {
            pages.map_above(page.number, page.flags, bytes)?;
            Ok(true)
        }
        None => {
            if !is_in_base {
                return Ok(false);
            }
            pages.map_above_shared(page.number, page.flags, base)?;
            Ok(true)
        }
    }
}
