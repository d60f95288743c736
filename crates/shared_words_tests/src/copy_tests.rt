// Words and pages that are kept in step.
ghost use Rattle.std.specs.Prelude.{◌≡◌, IfOk};
ghost use Rattle.shared_words.specs.Copied.{AreMarksOf};
ghost use Rattle.shared_words.specs.Rule.{all_tickets, view_of};
ghost use Rattle.shared_words.specs.Words.{IsSeatAt, table_of};

use crate::page_tests::{are_same, pages_of, rows};
use cow_pages::Pages;
use dp_base::{AmoOp, Mem, OutOfMemory, Width};
use shared_words::{Marks, Naming, RacingMem, Seat, SharedWords};
use std::alloc::Global;
use std::marker::Brand;
use std::test::Fail;

// Stores to five blocks of four pages. Page 0 and page 12 can't be read, and page 0 can't be written.
fn store_some<M: Mem>(memory: &mut M) -> Result<(), OutOfMemory> {
    memory.store(0x0000_0000, Width::Four, 7)?;
    memory.store(0x0001_0ffc, Width::Four, 0x0102_0304)?;
    memory.store(0x0001_10fe, Width::Four, 0x0506_0708)?;
    memory.store(0x0001_2802, Width::One, 9)?;
    memory.amo(0x7fff_0004, AmoOp::Add, 10)?;
    memory.load(0x7fff_0800, Width::Four);
    Ok(())
}

// Stores to two blocks of one page and to one of another.
fn store_more<M: Mem>(memory: &mut M) -> Result<(), OutOfMemory> {
    memory.store(0x0001_0000, Width::Four, 11)?;
    memory.store(0x0001_0ffc, Width::Two, 12)?;
    memory.store(0xffff_e100, Width::Four, 13)?;
    Ok(())
}

// What a hart has stored to, and a seat.
fn stored_at<J: Naming>(
    alloc: Global,
    words: &SharedWords,
    seat: Seat,
) -> Result<(Marks, Seat), OutOfMemory>
    requires named { table_of words.now ≡ J.table }
    requires seat { IsSeatAt J.table seat }
    requires view { view_of seat ≡ all_tickets }
    ensures seat { IfOk result (λ r. IsSeatAt J.table r.1) }
    ensures marks { IfOk result (λ r. AreMarksOf words.now r.0) }
{
    let (seat, other) = words.split(seat);
    let mut memory = RacingMem::<J>::new(alloc, words, other)?;
    store_some(&mut memory)?;
    let (other, _log, stored) = memory.into_parts();
    let mut marks = words.no_marks(alloc)?;
    marks.add(&stored);
    Ok((marks, words.join(seat, other)))
}

// How many blocks are marked, and whether the pages to which they are copied are as if the hart had stored there.
fn copied(alloc: Global) -> Result<(usize, bool), OutOfMemory> {
    let mut pages = pages_of(alloc, rows())?;
    let (words, seat) = SharedWords::of_pages(alloc, &pages)?;
    let mut copies = pages.share(alloc)?;
    let (marks, mut seat) = stored_at::<Brand>(alloc, &words, seat)?;
    words.copy_to(&mut seat, &marks, &mut copies)?;
    store_some(&mut pages)?;
    Ok((marks.count(), are_same(&copies, &pages)))
}

// The pages of words to which changes were copied, if the pages are said to be these before.
fn changed(alloc: Global, before: &Pages, pages: &Pages) -> Result<Option<Pages>, OutOfMemory> {
    let (words, mut seat) = SharedWords::of_pages(alloc, before)?;
    if !words.fits(alloc, pages)? {
        return Ok(None);
    }
    words.copy_changes(&mut seat, before, pages);
    Ok(Some(words.into_pages(alloc, seat)?))
}

// Whether words have the changes of pages, and whether words of other pages fit.
fn changes(alloc: Global) -> Result<(bool, bool), OutOfMemory> {
    let before = pages_of(alloc, rows())?;
    let mut pages = before.share(alloc)?;
    store_more(&mut pages)?;
    let is_changed = match changed(alloc, &before, &pages)? {
        Some(back) => are_same(&back, &pages) && !are_same(&back, &before),
        None => false,
    };
    pages.unmap_page(0x11)?;
    Ok((is_changed, changed(alloc, &before, &pages)?.is_some()))
}

// Whether blocks that are said to be the same aren't stored.
fn unchanged(alloc: Global) -> Result<bool, OutOfMemory> {
    let before = pages_of(alloc, rows())?;
    let mut pages = before.share(alloc)?;
    store_more(&mut pages)?;
    let (words, mut seat) = SharedWords::of_pages(alloc, &before)?;
    if words.fits(alloc, &pages)? {
        words.copy_changes(&mut seat, &pages, &pages);
    }
    let back = words.into_pages(alloc, seat)?;
    Ok(are_same(&back, &before))
}

#[test]
fn in_step(rt: HostRuntime) -> Result<(), Fail> {
    assert_eq!(rt; copied(rt.alloc())?, (5, true));
    assert_eq!(rt; changes(rt.alloc())?, (true, false));
    assert!(rt; unchanged(rt.alloc())?);
    Ok(())
}
