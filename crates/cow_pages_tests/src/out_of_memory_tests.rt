// First stores to pages that are shared, which copy them. With ample memory each of them stores.
// `tests/out_of_memory.sh` makes each allocation of each test fail in turn: one that a store needs has to be answered
// by `OutOfMemory`, and to leave both tables.
use crate::page_tests::{map, two_pages};
use cow_pages::Pages;
use dp_base::{Access, AmoOp, Mem, OutOfMemory, Width};
use std::alloc::Global;
use std::test::Fail;

#[derive(Clone, Copy, Debug, PartialEq, Eq)]
enum Change {
    Store(u32, Width),
    Amo,
    Conditional,
    Range(u32),
}

// What a change did to a share, of a table that stays as it was.
#[derive(Clone, Copy, Debug, PartialEq, Eq)]
enum Outcome {
    Stored,
    KeptOutOfMemory,
    Wrong,
}

fn make(pages: &mut Pages, change: Change) -> Result<(), OutOfMemory> {
    match change {
        Change::Store(address, width) => {
            pages.store(address, width, 0x0403_0201)?;
        }
        Change::Amo => {
            pages.amo(0x0001_0ffc, AmoOp::Add, 1)?;
        }
        Change::Conditional => {
            pages.store_conditional(0x0001_0ffc, 1)?;
        }
        Change::Range(address) => {
            pages.write_range(address, &[1, 2, 3, 4])?;
        }
    }
    Ok(())
}

fn word(pages: &mut Pages, address: u32) -> u32 {
    match pages.load(address, Width::Four) {
        Access::Done(word) => word,
        _ => 0,
    }
}

// The words at the end of the first page and at the start of the second.
fn words(pages: &mut Pages) -> (u32, u32) {
    (word(pages, 0x0001_0ffc), word(pages, 0x0001_1000))
}

fn first_store(alloc: Global, change: Change) -> Result<Outcome, OutOfMemory> {
    let mut pages = two_pages(alloc, 6, 6)?;
    pages.store(0x0001_0ffc, Width::Four, 0x1413_1211)?;
    pages.store(0x0001_1000, Width::Four, 0x1817_1615)?;
    // This puts the pages in hand back into the tree.
    map(&mut pages, 0x12, 6)?;
    let before = words(&mut pages);
    let mut share = pages.share(alloc)?;
    let answer = make(&mut share, change);
    let (left, after) = (words(&mut pages), words(&mut share));
    Ok(match answer {
        Ok(()) if left == before && after != before => Outcome::Stored,
        Err(OutOfMemory) if left == before && after == before => Outcome::KeptOutOfMemory,
        _ => Outcome::Wrong,
    })
}

#[test]
fn a_byte(rt: HostRuntime) -> Result<(), Fail> {
    assert_eq!(rt;
        first_store(rt.alloc(), Change::Store(0x0001_0ffd, Width::One))?,
        Outcome::Stored
    );
    Ok(())
}

#[test]
fn a_half(rt: HostRuntime) -> Result<(), Fail> {
    assert_eq!(rt;
        first_store(rt.alloc(), Change::Store(0x0001_0ffe, Width::Two))?,
        Outcome::Stored
    );
    Ok(())
}

#[test]
fn a_word(rt: HostRuntime) -> Result<(), Fail> {
    assert_eq!(rt;
        first_store(rt.alloc(), Change::Store(0x0001_0ffc, Width::Four))?,
        Outcome::Stored
    );
    Ok(())
}

#[test]
fn a_half_across_pages(rt: HostRuntime) -> Result<(), Fail> {
    assert_eq!(rt;
        first_store(rt.alloc(), Change::Store(0x0001_0fff, Width::Two))?,
        Outcome::Stored
    );
    Ok(())
}

#[test]
fn a_word_across_pages(rt: HostRuntime) -> Result<(), Fail> {
    assert_eq!(rt;
        first_store(rt.alloc(), Change::Store(0x0001_0ffe, Width::Four))?,
        Outcome::Stored
    );
    Ok(())
}

#[test]
fn an_amo(rt: HostRuntime) -> Result<(), Fail> {
    assert_eq!(rt; first_store(rt.alloc(), Change::Amo)?, Outcome::Stored);
    Ok(())
}

#[test]
fn a_conditional_store(rt: HostRuntime) -> Result<(), Fail> {
    assert_eq!(rt;
        first_store(rt.alloc(), Change::Conditional)?,
        Outcome::Stored
    );
    Ok(())
}

#[test]
fn a_range(rt: HostRuntime) -> Result<(), Fail> {
    assert_eq!(rt;
        first_store(rt.alloc(), Change::Range(0x0001_1000))?,
        Outcome::Stored
    );
    Ok(())
}

#[test]
fn a_range_across_pages(rt: HostRuntime) -> Result<(), Fail> {
    assert_eq!(rt;
        first_store(rt.alloc(), Change::Range(0x0001_0ffd))?,
        Outcome::Stored
    );
    Ok(())
}
