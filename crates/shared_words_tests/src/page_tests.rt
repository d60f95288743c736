// Pages that become words, and pages again.
use cow_pages::Pages;
use dp_base::limits::{MAX_PAGES, PAGE_NUMBERS};
use dp_base::{Mem, OutOfMemory, Width};
use shared_words::SharedWords;
use std::alloc::Global;
use std::test::Fail;

// A page, and a word that is stored at an address.
pub(crate) type Row = (u32, u8, u32, u32);

// Maps a page of zeros, if that may be.
pub(crate) fn map(pages: &mut Pages, number: u32, flags: u8) -> Result<(), OutOfMemory> {
    if pages.flags(number).is_none()
        && number < PAGE_NUMBERS
        && flags < 8
        && pages.pages() < MAX_PAGES
    {
        pages.map_page(number, flags)?;
    }
    Ok(())
}

// Pages 10 and 11 with these flags.
pub(crate) fn two_pages(alloc: Global, low: u8, high: u8) -> Result<Pages, OutOfMemory> {
    let mut pages = Pages::new(alloc)?;
    map(&mut pages, 0x10, low)?;
    map(&mut pages, 0x11, high)?;
    Ok(pages)
}

// Whether two tables have the same pages.
pub(crate) fn are_same(left: &Pages, right: &Pages) -> bool {
    if left.pages() != right.pages() {
        return false;
    }
    for index in 0..left.pages() as usize {
        if !is_same_at(left, right, index) {
            return false;
        }
    }
    true
}

fn is_same_at(left: &Pages, right: &Pages, index: usize) -> bool {
    match (left.at(index), right.at(index)) {
        (Some(left), Some(right)) => {
            left.number == right.number && left.flags == right.flags && left.bytes == right.bytes
        }
        _ => false,
    }
}

pub(crate) fn rows() -> [Row; 6] {
    [
        (0, 0, 0x0000_0000, 0x0403_0201),
        (0x10, 6, 0x0001_0ffc, 0x8877_6655),
        (0x11, 2, 0x0001_1000, 0xffff_ffff),
        (0x12, 3, 0x0001_2801, 0x00ff_00ff),
        (0x7_fff0, 7, 0x7fff_0004, 0x8000_0000),
        (0xf_fffe, 6, 0xffff_effc, 1),
    ]
}

// The pages of the rows. Their words are stored if the page may be written.
pub(crate) fn pages_of(alloc: Global, rows: [Row; 6]) -> Result<Pages, OutOfMemory> {
    let mut pages = Pages::new(alloc)?;
    for (number, flags, address, word) in rows {
        map(&mut pages, number, flags)?;
        pages.store(address, Width::Four, word)?;
    }
    Ok(pages)
}

// How many pages there are, and whether they are the same after they were words.
fn kept(alloc: Global, rows: [Row; 6]) -> Result<(u32, bool), OutOfMemory> {
    let pages = pages_of(alloc, rows)?;
    let (words, seat) = SharedWords::of_pages(alloc, &pages)?;
    let back = words.into_pages(alloc, seat)?;
    Ok((back.pages(), are_same(&pages, &back)))
}

#[test]
fn pages_stay(rt: HostRuntime) -> Result<(), Fail> {
    assert_eq!(rt; kept(rt.alloc(), rows())?, (6, true));
    Ok(())
}
