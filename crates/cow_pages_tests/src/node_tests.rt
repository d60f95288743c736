// Pages in several nodes of a table, and at their ends.
use crate::page_tests::map;
use cow_pages::Pages;
use dp_base::{Access, Mem, OutOfMemory, Width};
use std::alloc::Global;
use std::test::Fail;

// The addresses of the first and last page of the first node, the first page of the second, and the last that can be
// mapped.
fn starts() -> [u32; 4] {
    [0, 0x003f_f000, 0x0040_0000, 0xffff_e000]
}

fn of_nodes(alloc: Global) -> Result<Pages, OutOfMemory> {
    let mut pages = Pages::new(alloc)?;
    for start in starts() {
        map(&mut pages, start / 4096, 6)?;
    }
    Ok(pages)
}

// A bit for each page: whether its first byte is 1.
fn stored_to(pages: &mut Pages) -> u32 {
    let mut found = 0;
    for start in starts() {
        found = found % 8 * 2;
        if pages.load(start, Width::One) == Access::Done(1) {
            found += 1;
        }
    }
    found
}

// The pages that are stored to in a table and in a share of it, through which a byte was stored.
fn share_stored_to(alloc: Global, address: u32) -> Result<(u32, u32), OutOfMemory> {
    let mut pages = of_nodes(alloc)?;
    let mut share = pages.share(alloc)?;
    share.store(address, Width::One, 1)?;
    Ok((stored_to(&mut pages), stored_to(&mut share)))
}

#[test]
fn a_share_stored_to_in_each_node(rt: HostRuntime) -> Result<(), Fail> {
    let cases = [
        (0x0000_0000, 8),
        (0x003f_f000, 4),
        (0x0040_0000, 2),
        (0xffff_e000, 1),
    ];
    for (address, found) in cases {
        let stored = share_stored_to(rt.alloc(), address)?;
        assert_eq!(rt; stored, (0, found), "{address:08x}");
    }
    Ok(())
}

fn number_at(pages: &Pages, place: usize) -> Option<u32> {
    match pages.at(place) {
        Some(page) => Some(page.number),
        None => None,
    }
}

// The number of the third page, where the second node's only page is unmapped and mapped again: in a share from before,
// when it is unmapped, and at the end.
fn emptied(alloc: Global) -> Result<(Option<u32>, Option<u32>, Option<u32>), OutOfMemory> {
    let mut pages = of_nodes(alloc)?;
    let share = pages.share(alloc)?;
    pages.unmap_page(0x400)?;
    let unmapped = number_at(&pages, 2);
    map(&mut pages, 0x400, 4)?;
    Ok((number_at(&share, 2), unmapped, number_at(&pages, 2)))
}

#[test]
fn a_node_that_becomes_empty(rt: HostRuntime) -> Result<(), Fail> {
    assert_eq!(rt;
        emptied(rt.alloc())?,
        (Some(0x400), Some(0xf_fffe), Some(0x400))
    );
    Ok(())
}
