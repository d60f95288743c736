// Stores to pages that have the same entry in hand, in a table and in shares of it. An entry is the sum of the page's
// number and of its part above the low ten bits, modulo 128. So the pages at 00010000, 00090000, 00110000, 00190000 and
// 0040F000 have entry 16, and the one at 00011000 has entry 17.
use crate::page_tests::map;
use cow_pages::Pages;
use dp_base::{Access, Mem, OutOfMemory, Width};
use std::alloc::Global;
use std::test::Fail;

#[derive(Clone, Copy)]
enum Step {
    ToTable(u32, u32),
    ToShare(u32, u32),
    // The share becomes one of the table as it is.
    Share,
    // Both take their pages in hand.
    Hold,
}

#[derive(Drop)]
struct Tables {
    table: Pages,
    share: Pages,
}

fn starts() -> [u32; 4] {
    [0x0001_0000, 0x0009_0000, 0x0040_f000, 0x0001_1000]
}

fn table_and_share(alloc: Global) -> Result<Tables, OutOfMemory> {
    let mut table = Pages::new(alloc)?;
    for start in starts() {
        map(&mut table, start / 4096, 6)?;
    }
    let share = table.share(alloc)?;
    Ok(Tables { table, share })
}

// The first bytes of the four pages, each a digit.
fn digits(pages: &mut Pages) -> u32 {
    let mut found = 0;
    for start in starts() {
        if let Access::Done(byte) = pages.load(start, Width::One) {
            found = found % 1000 * 10 + byte % 10;
        }
    }
    found
}

fn apply(alloc: Global, tables: &mut Tables, step: Step) -> Result<(), OutOfMemory> {
    match step {
        Step::ToTable(address, byte) => {
            tables.table.store(address, Width::One, byte)?;
        }
        Step::ToShare(address, byte) => {
            tables.share.store(address, Width::One, byte)?;
        }
        Step::Share => {
            tables.share = tables.table.share(alloc)?;
        }
        Step::Hold => {
            tables.table.take_in_hand()?;
            tables.share.take_in_hand()?;
        }
    }
    Ok(())
}

// Each step, and the digits of the table and of the share after it.
fn rows() -> [(Step, u32, u32); 15] {
    [
        (Step::ToTable(0x0001_0000, 1), 1000, 0),
        (Step::ToTable(0x0009_0000, 2), 1200, 0),
        (Step::Share, 1200, 1200),
        (Step::Hold, 1200, 1200),
        (Step::ToShare(0x0001_0000, 3), 1200, 3200),
        (Step::ToTable(0x0009_0000, 4), 1400, 3200),
        (Step::ToTable(0x0040_f000, 5), 1450, 3200),
        (Step::ToShare(0x0009_0000, 6), 1450, 3600),
        (Step::ToTable(0x0001_1000, 7), 1457, 3600),
        (Step::Share, 1457, 1457),
        (Step::Hold, 1457, 1457),
        (Step::ToShare(0x0040_f000, 8), 1457, 1487),
        (Step::ToTable(0x0040_f000, 9), 1497, 1487),
        (Step::ToShare(0x0001_0000, 2), 1497, 2487),
        (Step::Hold, 1497, 2487),
    ]
}

#[test]
fn stores_to_one_entry(rt: HostRuntime) -> Result<(), Fail> {
    let alloc = rt.alloc();
    let mut tables = table_and_share(alloc)?;
    for (step, of_table, of_share) in rows() {
        apply(alloc, &mut tables, step)?;
        let found = (digits(&mut tables.table), digits(&mut tables.share));
        assert_eq!(rt; found, (of_table, of_share));
    }
    Ok(())
}

// What a store answers on a page that isn't mapped and on one that is only readable, and the digits after it.
fn denied(alloc: Global, address: u32) -> Result<(Access<()>, u32), OutOfMemory> {
    let mut pages = table_and_share(alloc)?.table;
    map(&mut pages, 0x190, 4)?;
    pages.store(0x0001_0000, Width::One, 1)?;
    let answer = pages.store(address, Width::One, 2)?;
    Ok((answer, digits(&mut pages)))
}

#[test]
fn denied_stores_to_one_entry(rt: HostRuntime) -> Result<(), Fail> {
    let alloc = rt.alloc();
    assert_eq!(rt; denied(alloc, 0x0011_0000)?, (Access::Denied, 1000));
    assert_eq!(rt; denied(alloc, 0x0019_0000)?, (Access::Denied, 1000));
    Ok(())
}
