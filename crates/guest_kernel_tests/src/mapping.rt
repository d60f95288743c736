// Pages of a guest that tests map.
use dp_base::OutOfMemory;
use dp_base::limits::{MAX_PAGES, PAGE_NUMBERS};
use guest_kernel::Pages;

// Maps a page of zeros, if that is possible.
pub(crate) fn map(pages: &mut Pages, number: u32, flags: u8) -> Result<(), OutOfMemory> {
    if number >= PAGE_NUMBERS || flags >= 8 || pages.pages() >= MAX_PAGES {
        return Ok(());
    }
    match pages.flags(number) {
        Some(_) => Ok(()),
        None => pages.map_page(number, flags),
    }
}
