// Pages without their bytes.
ghost use Rattle.std.specs.Prelude.{◌≡◌, ◌<◌, IfSome, length, slice_get};
ghost use Rattle.shared_words.specs.Layout.{is_page_numbered, page_index};

/// The number and the flags of a page.
#[derive(Clone, Copy, PartialEq, Eq)]
pub struct MappedPage {
    /// Its address divided by 4,096.
    pub number: u32,
    /// Execute 1, write 2, read 4.
    pub flags: u8,
}

// Whether the page at an index has this number.
#[inline(always)]
pub(crate) fn is_at(pages: &[MappedPage], number: u32, index: usize) -> bool
    ensures { result ≡ is_page_numbered number (slice_get pages.now index) }
{
    match pages.get(index) {
        Some(page) => page.number == number,
        None => false,
    }
}

// The index of the page with this number.
#[cold]
#[inline(never)]
pub(crate) fn search(pages: &[MappedPage], number: u32) -> Option<usize>
    ensures inside { IfSome result (λ index. index < length pages.now) }
    ensures index { result ≡ page_index pages.now number }
{
    pages.iter().position(|page| page.number == number)
}
