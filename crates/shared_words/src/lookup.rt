// The index in the table of the word at an address.
ghost use Rattle.std.specs.Prelude.{◌≡◌, ◌/◌, ◌<◌, IfSome, Some, true, vec_len};
ghost use Rattle.shared_words.specs.Layout.{first_with, index_with, is_mapped, page_index, word_index};
ghost use Rattle.shared_words.specs.Words.{IsGuestWord, IsPageStart, pages_of, table_of};

use crate::layout::{FIRST_WORD, PAGE_WORDS};
use crate::mapped_page::{is_at, search};
use crate::shared_words::{HINTS, SharedWords};

impl SharedWords {
    /// Returns whether the page with this number is among the pages.
    pub fn is_mapped(&self, number: u32) -> bool
        ensures { result ≡ is_mapped (pages_of self.now) number }
    {
        self.page(number).is_some()
    }

    // The index of the page with this number.
    #[inline(always)]
    #[tactic(auto, using(crate::proofs::PageIndexes::page_index_is))]
    fn page(&self, number: u32) -> Option<usize>
        ensures index { result ≡ page_index (pages_of self.now) number }
        ensures inside { IfSome result (λ index. index < vec_len self.now.pages) }
    {
        let hint = self.hints[number as usize % HINTS] as usize;
        if is_at(&self.pages, number, hint) {
            return Some(hint);
        }
        search(&self.pages, number)
    }

    // The index of the first word of a page that has the flag.
    #[inline(always)]
    pub(crate) fn first_with(&self, flag: u8, number: u32) -> Option<usize>
        requires { 0 < flag }
        ensures first { result ≡ first_with flag (pages_of self.now) number }
        ensures inside { IfSome result (IsPageStart (table_of self.now)) }
    {
        let Some(index) = self.page(number) else {
            return None;
        };
        if self.pages[index].flags / flag % 2 == 1 {
            Some(FIRST_WORD + PAGE_WORDS * index)
        } else {
            None
        }
    }

    // The index of the word that holds an address, if its page has the flag.
    #[inline(always)]
    pub(crate) fn index_with(&self, flag: u8, address: u32) -> Option<usize>
        requires { 0 < flag }
        ensures index { result ≡ index_with flag (pages_of self.now) address }
        ensures inside { IfSome result (IsGuestWord (table_of self.now)) }
    {
        let Some(first) = self.first_with(flag, address / 4096) else {
            return None;
        };
        Some(first + (address % 4096 / 4) as usize)
    }

    // The index of the word that holds an address on a mapped page.
    #[inline(always)]
    pub(crate) fn index(&self, address: u32) -> usize
        requires { is_mapped (pages_of self.now) (address / 4096) ≡ true }
        ensures index { Some result ≡ word_index (pages_of self.now) address }
        ensures inside { IsGuestWord (table_of self.now) result }
    {
        match self.page(address / 4096) {
            Some(index) => FIRST_WORD + PAGE_WORDS * index + (address % 4096 / 4) as usize,
            None => unreachable!(),
        }
    }

    // How many words there are.
    #[inline(always)]
    pub(crate) fn word_count(&self) -> usize
        ensures { result ≡ (table_of self.now).words }
    {
        self.table.word_count()
    }
}
