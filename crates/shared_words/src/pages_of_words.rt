// Pages made of words that no thread shares any more.
ghost use Rattle.std.specs.Prelude.{◌≡◌, ℕ, ◌+◌, ◌*◌, ◌/◌, ◌%◌, ◌<◌, ◌≤◌, IfOk, length, slice_index};
ghost use Rattle.core.specs.Mem.Slots.{slots_items, slots_len, IsFull};
ghost use Rattle.shared_words.specs.Closing.{ClosesTo};
ghost use Rattle.shared_words.specs.Layout.{AreMapped, HasPageWords, word_byte};
ghost use Rattle.shared_words.specs.Rule.{view_of};
ghost use Rattle.shared_words.specs.Words.{IsSeatOf, pages_of, words_start, table_of};
ghost use Rattle.shared_words.specs.declared.layout.TheConstants.{FIRST_WORD, PAGE_WORDS};

use crate::layout::{FIRST_WORD, PAGE_WORDS};
use crate::mapped_page::MappedPage;
use crate::shared_words::{Seat, SharedWords};
use atomic_table::Closed;
use cow_pages::Pages;
use dp_base::OutOfMemory;
use std::alloc::Global;

impl SharedWords {
    /// Returns the pages, with their numbers and flags as `of_pages` found them. Their words are those of one moment:
    /// they keep the rule, with what is known of this seat.
    ///
    /// # Errors
    ///
    /// `OutOfMemory` if an allocation fails. The words are lost then.
    pub fn into_pages(self, alloc: Global, seat: Seat) -> Result<Pages, OutOfMemory>
        requires { IsSeatOf self seat }
        ensures { IfOk result (λ pages. ClosesTo (pages_of self) (words_start self) (table_of self).words (view_of seat) pages) }
    {
        let SharedWords {
            table,
            pages: mapped,
            hints: _,
        } = self;
        let closed = table.close_with(seat);
        let pages = make_pages(alloc, &closed, &mapped);
        closed.free();
        pages
    }
}

fn make_pages(
    alloc: Global,
    closed: &Closed<(), Global>,
    mapped: &[MappedPage],
) -> Result<Pages, OutOfMemory>
    requires sized { slots_len closed.now.words ≡ FIRST_WORD + PAGE_WORDS * length mapped.now }
    requires full { IsFull closed.now.words }
    requires mapped { AreMapped mapped.now }
    ensures { IfOk result (λ pages. HasPageWords mapped.now (slots_items closed.now.words) pages) }
{
    let mut pages = Pages::new(alloc)?;
    let mut bytes = [0; 4096];
    for index in 0..mapped.len() {
        fill_bytes(&mut bytes, closed, FIRST_WORD + PAGE_WORDS * index);
        pages.map_above(mapped[index].number, mapped[index].flags, &bytes)?;
    }
    Ok(pages)
}

fn fill_bytes(bytes: &mut [u8], closed: &Closed<(), Global>, first: usize)
    requires inside { first + PAGE_WORDS ≤ slots_len closed.now.words }
    requires full { IsFull closed.now.words }
    requires whole { length bytes.old ≡ 4096 }
    ensures { (k : ℕ) → k < 4096 → slice_index bytes.new k ≡ word_byte (slice_index (slots_items closed.now.words) (first + k / 4)) (k % 4) }
{
    for index in 0..PAGE_WORDS {
        put_word(bytes, 4 * index, closed.word(first + index));
    }
}

#[inline(always)]
pub(crate) fn put_word(bytes: &mut [u8], at: usize, word: u64)
    requires { at + 4 ≤ length bytes.old }
    ensures before { (k : ℕ) → k < at → slice_index bytes.new k ≡ slice_index bytes.old k }
    ensures word { (k : ℕ) → k < 4 → slice_index bytes.new (at + k) ≡ word_byte word k }
{
    bytes[at] = (word & 0xff) as u8;
    bytes[at + 1] = (word >> 8 & 0xff) as u8;
    bytes[at + 2] = (word >> 16 & 0xff) as u8;
    bytes[at + 3] = (word >> 24 & 0xff) as u8;
}
