// Words made of pages.
ghost use Rattle.std.specs.Prelude.{◌≡◌, ℕ, ◌+◌, ◌*◌, ◌/◌, ◌%◌, ◌<◌, ◌≤◌, ◌^◌, All, IfOk, length, map, slice_index, vec_len};
ghost use Rattle.shared_words.specs.Layout.{HasPageBytes, HasPageWords, mapped_page, word_byte};
ghost use Rattle.shared_words.specs.Rule.{all_tickets, view_of};
ghost use Rattle.shared_words.specs.Words.{IsSeatOf, pages_of, words_start};
ghost use Rattle.shared_words.specs.declared.layout.TheConstants.{FIRST_WORD, PAGE_WORDS};
ghost use Rattle.shared_words.specs.declared.shared_words.TheConstants.{HINTS};

use crate::layout::{FIRST_WORD, PAGE_WORDS};
use crate::mapped_page::MappedPage;
use crate::shared_words::{HINTS, Seat, SharedWords};
use atomic_table::Table;
use cow_pages::Pages;
use dp_base::OutOfMemory;
use std::alloc::Global;

impl SharedWords {
    /// Shares the words of these pages. Returns them with the first seat, which may take 2^62 tickets.
    ///
    /// # Errors
    ///
    /// `OutOfMemory` if an allocation fails.
    pub fn of_pages(alloc: Global, pages: &Pages) -> Result<(SharedWords, Seat), OutOfMemory>
        ensures seat { IfOk result (λ r. IsSeatOf r.0 r.1) }
        ensures view { IfOk result (λ r. view_of r.1 ≡ all_tickets) }
        ensures mapped { IfOk result (λ r. pages_of r.0 ≡ map mapped_page pages.now) }
        ensures words { IfOk result (λ r. HasPageWords (pages_of r.0) (words_start r.0) pages.now) }
    {
        let mapped = read_mapped(alloc, pages)?;
        // Its clause bounds the number of pages.
        let _kept = pages.pages();
        let words = read_words(alloc, pages, mapped.len())?;
        let hints = make_hints(alloc, &mapped)?;
        let (table, seat) = Table::of_words(alloc, &words, &words)?;
        Ok((
            SharedWords {
                table,
                pages: mapped,
                hints,
            },
            seat,
        ))
    }
}

pub(crate) fn read_mapped(alloc: Global, pages: &Pages) -> Result<Vec<MappedPage>, OutOfMemory>
    ensures { IfOk result (λ mapped. mapped.items ≡ map mapped_page pages.now) }
{
    let mut mapped = Vec::new(alloc);
    let count = pages.pages() as usize;
    for index in 0..count {
        let Some(page) = pages.at(index) else {
            return Ok(mapped);
        };
        mapped.push(MappedPage {
            number: page.number,
            flags: page.flags,
        })?;
    }
    Ok(mapped)
}

fn read_words(alloc: Global, pages: &Pages, count: usize) -> Result<Vec<u64>, OutOfMemory>
    requires count { count ≡ length pages.now }
    requires few { count ≤ 1024 }
    ensures small { IfOk result (λ words. All (λ w. w < 2 ^ 32) words.items) }
    ensures sized { IfOk result (λ words. length words.items ≡ FIRST_WORD + PAGE_WORDS * count) }
    ensures no_tickets { IfOk result (λ words. slice_index words.items 0 ≡ 0) }
    ensures words { IfOk result (λ words. HasPageBytes words.items count pages.now) }
{
    let mut words = vec![in alloc; 0; FIRST_WORD + PAGE_WORDS * count]?;
    fill_pages(&mut words, pages, count);
    Ok(words)
}

fn fill_pages(words: &mut [u64], pages: &Pages, count: usize)
    requires count { count ≡ length pages.now }
    requires sized { length words.old ≡ FIRST_WORD + PAGE_WORDS * count }
    requires small { All (λ w. w < 2 ^ 32) words.old }
    ensures small { All (λ w. w < 2 ^ 32) words.new }
    ensures ticket_word { slice_index words.new 0 ≡ slice_index words.old 0 }
    ensures words { HasPageBytes words.new count pages.now }
{
    for index in 0..count {
        match pages.at(index) {
            Some(page) => fill_page(words, FIRST_WORD + PAGE_WORDS * index, page.bytes),
            None => unreachable!(),
        }
    }
}

fn fill_page(words: &mut [u64], first: usize, bytes: &[u8])
    requires inside { first + PAGE_WORDS ≤ length words.old }
    requires whole { length bytes.now ≡ 4096 }
    requires small { All (λ w. w < 2 ^ 32) words.old }
    ensures small { All (λ w. w < 2 ^ 32) words.new }
    ensures before { (i : ℕ) → i < first → slice_index words.new i ≡ slice_index words.old i }
    ensures page { (k : ℕ) → k < 4096 → slice_index bytes.now k ≡ word_byte (slice_index words.new (first + k / 4)) (k % 4) }
{
    for index in 0..PAGE_WORDS {
        words[first + index] = u64::from(word_in(bytes, 4 * index));
    }
}

// The word at an offset of some bytes.
#[inline(always)]
pub(crate) fn word_in(bytes: &[u8], at: usize) -> u32
    requires { at + 4 ≤ length bytes.now }
    ensures { (k : ℕ) → k < 4 → slice_index bytes.now (at + k) ≡ word_byte result k }
{
    u32::from_le_bytes([bytes[at], bytes[at + 1], bytes[at + 2], bytes[at + 3]])
}

fn make_hints(alloc: Global, pages: &[MappedPage]) -> Result<Vec<u16>, OutOfMemory>
    ensures { IfOk result (λ hints. vec_len hints ≡ HINTS) }
{
    let mut hints = vec![in alloc; 0; HINTS]?;
    set_hints(&mut hints, pages);
    Ok(hints)
}

fn set_hints(hints: &mut [u16], pages: &[MappedPage])
    requires { length hints.old ≡ HINTS }
{
    for index in 0..pages.len() {
        hints[pages[index].number as usize % HINTS] = (index & 0xffff) as u16;
    }
}
