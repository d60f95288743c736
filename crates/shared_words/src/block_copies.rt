// Words that are kept in step with pages, a block at a time.
ghost use Rattle.std.specs.Prelude.{◌≡◌, ◌↔◌, ◌+◌, ◌*◌, ◌<◌, ◌≤◌, All, IfOk, IsTrue, List, OnOk, false, length, map, vec_len};
ghost use Rattle.dp_base.specs.declared.limits.TheConstants.{PAGE_BYTES};
ghost use Rattle.dp_base.specs.declared.page.Page.{Page};
ghost use Rattle.shared_words.specs.Copied.{AreCopied, AreMarksOf, HasAllChanges, HasChanges, HasChangesIn, HasEachWord, IsStoredIn, IsWordOf, OnlyLoads, OnlyStores, block_address, page_bytes_at};
ghost use Rattle.shared_words.specs.Layout.{mapped_page};
ghost use Rattle.shared_words.specs.Rule.{view_of};
ghost use Rattle.shared_words.specs.Words.{IsSeatOf, pages_of, table_of};
ghost use Rattle.shared_words.specs.declared.layout.TheConstants.{BLOCK_WORDS, FIRST_WORD, PAGE_BLOCKS, PAGE_WORDS};

use crate::layout::{BLOCK_WORDS, FIRST_WORD, PAGE_BLOCKS, PAGE_WORDS};
use crate::marks::Marks;
use crate::pages_of_words::put_word;
use crate::shared_words::{Seat, SharedWords};
use crate::words_of_pages::{read_mapped, word_in};
use cow_pages::Pages;
use dp_base::OutOfMemory;
use std::alloc::Global;

// Bytes of a block.
const BLOCK_BYTES: usize = 256;

impl SharedWords {
    /// Returns whether these pages have the numbers and flags of the pages that the words were made of.
    ///
    /// # Errors
    ///
    /// `OutOfMemory` if an allocation fails.
    pub fn fits(&self, alloc: Global, pages: &Pages) -> Result<bool, OutOfMemory>
        ensures { IfOk result (λ fits. IsTrue fits ↔ (map mapped_page pages.now ≡ pages_of self.now)) }
    {
        let mapped = read_mapped(alloc, pages)?;
        Ok(mapped.as_slice() == self.pages.as_slice())
    }

    /// Returns marks of no block.
    ///
    /// # Errors
    ///
    /// `OutOfMemory` if an allocation fails.
    pub fn no_marks(&self, alloc: Global) -> Result<Marks, OutOfMemory>
        ensures sized { IfOk result (AreMarksOf self.now) }
        ensures unmarked { IfOk result (λ marks. All (λ marked. marked ≡ false) marks.blocks.items) }
    {
        Marks::new(alloc, PAGE_BLOCKS * self.pages.len())
    }

    /// Copies the words of the marked blocks to pages, if these may be written. Each word is loaded in one step.
    ///
    /// # Errors
    ///
    /// `OutOfMemory` if an allocation fails. Some blocks have been copied then.
    pub fn copy_to(
        &self,
        seat: &mut Seat,
        marks: &Marks,
        pages: &mut Pages,
    ) -> Result<(), OutOfMemory>
        requires seat { IsSeatOf self.now seat.old }
        requires sized { AreMarksOf self.now marks.now }
        ensures seat { IsSeatOf self.now seat.new }
        ensures view { OnlyLoads (view_of seat.old) (view_of seat.new) }
        ensures pages { OnOk result (AreCopied (pages_of self.now) marks.now.blocks.items (vec_len marks.now.blocks) pages.old pages.new) }
    {
        for block in 0..marks.blocks.len() {
            self.copy_block(seat, marks, block, pages)?;
        }
        Ok(())
    }

    // Copies a block if it is marked.
    fn copy_block(
        &self,
        seat: &mut Seat,
        marks: &Marks,
        block: usize,
        pages: &mut Pages,
    ) -> Result<(), OutOfMemory>
        requires seat { IsSeatOf self.now seat.old }
        requires sized { AreMarksOf self.now marks.now }
        requires inside { block < vec_len marks.now.blocks }
        ensures seat { IsSeatOf self.now seat.new }
        ensures view { OnlyLoads (view_of seat.old) (view_of seat.new) }
        ensures pages { OnOk result ((first : List Page) → AreCopied (pages_of self.now) marks.now.blocks.items block first pages.old → AreCopied (pages_of self.now) marks.now.blocks.items (block + 1) first pages.new) }
    {
        if marks.contains(block) {
            let bytes = self.load_block(seat, block);
            pages.write_range(self.block_address(block), &bytes)?;
            return Ok(());
        }
        Ok(())
    }

    // The address of the first byte of a block.
    fn block_address(&self, block: usize) -> u32
        requires { block < PAGE_BLOCKS * vec_len self.now.pages }
        ensures { result ≡ block_address (pages_of self.now) block }
    {
        let number = self.pages[block / PAGE_BLOCKS].number;
        4096 * number + (BLOCK_BYTES * (block % PAGE_BLOCKS)) as u32
    }

    // Loads the words of a block.
    fn load_block(&self, seat: &mut Seat, block: usize) -> [u8; 256]
        requires seat { IsSeatOf self.now seat.old }
        requires inside { block < PAGE_BLOCKS * vec_len self.now.pages }
        ensures seat { IsSeatOf self.now seat.new }
        ensures view { OnlyLoads (view_of seat.old) (view_of seat.new) }
        ensures size { length result ≡ 4 * BLOCK_WORDS }
    {
        let mut bytes = [0; 256];
        for index in 0..BLOCK_WORDS {
            let word = self.load_at(seat, FIRST_WORD + BLOCK_WORDS * block + index);
            put_word(&mut bytes, 4 * index, u64::from(word));
        }
        bytes
    }

    /// Stores the words of pages, block by block, but for blocks that are as they were before in the page at the same
    /// index. Each word is stored in one step.
    pub fn copy_changes(&self, seat: &mut Seat, before: &Pages, pages: &Pages)
        requires seat { IsSeatOf self.now seat.old }
        requires fits { map mapped_page pages.now ≡ pages_of self.now }
        ensures seat { IsSeatOf self.now seat.new }
        ensures view { OnlyStores (IsWordOf pages.now) (HasAllChanges before.now pages.now) (view_of seat.old) (view_of seat.new) }
    {
        for index in 0..self.pages.len() {
            let Some(page) = pages.at(index) else {
                return;
            };
            self.store_changes(seat, index, page_bytes_at(before, index), page.bytes);
        }
    }

    // Stores the blocks of a page, but for those that are as they were before.
    fn store_changes(&self, seat: &mut Seat, page: usize, before: &[u8], bytes: &[u8])
        requires seat { IsSeatOf self.now seat.old }
        requires inside { page < vec_len self.now.pages }
        requires whole { length bytes.now ≡ PAGE_BYTES }
        ensures seat { IsSeatOf self.now seat.new }
        ensures view { OnlyStores (IsStoredIn (FIRST_WORD + PAGE_WORDS * page) PAGE_WORDS bytes.now) (HasChanges page before.now bytes.now) (view_of seat.old) (view_of seat.new) }
    {
        if before == bytes {
            return;
        }
        for block in 0..PAGE_BLOCKS {
            self.store_change(seat, page, block, before, bytes);
        }
    }

    // Stores a block of a page, if it isn't as it was before.
    fn store_change(&self, seat: &mut Seat, page: usize, block: usize, before: &[u8], bytes: &[u8])
        requires seat { IsSeatOf self.now seat.old }
        requires inside { page < vec_len self.now.pages }
        requires block { block < PAGE_BLOCKS }
        requires whole { length bytes.now ≡ PAGE_BYTES }
        ensures seat { IsSeatOf self.now seat.new }
        ensures view { OnlyStores (IsStoredIn (FIRST_WORD + PAGE_WORDS * page) PAGE_WORDS bytes.now) (HasChangesIn block page before.now bytes.now) (view_of seat.old) (view_of seat.new) }
    {
        let start = BLOCK_BYTES * block;
        let end = start + BLOCK_BYTES;
        let new = &bytes[start..end];
        if end <= before.len() && &before[start..end] == new {
            return;
        }
        self.store_block(seat, PAGE_BLOCKS * page + block, new);
    }

    // Stores the words of a block.
    fn store_block(&self, seat: &mut Seat, block: usize, bytes: &[u8])
        requires seat { IsSeatOf self.now seat.old }
        requires inside { block < PAGE_BLOCKS * vec_len self.now.pages }
        requires whole { length bytes.now ≡ 4 * BLOCK_WORDS }
        ensures seat { IsSeatOf self.now seat.new }
        ensures view { OnlyStores (IsStoredIn (FIRST_WORD + BLOCK_WORDS * block) BLOCK_WORDS bytes.now) (HasEachWord (FIRST_WORD + BLOCK_WORDS * block) BLOCK_WORDS) (view_of seat.old) (view_of seat.new) }
    {
        for index in 0..BLOCK_WORDS {
            self.store_at(
                seat,
                FIRST_WORD + BLOCK_WORDS * block + index,
                word_in(bytes, 4 * index),
            );
        }
    }
}

// The bytes of the page at an index. None if there is no such page.
fn page_bytes_at(pages: &Pages, index: usize) -> &[u8]
    ensures { result.now ≡ page_bytes_at pages.now index }
{
    match pages.at(index) {
        Some(page) => page.bytes,
        None => &[],
    }
}
