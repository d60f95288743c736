// Which words were stored to.
ghost use Rattle.std.specs.Prelude.{◌≡◌, ℕ, ◌+◌, ◌*◌, ◌<◌, ◌≤◌, ◌||◌, IfOk, count_by, false, true, length, replicate, slice_index_or, slice_set, vec_len};
ghost use Rattle.shared_words.specs.Copied.{block_of, is_marked};
ghost use Rattle.shared_words.specs.declared.layout.TheConstants.{FIRST_WORD, BLOCK_WORDS};

use crate::layout::{BLOCK_WORDS, FIRST_WORD};
use dp_base::OutOfMemory;
use std::alloc::Global;

/// Which blocks of words were stored to. A block is 64 words of a page, and each page has 16 blocks.
#[derive(Drop)]
pub struct Marks {
    // One for each block, page after page.
    pub(crate) blocks: Vec<bool>,
}

impl Marks {
    // No block is marked.
    pub(crate) fn new(alloc: Global, blocks: usize) -> Result<Marks, OutOfMemory>
        ensures { IfOk result (λ marks. marks.blocks.items ≡ replicate blocks false) }
    {
        let blocks = vec![in alloc; false; blocks]?;
        Ok(Marks { blocks })
    }

    // Marks the block of a word.
    #[inline(always)]
    pub(crate) fn set(&mut self, word: usize)
        requires guest { FIRST_WORD ≤ word }
        requires inside { block_of word < vec_len self.old.blocks }
        ensures { self.new.blocks.items ≡ slice_set self.old.blocks.items (block_of word) true }
    {
        self.blocks[(word - FIRST_WORD) / BLOCK_WORDS] = true;
    }

    // Whether a block is marked.
    #[inline(always)]
    pub(crate) fn contains(&self, block: usize) -> bool
        requires { block < vec_len self.now.blocks }
        ensures { result ≡ is_marked self.now.blocks.items block }
    {
        self.blocks[block]
    }

    /// Marks the blocks that others have marked.
    pub fn add(&mut self, other: &Marks)
        ensures len { vec_len self.new.blocks ≡ vec_len self.old.blocks }
        ensures blocks { (i : ℕ) → i < vec_len self.old.blocks → slice_index_or self.new.blocks.items i false ≡ (slice_index_or self.old.blocks.items i false || slice_index_or other.now.blocks.items i false) }
    {
        for index in 0..self.blocks.len().min(other.blocks.len()) {
            self.blocks[index] = self.blocks[index] || other.blocks[index];
        }
    }

    /// Returns how many blocks are marked.
    pub fn count(&self) -> usize
        ensures { result ≡ count_by (λ b. b) self.now.blocks.items }
    {
        self.blocks.iter().filter(|block| **block).count()
    }
}
