// Which word of the table is which: the ticket word first, then the words of each page, page after page.

// Words before those of the first page. The first one is the ticket word. The others aren't used: they keep the ticket
// word and the pages in different cache lines.
pub(crate) const FIRST_WORD: usize = 16;

// Words of a page.
pub(crate) const PAGE_WORDS: usize = 1024;

// Words of a block.
pub(crate) const BLOCK_WORDS: usize = 64;

// Blocks of a page.
pub(crate) const PAGE_BLOCKS: usize = 16;
