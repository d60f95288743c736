// Words that are kept from pass to pass.
ghost use Rattle.std.specs.Prelude.{◌≡◌, ◌*◌, ◌<◌, ◌≤◌, ◌^◌, IfOk, map};
ghost use Rattle.shared_words.specs.Layout.{mapped_page};
ghost use Rattle.shared_words.specs.Rule.{view_of};
ghost use Rattle.shared_words.specs.Words.{IsSeatOf};

use cow_pages::Pages;
use dp_base::OutOfMemory;
use shared_words::{Seat, SharedWords};
use std::alloc::Global;

// How many passes may use the same words: each may take 2^43 tickets of 2^62.
const MAX_KEPT_PASSES: u32 = 0x0008_0000;

// Shared words, the pages of which they have the words, and how many more passes may use them.
#[derive(Drop)]
pub(crate) struct KeptWords {
    pub(crate) words: SharedWords,
    pub(crate) seat: Seat,
    pub(crate) passes: u32,
    pub(crate) pages: Pages,
    // How many blocks of words were stored to in the last pass.
    pub(crate) blocks: u32,
    ghost seated: { IsSeatOf words seat },
    ghost budget: { passes * 2 ^ 43 ≤ (view_of seat).budget },
}

impl KeptWords {
    // Makes the words of these pages.
    fn new(alloc: Global, pages: &Pages) -> Result<KeptWords, OutOfMemory>
        ensures { IfOk result (λ kept. 0 < kept.passes) }
    {
        let (words, seat) = SharedWords::of_pages(alloc, pages)?;
        Ok(KeptWords {
            words,
            seat,
            passes: MAX_KEPT_PASSES,
            pages: Pages::new(alloc)?,
            blocks: 0,
        })
    }
}

// The words of these pages: those that were kept, if they fit and may be used again.
pub(crate) fn words_of(
    alloc: Global,
    kept: Option<KeptWords>,
    pages: &Pages,
) -> Result<KeptWords, OutOfMemory>
    ensures { IfOk result (λ kept. 0 < kept.passes) }
{
    let Some(kept) = kept else {
        return KeptWords::new(alloc, pages);
    };
    if kept.passes == 0 || !kept.words.fits(alloc, pages)? {
        return KeptWords::new(alloc, pages);
    }
    let KeptWords {
        words,
        mut seat,
        passes,
        pages: before,
        blocks,
    } = kept;
    words.copy_changes(&mut seat, &before, pages);
    Ok(KeptWords {
        words,
        seat,
        passes,
        pages: before,
        blocks,
    })
}

// How many blocks of words were stored to in the last pass.
pub(crate) fn blocks_of(kept: &Option<KeptWords>) -> u32 {
    match kept {
        Some(kept) => kept.blocks,
        None => 0,
    }
}
