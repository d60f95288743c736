// The words of a guest's pages.
ghost use Rattle.std.specs.Prelude.{◌≡◌, ◌+◌, ◌*◌, vec_len};
ghost use Rattle.shared_words.specs.Layout.{AreMapped};
ghost use Rattle.shared_words.specs.declared.layout.TheConstants.{FIRST_WORD, PAGE_WORDS};
ghost use Rattle.shared_words.specs.declared.shared_words.TheConstants.{HINTS};

use crate::mapped_page::MappedPage;
use crate::rule::WordRule;
use crate::view::View;
use atomic_table::Table;
use std::alloc::Global;

/// What a thread needs to reach shared words. It takes no bytes.
pub type Seat = atomic_table::Seat<(), View>;

// How many hints there are.
pub(crate) const HINTS: usize = 4096;

/// The words of a guest's pages, which threads share.
#[derive(Drop)]
pub struct SharedWords {
    pub(crate) table: Table<(), View, Vec<u64>, WordRule, Global>,
    // In rising order of number.
    pub(crate) pages: Vec<MappedPage>,
    // The index of a page in that list, by its number. A hint is checked when it is used.
    pub(crate) hints: Vec<u16>,
    ghost sized: { table.shared.table_id.words ≡ FIRST_WORD + PAGE_WORDS * vec_len pages },
    ghost hinted: { vec_len hints ≡ HINTS },
    ghost mapped: { AreMapped pages.items },
    ghost no_slots: { table.shared.table_id.slots ≡ 0 },
}
