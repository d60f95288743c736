// The page that code was last fetched from. It is in a list of none or one: an `Option` in a table would make two cases of
// each drop of a state, in the proof of every function that drops one.
ghost use Rattle.std.specs.Prelude.{◌≡◌, IfSome, None, Some};
ghost use Rattle.std.specs.Option.{option_copied};

use crate::shared_page::SharedPage;
use std::alloc::Global;
use std::marker::Model;

#[derive(Drop)]
pub(crate) struct CodePage {
    kept: Vec<SharedPage>,
}

impl Model for CodePage {
    ghost use Rattle.std.specs.Prelude.{Option, slice_get};
    ghost use Rattle.dp_base.specs.declared.page.Page.{Page};

    ghost Value = { Option Page };

    ghost view = { λ c. slice_get c.kept.items 0 };
}

impl CodePage {
    // No page.
    pub(crate) fn none(alloc: Global) -> CodePage
        ensures { result ≡ None }
    {
        CodePage {
            kept: Vec::new(alloc),
        }
    }

    #[inline(always)]
    pub(crate) fn get(&self) -> Option<&SharedPage>
        ensures { option_copied result ≡ self.now }
    {
        self.kept.get(0)
    }

    // Keeps this page instead of the one before. If memory runs out it keeps none.
    pub(crate) fn keep(&mut self, page: Option<SharedPage>)
        ensures { IfSome self.new (λ kept. page ≡ Some kept) }
    {
        self.kept.clear();
        if let Some(page) = page {
            if self.kept.push(page).is_err() {
                self.kept.clear();
            }
        }
    }

    // Forgets the page if it has this number.
    pub(crate) fn forget(&mut self, number: u32)
        ensures { IfSome self.new (λ page. (number ≡ page.number → ⊥) × (self.old ≡ Some page)) }
    {
        let is_it = match self.get() {
            Some(page) => page.number() == number,
            None => false,
        };
        if is_it {
            self.kept.clear();
        }
    }
}
