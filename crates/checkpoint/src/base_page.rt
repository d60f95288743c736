// The pages of a base, looked up by numbers that rise: one pass over all of them, and no search.
ghost use Rattle.std.specs.Prelude.{◌≡◌, IfSome, option_map};
ghost use Rattle.dp_base.specs.Memory.{IsPage, page_at};
ghost use Rattle.dp_base.specs.View.{page_of};
ghost use Rattle.checkpoint.specs.Against.{IsPast};

use dp_base::PageView;
use guest_kernel::Pages;

// Looks from a place on for the page with this number. Also returns the place from which to look for the next number.
pub(crate) fn look_up(pages: &Pages, place: usize, number: u32) -> (usize, Option<PageView<'_>>)
    requires { IsPast pages.now place number }
    ensures found { option_map page_of result.1 ≡ page_at pages.now number }
    ensures kept { IfSome result.1 (λ page. IsPage (page_of page)) }
    ensures past { IsPast pages.now result.0 number }
{
    let count = pages.pages() as usize;
    'places: for index in place..count {
        let Some(page) = pages.at(index) else {
            unreachable!();
        };
        if page.number == number {
            return (index, Some(page));
        }
        if page.number > number {
            return (index, None);
        }
    }
    (count, None)
}
