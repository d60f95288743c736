// Equality of states, part by part.
ghost use Rattle.std.specs.Prelude.{◌≡◌, ◌↔◌, IsTrue};
ghost use Rattle.dp_base.specs.View.{page_of};
ghost use Rattle.state_compare.specs.Numbers.{HasSameNumbers};

use byte_lanes::equal_bytes;
use dp_base::PageView;
use guest_kernel::{Pages, State};
use guest_state::Thread;

/// Returns whether two states are the same. Takes no memory.
pub fn equal(left: &State, right: &State) -> bool
    ensures { IsTrue result ↔ (left.now ≡ right.now) }
{
    if !equal_numbers(left, right) {
        return false;
    }
    equal_threads(left.threads.as_slice(), right.threads.as_slice())
        && equal_pages(&left.pages, &right.pages)
}

// Whether all but the threads and the pages are the same.
fn equal_numbers(left: &State, right: &State) -> bool
    ensures { IsTrue result ↔ HasSameNumbers left.now right.now }
{
    left.steps == right.steps
        && left.input == right.input
        && left.heap == right.heap
        && left.brk == right.brk
        && left.end == right.end
}

fn equal_threads(left: &[Thread], right: &[Thread]) -> bool
    ensures { IsTrue result ↔ (left.now ≡ right.now) }
{
    if left.len() != right.len() {
        return false;
    }
    for place in 0..left.len() {
        if !equal_thread(&left[place], &right[place]) {
            return false;
        }
    }
    true
}

fn equal_thread(left: &Thread, right: &Thread) -> bool
    ensures { IsTrue result ↔ (left.now ≡ right.now) }
{
    left == right
}

fn equal_pages(left: &Pages, right: &Pages) -> bool
    ensures { IsTrue result ↔ (left.now ≡ right.now) }
{
    if left.pages() != right.pages() {
        return false;
    }
    let count = left.pages() as usize;
    for place in 0..count {
        let (Some(one), Some(other)) = (left.at(place), right.at(place)) else {
            unreachable!();
        };
        if !equal_page(&one, &other) {
            return false;
        }
    }
    true
}

fn equal_page(left: &PageView<'_>, right: &PageView<'_>) -> bool
    ensures { IsTrue result ↔ (page_of left.now ≡ page_of right.now) }
{
    left.number == right.number && left.flags == right.flags && equal_bytes(left.bytes, right.bytes)
}
