// The call read, before it takes any input.
ghost use Rattle.std.specs.Prelude.{◌≡◌};
ghost use Rattle.turn_peek.specs.ReadCall.{read_at_once};

use crate::calls::{A0, A1, A2, EBADF, EFAULT, STANDARD_INPUT};
use cow_pages::Pages;
use dp_base::limits::MAX_CALL_BYTES;
use guest_state::Hart;

/// Returns what the call read answers at once, or `None` if it takes input. `hart` has its arguments.
pub fn read_at_once(hart: &Hart, pages: &Pages) -> Option<u32>
    ensures { result ≡ read_at_once pages.now hart.now }
{
    if hart.register(A0) != STANDARD_INPUT {
        return Some(EBADF);
    }
    let len = hart.register(A2);
    if len == 0 {
        return Some(0);
    }
    if pages.may_write_range(hart.register(A1), len.min(MAX_CALL_BYTES)) {
        None
    } else {
        Some(EFAULT)
    }
}
