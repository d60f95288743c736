// Calls as letters.
ghost use Rattle.std.specs.Prelude.{◌≡◌, ◌≤◌, map, IfOk};
ghost use Rattle.test_worlds.specs.Letters.{letter_of, sized};

use disk_mem::Call;
use std::alloc::{AllocError, Global};

/// Returns a letter for each call, in order: A (attach), L (length), R (read), W (write), C (cut), S (sync) and E
/// (emit), in lower case if it failed.
pub fn letters_of(alloc: Global, calls: &[Call]) -> Result<Vec<u8>, AllocError>
    ensures { IfOk result (λ letters. letters.items ≡ map letter_of calls.now) }
{
    let mut letters = Vec::new(alloc);
    for call in calls {
        letters.push(letter(call))?;
    }
    Ok(letters)
}

fn letter(call: &Call) -> u8
    ensures { result ≡ letter_of call.now }
{
    match call {
        Call::Attach { ok } => sized(b'A', *ok),
        Call::Len { ok } => sized(b'L', *ok),
        Call::Read { ok, .. } => sized(b'R', *ok),
        Call::Write { ok, .. } => sized(b'W', *ok),
        Call::Cut { ok, .. } => sized(b'C', *ok),
        Call::Sync { ok } => sized(b'S', *ok),
        Call::Emit { ok, .. } => sized(b'E', *ok),
    }
}

// The letter, small unless this is true.
fn sized(letter: u8, ok: bool) -> u8
    requires { letter ≤ 90 }
    ensures { result ≡ sized letter ok }
{
    if ok { letter } else { letter + (b'a' - b'A') }
}
