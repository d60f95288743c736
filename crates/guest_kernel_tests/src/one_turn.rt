// One turn of a guest, for the tests.
ghost use Rattle.std.specs.Prelude.{◌<◌, ◌^◌};

use dp_base::{OutOfMemory, Tid};
use guest_kernel::{State, Turn};
use std::alloc::Global;

// A turn of a thread without an answer, the guest after it, and the output, which was these bytes before.
pub(crate) fn turn_behind(
    alloc: Global,
    before: State,
    tid: u16,
    written: &[u8],
) -> Result<(Turn, State, Vec<u8>), OutOfMemory>
    requires { before.steps < 2 ^ 63 }
{
    let mut state = before;
    let mut out = Vec::from_slice(alloc, written)?;
    let turn = state.turn(alloc, Tid(tid), None, &mut out)?;
    Ok((turn, state, out))
}

// The same, and how many bytes it wrote.
pub(crate) fn one_turn(
    alloc: Global,
    before: State,
    tid: u16,
) -> Result<(Turn, State, usize), OutOfMemory>
    requires { before.steps < 2 ^ 63 }
{
    let (turn, state, out) = turn_behind(alloc, before, tid, b"")?;
    Ok((turn, state, out.len()))
}
