// How guests of words start.
ghost use Rattle.std.specs.Prelude.{◌≡◌, IfOk};

use guest_kernel::{State, start_from_file};
use std::alloc::Global;
use std::test::Fail;
use test_files::file_of;

pub(crate) fn started(alloc: Global, words: &[u32]) -> Result<State, Fail>
    ensures steps { IfOk result (λ state. state.steps ≡ 0) }
    ensures input { IfOk result (λ state. state.input ≡ 0) }
{
    Ok(start_from_file(alloc, &file_of(alloc, words)?)?)
}
