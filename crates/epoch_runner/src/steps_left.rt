// The steps that threads have left, by number.
ghost use Rattle.std.specs.Prelude.{◌≡◌, IfOk, OnOk};
ghost use Rattle.epoch_runner.specs.Hinted.{left_of, lefts, with_number};

use dp_base::{OutOfMemory, Tid};
use std::alloc::Global;

// The steps by counts. The first count of a thread is the one that counts.
pub(crate) fn lefts(alloc: Global, counts: &[(Tid, u32)]) -> Result<Vec<u32>, OutOfMemory>
    ensures { IfOk result (λ left. left.items ≡ lefts counts.now) }
{
    let mut left = Vec::new(alloc);
    let mut index = counts.len();
    'counts: while index > 0 {
        index -= 1;
        let (tid, steps) = counts[index];
        put_number(&mut left, tid.0 as usize, steps)?;
    }
    Ok(left)
}

// Puts a number at a place. Places that were missing before it get 0.
fn put_number(numbers: &mut Vec<u32>, place: usize, number: u32) -> Result<(), OutOfMemory>
    ensures { OnOk result (numbers.new.items ≡ with_number place number numbers.old.items) }
{
    'missing: while numbers.len() <= place {
        numbers.push(0)?;
    }
    numbers[place] = number;
    Ok(())
}

// How many steps a thread has left.
pub(crate) fn left_of(left: &[u32], tid: Tid) -> u32
    ensures { result ≡ left_of left.now tid }
{
    match left.get(tid.0 as usize) {
        Some(steps) => *steps,
        None => 0,
    }
}
