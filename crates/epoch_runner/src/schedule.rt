// Whose slice is next.
ghost use Rattle.std.specs.Prelude.{◌≡◌, nat_le};
ghost use Rattle.epoch_runner.specs.Answering.{ready_at};
ghost use Rattle.epoch_runner.specs.Lowest.{lowest_from};
ghost use Rattle.epoch_runner.specs.Schedule.{begins_with};
ghost use Rattle.epoch_runner.specs.SliceRun.{next_slice};

use crate::ready_threads::{can_step, ready_at};
use dp_base::Tid;
use dp_base::limits::EPOCH_END_BYTES;
use guest_kernel::State;
use supply::Supply;

// The thread of the next slice: the lowest one that can step from a number on, or else the lowest of all. `None` if the
// epoch ends, by the bytes that it has written and read and the steps that it may still have.
pub(crate) fn next_thread(
    state: &State,
    supply: &Supply,
    written: usize,
    read: usize,
    left: u32,
    least: usize,
) -> Option<Tid>
    ensures { begins_with result ≡ next_slice state.now supply.now written read left least }
{
    if !can_step(state, supply) || left == 0 || is_long(written) || is_long(read) {
        return None;
    }
    match lowest_from(state, supply, least) {
        Some(tid) => Some(tid),
        None => lowest_from(state, supply, 1),
    }
}

// Whether an epoch ends that has written, or read, this many bytes.
pub(crate) fn is_long(count: usize) -> bool
    ensures { result ≡ nat_le EPOCH_END_BYTES count }
{
    count >= EPOCH_END_BYTES as usize
}

// The lowest thread that can step and has at least this number.
pub(crate) fn lowest_from(state: &State, supply: &Supply, least: usize) -> Option<Tid>
    ensures { result ≡ lowest_from (ready_at state.now supply.now) least state.now.threads }
{
    let mut number = least.max(1);
    'threads: while number <= state.threads.len() {
        let tid = Tid(number as u16);
        if ready_at(state, supply, tid) {
            return Some(tid);
        }
        number += 1;
    }
    None
}
