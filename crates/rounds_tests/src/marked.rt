// Recordings with marks, and the records that their journals have.
//
// The guest is `WRITES`: it has 9 steps, of which the sixth writes three bytes. By the format's tables the header has
// 133 bytes, the record of an epoch of one slice 20, and that of a mark 270: the guest has one thread that runs, and 17
// pages, to which it stores nothing.
ghost use Rattle.std.specs.Prelude.{◌<◌, ◌≤◌};

use crate::recorded::{Left, recorded};
use racing_runner::ChaosRacer;
use recorder::Options;
use std::alloc::Global;
use std::sync::Wait;
use std::test::Fail;
use std::thread::Threads;
use test_files::WRITES;
use test_journals::{Kind, seen};
use test_worlds::{Failing, inlet_of, world_of};

// Where the first record's gate is.
pub(crate) const FIRST_GATE: u64 = 133;

// How many records a journal here has at most.
const MOST_RECORDS: u32 = 20;

// The bytes of the body of a mark here.
const MARK_BYTES: usize = 265;

// The steps of an epoch, the epochs from one mark to the next, and the journal's room.
pub(crate) fn options(epoch: u32, mark: u32, room: u64) -> Options
    requires some_steps { 0 < epoch }
    requires few_steps { epoch ≤ 1000000 }
    requires mark { mark ≤ 1000 }
    requires room { room ≤ 1073741824 }
{
    Options {
        workers: 2,
        epoch,
        slice: 1000,
        ahead: 16,
        mark,
        limit: 1_000_000_000,
        room,
    }
}

// A recording with a `ChaosRacer` of this number, where some calls on the disk and some emits of one byte fail.
pub(crate) fn left_by<R: Threads + Wait + Sync>(
    rt: &R,
    alloc: Global,
    number: u32,
    options: Options,
    disk: Failing,
    sink: Failing,
) -> Result<Left, Fail> {
    let inlet = inlet_of(alloc, &[], &[], Failing::Never)?;
    let world = world_of(alloc, disk, sink, 1)?;
    let racer = ChaosRacer::new(number);
    recorded(rt, alloc, &WRITES, options, inlet, world, racer)
}

// How many steps a mark's record says that the guest has taken.
fn steps_at(journal: &[u8], gate: u64) -> u64 {
    let mut steps = 0;
    for offset in 0..8u64 {
        let place = gate.saturating_add(6 + offset) as usize;
        let byte = journal.get(place).copied().unwrap_or(0);
        steps |= u64::from(byte) << (8 * offset);
    }
    steps
}

// The records of a journal in their order, and then its end: `E` for an epoch, `M` and its step count for a partial
// mark that is as long as one here, and a dot where the journal ends. Anything else is a question mark.
pub(crate) fn records_in(alloc: Global, journal: &[u8]) -> Result<String, Fail> {
    let mut text = String::new(alloc);
    let mut at = FIRST_GATE;
    for _ in 0..MOST_RECORDS {
        match seen(journal, at) {
            (Kind::Epoch, next, _) => {
                text.push_str("E")?;
                at = next;
            }
            (Kind::Partial, next, MARK_BYTES) => {
                text.push_str(&format!(in alloc; "M{}", steps_at(journal, at))?)?;
                at = next;
            }
            (Kind::End, _, _) => {
                text.push_str(".")?;
                break;
            }
            _ => {
                text.push_str("?")?;
                break;
            }
        }
    }
    Ok(text)
}
