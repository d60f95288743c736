// Cases of a racing run, and what is offered in them.
use crate::offer_text::push_offer;
use dp_base::limits::{MAX_EPOCH_STEPS, MAX_JOBS};
use guest_kernel::{State, start_from_file};
use racing_runner::{ChaosRacer, Offer, Plan, Racer, offers_of};
use std::alloc::{AllocError, Global};
use std::test::Fail;
use std::thread::Threads;
use supply::{MAX_ROOM, Supply};
use test_files::file_of;
use test_worlds::{Failing, inlet_of};

// A line of a table. A case is a line of numbers with blanks in between, and a line for each offer, as `push_offer` has
// it. The numbers are the racer's, the steps of an epoch and of a slice, the jobs, the steps that are left (2^62 for
// `all`), and the first thread.
pub(crate) type Line = &'static str;

// The steps that are left in a case that says `all`.
const ALL: u64 = 1 << 62;

// The window after this many refills from an input of these bytes, and the stamp 7.
pub(crate) fn supply_of(alloc: Global, bytes: &[u8], refills: u32) -> Result<Supply, Fail> {
    let mut inlet = inlet_of(alloc, &[bytes], &[], Failing::Never)?;
    let mut supply = Supply::new(alloc, MAX_ROOM)?;
    for _ in 0..refills {
        if !supply.has_ended() && supply.window_end() < 1 << 62 {
            let _ = supply.refill(&mut inlet);
        }
    }
    supply.set_stamp(7);
    Ok(supply)
}

pub(crate) fn start(alloc: Global, words: &[u32]) -> Result<State, Fail> {
    Ok(start_from_file(alloc, &file_of(alloc, words)?)?)
}

fn numbers_of(line: &str) -> [u64; 6] {
    let mut numbers = [0; 6];
    for (number, word) in numbers.iter_mut().zip(line.split(' ')) {
        *number = word.parse().unwrap_or(ALL);
    }
    numbers
}

fn word_of(number: u64) -> u32 {
    number.min(u32::MAX as u64) as u32
}

// The plan of the numbers of a case, moved into the bounds of a plan.
fn plan_of([_, epoch, slice, jobs, left, first]: [u64; 6]) -> Plan {
    Plan {
        epoch: word_of(epoch).min(MAX_EPOCH_STEPS).max(1),
        slice: word_of(slice).max(1),
        jobs: word_of(jobs).min(MAX_JOBS).max(1),
        left: left.min(ALL),
        first: first.min(u16::MAX as u64) as u16,
    }
}

pub(crate) fn plan_in(line: &str) -> Plan {
    plan_of(numbers_of(line))
}

// The offers of a racer from a state.
pub(crate) fn offers_from<R: Threads + Sync, Q: Racer>(
    rt: &R,
    alloc: Global,
    racer: &mut Q,
    start: &State,
    supply: &Supply,
    plan: &Plan,
) -> Result<Vec<Offer>, Fail> {
    if start.steps > 1000 || plan.left > ALL {
        return Err("steps of a run".into());
    }
    Ok(offers_of(rt, alloc, racer, start, supply, plan)?)
}

// What is offered in a case, as the table has it.
fn case_text<R: Threads + Sync>(
    rt: &R,
    alloc: Global,
    start: &State,
    supply: &Supply,
    line: Line,
) -> Result<String, Fail> {
    let numbers = numbers_of(line);
    let mut racer = ChaosRacer::new(word_of(numbers[0]));
    let offers = offers_from(rt, alloc, &mut racer, start, supply, &plan_of(numbers))?;
    let mut text = String::from_str(alloc, line)?;
    text.push_str("\n")?;
    for offer in &offers {
        push_offer(&mut text, alloc, offer)?;
    }
    Ok(text)
}

// The offers in the cases of a table, as the table has them, and the table.
pub(crate) fn texts_of<R: Threads + Sync>(
    rt: &R,
    alloc: Global,
    words: &[u32],
    supply: &Supply,
    lines: &[Line],
) -> Result<(String, String), Fail> {
    let start = start(alloc, words)?;
    let mut found = String::new(alloc);
    let mut expected = String::new(alloc);
    for line in lines {
        if line.split_once('|').is_none() {
            found.push_str(&case_text(rt, alloc, &start, supply, line)?)?;
        }
        expected.push_str(line)?;
        expected.push_str("\n")?;
    }
    Ok((found, expected))
}
