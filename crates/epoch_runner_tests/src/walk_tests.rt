// Epochs without hints that are taken turn by turn, beside the same epochs at once. Each outcome is that of a model of
// the machine and of its schedule, which was written apart from this code.
use crate::epoch_guests::Stands::{Gone, Runs, Waits};
use crate::epoch_guests::{Stands, supply_of};
use crate::hinted_guests::*;
use dp_base::Slice;
use dp_base::limits::MAX_EPOCH_STEPS;
use epoch_runner::{Bounds, EpochRun, NextTurn, Ran, Walk, run_epoch};
use guest_kernel::State;
use state_compare::equal;
use std::alloc::{AllocError, Global};
use std::test::Fail;
use supply::{MAX_ROOM, Supply};
use sync_hints::Hints;
use test_files::WRITES_WORDS;

// What the turns of an epoch have done, one by one: its slices, how many turns there were, and the state at its end.
#[derive(Drop)]
pub(crate) struct Walked {
    slices: Vec<Slice>,
    turns: u32,
    end: State,
}

// Counts a turn in the slices of its epoch.
fn note(slices: &mut Vec<Slice>, turn: NextTurn) -> Result<(), AllocError> {
    if turn.begins {
        slices.push(Slice {
            tid: turn.tid,
            steps: 1,
        })?;
        return Ok(());
    }
    if let Some(slice) = slices.last_mut() {
        if slice.tid == turn.tid {
            slice.steps = slice.steps.saturating_add(1);
        }
    }
    Ok(())
}

pub(crate) fn walk_to_end(
    alloc: Global,
    start: State,
    supply: &Supply,
    bounds: Bounds,
) -> Result<Walked, Fail> {
    let mut walk = Walk::new(alloc, start);
    let mut slices = Vec::new(alloc);
    for _ in 0..bounds.steps {
        let Some(turn) = walk.next(supply, bounds) else {
            break;
        };
        if walk.state().steps > 1 << 62 {
            return Err("steps of a guest".into());
        }
        walk.take(alloc, supply, bounds, turn)?;
        note(&mut slices, turn)?;
    }
    if walk.next(supply, bounds).is_some() {
        return Err("the epoch goes on".into());
    }
    walk.close()?;
    let turns = walk.turns();
    Ok(Walked {
        slices,
        turns,
        end: walk.into_state(),
    })
}

// Whether an epoch that was run at once has the same slices, the same number of steps and the same end.
fn agrees(run: &EpochRun, walked: &Walked) -> bool {
    run.epoch.slices.as_slice() == walked.slices.as_slice()
        && run.end.steps.saturating_sub(run.start.steps) == u64::from(walked.turns)
        && equal(&run.end, &walked.end)
}

// Whether no turn was taken from this state.
fn has_stayed(state: &State, walked: &Walked) -> bool {
    walked.turns == 0 && walked.slices.is_empty() && equal(state, &walked.end)
}

// The outcome of an epoch without hints, with a word more if it is another one turn by turn.
pub(crate) fn both_outcomes(
    alloc: Global,
    walked: &Walked,
    start: State,
    supply: &Supply,
    bounds: Bounds,
) -> Result<String, Fail> {
    if start.steps > 1 << 62 {
        return Err("steps of a guest".into());
    }
    match run_epoch(alloc, start, &Hints::none(alloc), supply, bounds)? {
        Ran::Idle(state) => {
            let same = has_stayed(&state, walked);
            Ok(String::from_str(
                alloc,
                if same {
                    "idle"
                } else {
                    "idle, otherwise walked"
                },
            )?)
        }
        Ran::Epoch(run) => {
            let mut text = outcome_of(alloc, &run)?;
            text.push_str(if agrees(&run, walked) {
                ""
            } else {
                ", otherwise walked"
            })?;
            Ok(text)
        }
    }
}

// The same of two equal states, so many steps and so many in a slice, from this thread on.
pub(crate) fn walk_and_run(
    alloc: Global,
    walks: State,
    runs: State,
    supply: &Supply,
    (steps, slice, first): (u32, u32, u16),
) -> Result<String, Fail> {
    if steps > MAX_EPOCH_STEPS || slice == 0 {
        return Err("bounds of an epoch".into());
    }
    let bounds = Bounds {
        steps,
        slice,
        first,
    };
    let walked = walk_to_end(alloc, walks, supply, bounds)?;
    both_outcomes(alloc, &walked, runs, supply, bounds)
}

// A line for each row whose epoch has another outcome, or another one turn by turn. A row is the bounds of an epoch and
// the outcome, as in `Row`.
pub(crate) fn walk_differences(
    alloc: Global,
    code: &[u32],
    threads: &[Stands],
    input: u64,
    rows: &[Row],
) -> Result<String, Fail> {
    let mut input_bytes = Vec::new(alloc);
    input_bytes.resize(MAX_ROOM as usize, b'a')?;
    let supply = supply_of(alloc, &input_bytes, 1)?;
    let mut text = String::new(alloc);
    for row in rows {
        let (bounds, expected) = field_of(*row);
        let walks = start_of(alloc, code, threads, input)?;
        let runs = start_of(alloc, code, threads, input)?;
        let found = walk_and_run(alloc, walks, runs, &supply, bounds_of(bounds))?;
        if found.as_str() != expected {
            text.push_str(&format!(in alloc; "{row}, but {}\n", found.as_str())?)?;
        }
    }
    Ok(text)
}

fn lock_rows() -> [Row; 4] {
    [
        "24 3 1 | 1:3 2:3 3:3 1:3 2:3 3:3 1:3 2:3; x10 0 0",
        "40 7 2 | 2:7 3:7 1:7 2:7 3:7 1:5; x10 1 0",
        "12 1 3 | 3:1 1:1 2:1 3:1 1:1 2:1 3:1 1:1 2:1 3:1 1:1 2:1; x10 0 0",
        "45 1000 1 | 1:45; x10 0 0",
    ]
}

// Yields, threads that exit, and threads that can't run.
fn turns_rows() -> [Row; 4] {
    [
        "30 4 1 | 1:3 2:4 5:1 1:3 2:4 1:3 2:4 1:3 2:4 1:1; x10 0 0",
        "30 4 2 | 2:4 5:1 1:3 2:4 1:3 2:4 1:3 2:4 1:3 2:1; x10 0 0",
        "17 5 9 | 1:3 2:5 5:1 1:3 2:5; x10 0 0",
        "1 5 1 | 1:1; x10 0 0",
    ]
}

fn wakes_rows() -> [Row; 2] {
    [
        "22 3 1 | 1:3 1:3 2:2 1:3 2:3 1:3 2:3 1:2; x10 1 0",
        "0 3 1 | idle",
    ]
}

fn writes_rows() -> [Row; 2] {
    [
        "200 6 1 | 1:6 2:6 1:6 2:6 1:6 2:6 1:6 2:6 1:5; 65536 written; x10 4096 4096",
        "66 7 2 | 2:7 1:7 2:7 1:7 2:7 1:7 2:7 1:5; 65536 written; x10 4096 1",
    ]
}

fn reads_rows() -> [Row; 2] {
    [
        "300 50 1 | 1:50 2:50 1:1; 65536 read; x10 4096 0",
        "40 9 2 | 2:9 1:9 2:9 1:9 2:4; 20480 read; x10 4096 0",
    ]
}

// Each epoch that is walked turn by turn is the one that is run at once.
#[test]
fn walks(rt: HostRuntime) -> Result<(), Fail> {
    let alloc = rt.alloc();
    let three = [Runs(0), Runs(0), Runs(0)];
    let found = walk_differences(alloc, &LOCK, &three, 0, &lock_rows())?;
    assert_eq!(rt; found.as_str(), "");
    let many = [Runs(0), Runs(16), Gone, Waits(0), Runs(20)];
    let found = walk_differences(alloc, &TURNS, &many, 0, &turns_rows())?;
    assert_eq!(rt; found.as_str(), "");
    let waiting = [Runs(0), Waits(20), Waits(20)];
    let found = walk_differences(alloc, &WAKES, &waiting, 0, &wakes_rows())?;
    assert_eq!(rt; found.as_str(), "");
    Ok(())
}

// Ends of a guest, by a trap, a deadlock and a call.
#[test]
fn walks_to_the_end_of_a_guest(rt: HostRuntime) -> Result<(), Fail> {
    let alloc = rt.alloc();
    let rows = ["20 4 2 | 2:3 1:1; trap 3; x10 0 0"];
    let found = walk_differences(alloc, &TURNS, &[Runs(24), Runs(0)], 0, &rows)?;
    assert_eq!(rt; found.as_str(), "");
    let rows = ["20 2 1 | 1:2 2:2 1:1 2:1; deadlock; x10 0 0"];
    let found = walk_differences(alloc, &TURNS, &[Runs(28), Runs(28)], 0, &rows)?;
    assert_eq!(rt; found.as_str(), "");
    let rows = ["9 4 1 | 1:4 1:4 1:1; exit 0; 3 written; x10 0 0"];
    let found = walk_differences(alloc, &WRITES_WORDS, &[Runs(0)], 0, &rows)?;
    assert_eq!(rt; found.as_str(), "");
    Ok(())
}

// Ends of an epoch by its bytes, and by a read whose answer isn't known.
#[test]
fn walks_with_bytes(rt: HostRuntime) -> Result<(), Fail> {
    let alloc = rt.alloc();
    let two = [Runs(0), Runs(0)];
    let other = [Runs(0), Runs(28)];
    let found = walk_differences(alloc, &WRITES, &two, 0, &writes_rows())?;
    assert_eq!(rt; found.as_str(), "");
    let found = walk_differences(alloc, &READS, &other, 0, &reads_rows())?;
    assert_eq!(rt; found.as_str(), "");
    let rows = ["30 7 1 | 1:7 2:7 1:1 2:7 2:7 2:1; 4096 read; x10 0 0"];
    let found = walk_differences(alloc, &READS, &other, 61440, &rows)?;
    assert_eq!(rt; found.as_str(), "");
    let rows = ["30 7 1 | 1:7 2:5 1:1; 4096 read; x10 0 0"];
    let found = walk_differences(alloc, &READS, &two, 61440, &rows)?;
    assert_eq!(rt; found.as_str(), "");
    Ok(())
}
