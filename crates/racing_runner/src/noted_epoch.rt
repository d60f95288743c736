// A stretch of a racing run: an epoch by round robin, of which each turn is noted.
ghost use Rattle.std.specs.Prelude.{◌≡◌, ◌+◌, ◌<◌, ◌≤◌, ◌^◌, [], IfOk, OnOk, position};
ghost use Rattle.std.specs.List.{AllByRecursion};
ghost use Rattle.epoch_runner.specs.Schedule.{progress};
ghost use Rattle.racing_runner.specs.Racing.{with_turn_counted, raced_end, is_count_of, ordered, raced, raced_so_far, raced_steps, stretch};
ghost use Rattle.sync_hints.specs.NoHints.{no_hints};

use dp_base::{Log, OutOfMemory, Tid};
use epoch_runner::{Bounds, Walk};
use guest_kernel::State;
use std::alloc::Global;
use supply::Supply;
use sync_hints::{Hints, Sc, SyncHint};

// What a stretch came to.
#[derive(Drop)]
pub(crate) struct Stretch {
    pub(crate) steps: u32,
    pub(crate) hints: Hints,
    pub(crate) end: State,
}

// What was noted so far.
#[derive(Drop)]
struct Notes {
    counts: Vec<(Tid, u32)>,
    order: Vec<SyncHint>,
}

impl Notes {
    // Nothing was noted yet.
    fn new(alloc: Global) -> Notes
        ensures counts { result.counts.items ≡ no_hints.counts }
        ensures order { result.order.items ≡ no_hints.order }
    {
        Notes {
            counts: Vec::new(alloc),
            order: Vec::new(alloc),
        }
    }

    // Notes a turn of a thread, and what hints say of it.
    fn note(&mut self, tid: Tid, sync: Option<Sc>) -> Result<(), OutOfMemory>
        requires few { AllByRecursion (λ count. count.1 + 1 < 2 ^ 32) self.old.counts.items }
        ensures counts { OnOk result (self.new.counts.items ≡ with_turn_counted tid self.old.counts.items) }
        ensures order { OnOk result (self.new.order.items ≡ ordered tid sync self.old.order.items) }
    {
        count(&mut self.counts, tid)?;
        if let Some(sc) = sync {
            self.order.push(SyncHint { tid, sc })?;
        }
        Ok(())
    }
}

// Counts a step of a thread.
fn count(counts: &mut Vec<(Tid, u32)>, tid: Tid) -> Result<(), OutOfMemory>
    requires { AllByRecursion (λ count. count.1 + 1 < 2 ^ 32) counts.old.items }
    ensures { OnOk result (counts.new.items ≡ with_turn_counted tid counts.old.items) }
{
    match place_of(counts, tid) {
        Some(place) => counts[place] = (tid, counts[place].1 + 1),
        None => counts.push((tid, 1))?,
    }
    Ok(())
}

// The place of a thread's count.
fn place_of(counts: &[(Tid, u32)], tid: Tid) -> Option<usize>
    ensures { result ≡ position (is_count_of tid) counts.now }
{
    counts.iter().position(|count| count.0.0 == tid.0)
}

// Runs a stretch.
pub(crate) fn run_stretch(
    alloc: Global,
    start: State,
    supply: &Supply,
    bounds: Bounds,
) -> Result<Stretch, OutOfMemory>
    requires { start.steps + bounds.steps < 2 ^ 64 }
    ensures steps { IfOk result (λ s. s.steps ≡ raced_steps (stretch supply.now bounds start)) }
    ensures hints { IfOk result (λ s. s.hints ≡ (stretch supply.now bounds start).hints) }
    ensures end { IfOk result (λ s. s.end ≡ raced_end (stretch supply.now bounds start)) }
    ensures within { IfOk result (λ s. s.steps ≤ bounds.steps) }
    ensures moved { IfOk result (λ s. s.end.steps ≡ start.steps + s.steps) }
{
    let mut notes = Notes::new(alloc);
    let mut walk = Walk::new(alloc, start);
    run_turns(alloc, supply, bounds, &mut walk, &mut notes)?;
    let steps = walk.turns();
    walk.close()?;
    Ok(Stretch {
        steps,
        hints: Hints {
            counts: Log::from_vec(notes.counts),
            order: Log::from_vec(notes.order),
        },
        end: walk.into_state(),
    })
}

// Takes the turns of an epoch of which none was taken.
fn run_turns(
    alloc: Global,
    supply: &Supply,
    bounds: Bounds,
    walk: &mut Walk,
    notes: &mut Notes,
) -> Result<(), OutOfMemory>
    requires fresh { (progress walk.old).turns ≡ 0 }
    requires nothing { notes.old.counts.items ≡ [] }
    requires countable { walk.old.state.steps + bounds.steps < 2 ^ 64 }
    ensures within { OnOk result ((progress walk.new).turns ≤ bounds.steps) }
    ensures moved { OnOk result (walk.new.state.steps ≡ walk.old.state.steps + (progress walk.new).turns) }
    ensures raced { OnOk result (raced_so_far walk.new notes.new.counts.items notes.new.order.items
        ≡ raced bounds.steps supply.now bounds (raced_so_far walk.old notes.old.counts.items notes.old.order.items)) }
{
    for _step in 0..bounds.steps {
        let turn = match walk.next(supply, bounds) {
            Some(turn) => turn,
            None => return Ok(()),
        };
        let sync = walk.take(alloc, supply, bounds, turn)?;
        notes.note(turn.tid, sync)?;
    }
    Ok(())
}
