// Logs of threads, merged by ticket.
ghost use Rattle.std.specs.Prelude.{◌≡◌, ◌++◌, IfOk, OnOk, map};
ghost use Rattle.std.specs.List.Sorted.{IsNonDecreasingBy, IsPermutation, IsStableByKey};
ghost use Rattle.std.specs.Ordering.{nat_cmp};
ghost use Rattle.sync_hints.specs.Merging.{IsMerged, all_entries, count_of, entries_of};

use crate::hints::{Hints, SyncHint};
use crate::thread_log::ThreadLog;
use dp_base::{Log, OutOfMemory, Tid};
use std::alloc::Global;

// A step that synchronises, with its ticket.
#[derive(Clone, Copy, Debug, PartialEq, Eq)]
pub(crate) struct Entry {
    pub ticket: u64,
    pub hint: SyncHint,
}

/// Merges the logs of threads: the steps of each, and the order of all steps that synchronise, by ticket. Steps with
/// equal tickets are in the order of the logs.
pub fn merge(alloc: Global, logs: &[ThreadLog]) -> Result<Hints, OutOfMemory>
    ensures { IfOk result (λ hints. IsMerged logs.now hints.counts hints.order) }
{
    let counts = counts_of(alloc, logs)?;
    let mut entries = gather(alloc, logs)?;
    sort_entries(&mut entries)?;
    let order = hints_of(alloc, &entries)?;
    Ok(Hints {
        counts: Log::from_vec(counts),
        order: Log::from_vec(order),
    })
}

fn counts_of(alloc: Global, logs: &[ThreadLog]) -> Result<Vec<(Tid, u32)>, OutOfMemory>
    ensures { IfOk result (λ counts. counts.items ≡ map count_of logs.now) }
{
    let mut counts = Vec::new(alloc);
    for log in logs {
        counts.push((log.tid, log.steps))?;
    }
    Ok(counts)
}

// The entries of all logs, log after log.
fn gather(alloc: Global, logs: &[ThreadLog]) -> Result<Vec<Entry>, OutOfMemory>
    ensures { IfOk result (λ entries. entries.items ≡ all_entries logs.now) }
{
    let mut entries = Vec::new(alloc);
    for log in logs {
        add_entries(&mut entries, log)?;
    }
    Ok(entries)
}

fn add_entries(entries: &mut Vec<Entry>, log: &ThreadLog) -> Result<(), OutOfMemory>
    ensures { OnOk result (entries.new.items ≡ entries.old.items ++ entries_of log.now) }
{
    for entry in log.entries.as_slice() {
        entries.push(Entry {
            ticket: entry.0,
            hint: SyncHint {
                tid: log.tid,
                sc: entry.1,
            },
        })?;
    }
    Ok(())
}

fn sort_entries(entries: &mut Vec<Entry>) -> Result<(), OutOfMemory>
    ensures once { IsPermutation entries.old.items entries.new.items }
    ensures by_ticket { OnOk result (IsNonDecreasingBy (λ e. e.ticket) entries.new.items) }
    ensures stable { OnOk result (IsStableByKey (λ e. e.ticket) nat_cmp entries.old.items entries.new.items) }
{
    entries.sort_by_key(|entry| entry.ticket)?;
    Ok(())
}

fn hints_of(alloc: Global, entries: &[Entry]) -> Result<Vec<SyncHint>, OutOfMemory>
    ensures { IfOk result (λ hints. hints.items ≡ map (λ e. e.hint) entries.now) }
{
    let mut hints = Vec::new(alloc);
    for entry in entries {
        hints.push(entry.hint)?;
    }
    Ok(hints)
}
