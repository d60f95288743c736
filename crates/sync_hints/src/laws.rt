//! Laws of merged logs, over all logs.

ghost use Rattle.std.specs.Prelude.{◌≡◌, ◌++◌, ◌∷◌, ℕ, List, length, map, filter, sum_by};
ghost use Rattle.std.specs.List.{AllByRecursion};
ghost use Rattle.std.specs.List.Sorted.{IsNonDecreasingBy};
ghost use Rattle.dp_base.specs.declared.tid.Tid.{Tid};
ghost use Rattle.sync_hints.specs.Merging.{IsMerged, entries_of, is_of};
ghost use Rattle.sync_hints.specs.declared.hints.SyncHint.{SyncHint};
ghost use Rattle.sync_hints.specs.declared.thread_log.ThreadLog.{ThreadLog};

/// A thread's hints are in the order as in its log, if the tickets of the log don't fall and no other log is of this
/// thread.
pub fn a_log_keeps_its_order()
    ensures { (before after : List ThreadLog) (log : ThreadLog) (counts : List (Tid × ℕ)) (order : List SyncHint) →
        IsMerged (before ++ log ∷ after) counts order →
        AllByRecursion (λ other. ¬ (other.tid ≡ log.tid)) (before ++ after) →
        IsNonDecreasingBy (λ entry. entry.0) log.entries →
        filter (λ hint. is_of log.tid hint.tid) order ≡ map (λ e. e.hint) (entries_of log) }
{}

/// The order has as many hints of a thread as the logs of the thread have entries.
pub fn each_entry_is_in_the_order()
    ensures { (logs : List ThreadLog) (counts : List (Tid × ℕ)) (order : List SyncHint) (tid : Tid) →
        IsMerged logs counts order →
        length (filter (λ hint. is_of tid hint.tid) order)
        ≡ sum_by (λ log. length log.entries) (filter (λ log. is_of tid log.tid) logs) }
{}
