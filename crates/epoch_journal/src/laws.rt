//! What a crash leaves of a journal at rest. A call of such a function costs nothing, and hands the law to the caller's
//! proof.

ghost use Rattle.std.specs.Prelude.{◌≡◌, ◌≤◌, ℕ, List, length};
ghost use Rattle.std.specs.List.{AllByRecursion};
ghost use Rattle.dp_base.specs.declared.limits.TheConstants.{MAX_JOURNAL_BYTES};
ghost use Rattle.dp_base.specs.Journal.{IsGuest};
ghost use Rattle.disk_model.specs.History.{History, now};
ghost use Rattle.disk_model.specs.Moments.{Then};
ghost use Rattle.epoch_journal.specs.Images.{Reads};
ghost use Rattle.epoch_journal.specs.Standing.{IsShut};
ghost use Rattle.journal_text.specs.Reading.{journal_of};
ghost use Rattle.journal_text.specs.Records.{IsRecord, Record};

/// After the last call on a journal that is on a disk, with any gate after its records that isn't open, a crash leaves
/// that journal and nothing else, if it has at most 2^30 bytes.
pub fn a_crash_leaves_a_journal_at_rest()
    ensures { (guest : List ℕ) (records : List Record) (h : History) → IsShut guest records h → IsGuest guest → AllByRecursion IsRecord records →
        length (journal_of guest records) ≤ MAX_JOURNAL_BYTES →
        Then (λ image sent. Reads guest records image × (sent ≡ h.sent)) (now h) }
{}
