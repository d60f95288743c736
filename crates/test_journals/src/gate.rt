// What is seen at a gate.
ghost use Rattle.std.specs.Prelude.{◌≡◌};
ghost use Rattle.journal_text.specs.declared.record.Rec.{Rec};
ghost use Rattle.journal_text.specs.Reading.{first_bytes};
ghost use Rattle.journal_text.specs.View.{IsNextRecord};
ghost use Rattle.test_journals.specs.Gate.{seen_as};

use journal_text::{Rec, next_record};

/// What is at a gate.
#[derive(Clone, Copy, Debug, PartialEq, Eq)]
pub enum Kind {
    /// An epoch's record.
    Epoch,
    /// A full mark's record.
    Mark,
    /// A partial mark's record.
    Partial,
    /// The journal's end.
    End,
    /// A body that is no record's.
    Bad,
}

/// Returns what is at the offset `at`, where a record's gate is; the offset of the next gate or of the end, 0 if the
/// body is bad; and how many bytes the body has, 0 if there is none.
pub fn seen(file: &[u8], at: u64) -> (Kind, u64, usize)
    ensures { (found : Rec) × IsNextRecord (first_bytes file.now) at found × (result ≡ seen_as found) }
{
    match next_record(file, at) {
        Rec::Epoch { body, next } => (Kind::Epoch, next, body.len()),
        Rec::Mark { body, next } => (Kind::Mark, next, body.len()),
        Rec::Partial { body, next } => (Kind::Partial, next, body.len()),
        Rec::End { at } => (Kind::End, at, 0),
        Rec::Bad => (Kind::Bad, 0, 0),
    }
}
