//! Laws of the grammar, over all files.

ghost use Rattle.std.specs.Prelude.{◌≡◌, ◌≤◌, ◌+◌, ◌-◌, ◌⊎◌, ◌↔◌, ◌∷◌, [], ◌++◌, ℕ, List, Some, None, length, take, drop};
ghost use Rattle.std.specs.List.{AllByRecursion};
ghost use Rattle.dp_base.specs.Field.{AreBytes};
ghost use Rattle.dp_base.specs.Journal.{IsGuest, closed_gate, header_at};
ghost use Rattle.journal_text.specs.Reading.{IsMadeOf, Reading, ending, first_bytes, journal_of, reading_of, reads};
ghost use Rattle.journal_text.specs.Records.{IsRecord, Record, bad, body_of, ended, found, list_from, next_at, record_bytes, record_in};
ghost use Rattle.journal_text.specs.View.{IsRecordBody};

use dp_base::limits::{MAX_BODY_BYTES, MAX_JOURNAL_BYTES};

/// A record is the one that its body gives, and bytes that give a record are its body: no body is one of two kinds.
pub fn a_record_is_its_body()
    ensures found { (r : Record) → IsRecord r → record_in (body_of r) ≡ Some r }
    ensures framed { (r : Record) → IsRecord r → IsRecordBody (body_of r) }
    ensures taken { (body : List ℕ) (r : Record) → AreBytes body → record_in body ≡ Some r → length body ≤ MAX_BODY_BYTES →
        (body ≡ body_of r) × IsRecord r }
{}

/// A record is found if its bytes follow an open gate, whatever comes after them, and only then.
pub fn a_record_stands_at_its_gate()
    ensures found { (r : Record) (rest : List ℕ) → IsRecord r → next_at (record_bytes r ++ rest) ≡ found r rest }
    ensures taken { (bytes rest : List ℕ) (r : Record) → AreBytes bytes → next_at bytes ≡ found r rest →
        (bytes ≡ record_bytes r ++ rest) × IsRecord r }
{}

/// A journal's guest and its first record are at fixed offsets.
pub fn a_header_stands_first()
    ensures guest { (bytes guest behind : List ℕ) → AreBytes bytes → header_at (first_bytes bytes) ≡ Some (guest, behind) →
        guest ≡ take (length guest) (drop 9 (first_bytes bytes)) }
    ensures behind { (bytes guest behind : List ℕ) → AreBytes bytes → header_at (first_bytes bytes) ≡ Some (guest, behind) →
        behind ≡ drop (9 + length guest) (first_bytes bytes) }
{}

/// A file reads as the parts that its first bytes are made of, and as nothing else: a header, records, and a rest at
/// which no record begins. It reads as no journal exactly if it has no header.
pub fn a_journal_is_its_parts()
    ensures parts { (bytes : List ℕ) (reading : Reading) → AreBytes bytes → reads bytes ≡ Some reading → IsMadeOf (first_bytes bytes) reading }
    ensures whole { (bytes : List ℕ) (reading : Reading) → IsMadeOf (first_bytes bytes) reading → reads bytes ≡ Some reading }
    ensures no_journal { (bytes : List ℕ) → (reads bytes ≡ None) ↔ (header_at (first_bytes bytes) ≡ None) }
{}

/// A record written where a journal ends, followed by a closed gate, is read as the next record.
pub fn appending()
    ensures { (bytes guest : List ℕ) (records : List Record) (place : ℕ) (r : Record) → AreBytes bytes →
        reads bytes ≡ Some (ending guest records place) → IsRecord r → place + length (record_bytes r) + 1 ≤ MAX_JOURNAL_BYTES →
        reads (take place bytes ++ (record_bytes r ++ closed_gate ∷ []))
        ≡ Some (ending guest (records ++ r ∷ []) (place + length (record_bytes r))) }
{}

/// What is left of a journal without a bad record that is cut somewhere reads as no journal, or as the first of its
/// records, and ends as a journal does.
pub fn cutting()
    ensures { (bytes guest : List ℕ) (records : List Record) (place n : ℕ) → AreBytes bytes →
        reads bytes ≡ Some (ending guest records place) →
        (reads (take n bytes) ≡ None)
        ⊎ ((k : ℕ) × (q : ℕ) × (reads (take n bytes) ≡ Some (ending guest (take k records) q))) }
{}

/// A journal at rest reads as its guest and its records, and ends at its closed gate.
pub fn a_journal_at_rest_reads_as_itself()
    ensures { (guest : List ℕ) (records : List Record) → IsGuest guest → AllByRecursion IsRecord records →
        length (journal_of guest records) ≤ MAX_JOURNAL_BYTES →
        reads (journal_of guest records) ≡ Some (ending guest records (length (journal_of guest records) - 1)) }
{}

/// The bytes from an offset on determine the list of records from there, and a file reads as its header and the list
/// after it.
pub fn reading_goes_on()
    ensures header { (bytes guest behind : List ℕ) → header_at (first_bytes bytes) ≡ Some (guest, behind) →
        reads bytes ≡ Some (reading_of guest (length (first_bytes bytes)) (list_from behind)) }
    ensures ended { (bytes : List ℕ) → next_at bytes ≡ ended → list_from bytes ≡ ([], bytes) }
    ensures bad { (bytes : List ℕ) → next_at bytes ≡ bad → list_from bytes ≡ ([], bytes) }
    ensures found { (bytes rest : List ℕ) (r : Record) → next_at bytes ≡ found r rest →
        list_from bytes ≡ (r ∷ (list_from rest).0, (list_from rest).1) }
{}
