//! Laws of the fields and of the journal's encodings, over all values and all bytes.

ghost use Rattle.std.specs.Prelude.{◌≡◌, ◌++◌, ◌∷◌, [], ℕ, ◌+◌, ◌*◌, ◌<◌, ◌≤◌, ◌^◌, List, Some, length};
ghost use Rattle.std.specs.List.{flat_map};
ghost use Rattle.byteorder.specs.Endian.{little_bytes};
ghost use Rattle.dp_base.specs.Field.{number_at};
ghost use Rattle.dp_base.specs.Journal.{Epoch, IsGuest, IsBody, IsSlice, IsAnswer, IsEpoch, header, header_at, record_of, frame, closed_gate, slice, slice_at, answer, answer_at, epoch_body, epoch_body_at};
ghost use Rattle.dp_base.specs.declared.slice.Slice.{Slice};
ghost use Rattle.dp_base.specs.Encoding.{IsPrefixCode, IsWholeCode};

use crate::limits::{MAX_BODY_BYTES, MAX_EPOCH_STEPS};

/// A number below 256 to the power n has one encoding in n bytes, and n bytes encode one number. As many fewer
/// bytes are left.
pub fn numbers()
    ensures code { (n : ℕ) → IsPrefixCode (number_at n) (little_bytes n) (λ x. x < 256 ^ n) }
    ensures left { (n x : ℕ) (bytes rest : List ℕ) →
        number_at n bytes ≡ Some (x, rest) → length bytes ≡ n + length rest }
{}

/// A guest file has one header, and a header holds one guest file.
pub fn headers()
    ensures { IsPrefixCode header_at header IsGuest }
{}

/// What an append writes determines the body and all that follows it.
pub fn frames()
    ensures { (a b x y : List ℕ) → IsBody a → IsBody b → frame a ++ x ≡ frame b ++ y → (a ≡ b) × (x ≡ y) }
{}

/// What follows a closed gate is no header.
pub fn closed_gates()
    ensures { (rest : List ℕ) → header_at (closed_gate ∷ rest) ≡ None }
{}

/// A slice has one encoding.
pub fn slices()
    ensures { IsPrefixCode slice_at slice IsSlice }
{}

/// An answer has one encoding.
pub fn answers()
    ensures { IsPrefixCode answer_at answer IsAnswer }
{}

/// An epoch has one body, and a body is of one epoch.
pub fn epochs()
    ensures { IsPrefixCode epoch_body_at epoch_body IsEpoch }
{}

/// Decoding all of the bytes, with none left: an encoding gives its value, and bytes that give a value are its
/// encoding.
pub fn whole_values()
    ensures numbers { (n : ℕ) → IsWholeCode (number_at n) (little_bytes n) (λ x. x < 256 ^ n) }
    ensures headers { IsWholeCode header_at header IsGuest }
    ensures slices { IsWholeCode slice_at slice IsSlice }
    ensures answers { IsWholeCode answer_at answer IsAnswer }
    ensures epochs { IsWholeCode epoch_body_at epoch_body IsEpoch }
{}

/// How many bytes each encoding has.
pub fn lengths()
    ensures header { (guest : List ℕ) → length (header guest) ≡ 9 + length guest }
    ensures record { (body : List ℕ) → length (record_of body) ≡ 5 + length body }
    ensures frame { (body : List ℕ) → length (frame body) ≡ 5 + length body }
    ensures epoch { (e : Epoch) →
        length (epoch_body e) ≡ 9 + 6 * length e.slices + length (flat_map answer e.answers) }
{}

/// The body of an epoch is the body of a record if it is short enough.
pub fn epochs_fit_records()
    ensures { (e : Epoch) → IsEpoch e → length (epoch_body e) ≤ MAX_BODY_BYTES → IsBody (epoch_body e) }
{}

/// The body of one slice and no answers has 15 bytes, and is the body of an epoch and of a record.
pub fn lone_slices()
    ensures length { (s : Slice) → length (epoch_body (record { slices = s ∷ []; answers = [] })) ≡ 15 }
    ensures epoch { (s : Slice) → IsSlice s → s.steps ≤ MAX_EPOCH_STEPS →
        IsEpoch (record { slices = s ∷ []; answers = [] }) }
    ensures body { (s : Slice) → IsSlice s → s.steps ≤ MAX_EPOCH_STEPS →
        IsBody (epoch_body (record { slices = s ∷ []; answers = [] })) }
{}
