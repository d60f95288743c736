//! What the definitions say of bytes and values that stand here in full: at each a mistake in one of them shows.
//! The expected sides were written by hand.

ghost use Rattle.std.specs.Prelude.{◌≡◌, ◌∷◌, [], ◌≤◌, ℕ, List, length, Some, None};
ghost use Rattle.byteorder.specs.Endian.{little_bytes};
ghost use Rattle.dp_base.specs.Field.{AreBytes, bytes_at, number_at};
ghost use Rattle.dp_base.specs.Journal.{IsSlice, IsAnswer, IsBody, IsGuest, answer_at, epoch_body, epoch_body_at, frame, header, header_at, record_of, slice, slice_at};
ghost use Rattle.dp_base.specs.Encoding.{IsPrefixCode, IsPrefixOf, whole};
ghost use Rattle.dp_base.specs.declared.answer.Answer.TheVariants.{Read, Clock};

// Fields are taken from the start, lowest byte first.
fn fields()
    ensures lowest_first { number_at 2 (0x34 ∷ 0x12 ∷ 0x99 ∷ []) ≡ Some (0x1234, 0x99 ∷ []) }
    ensures too_few { number_at 2 (0x34 ∷ []) ≡ None }
    ensures all { bytes_at 2 (1 ∷ 2 ∷ []) ≡ Some (1 ∷ 2 ∷ [], []) }
    ensures one_too_few { bytes_at 3 (1 ∷ 2 ∷ []) ≡ None }
    ensures none { bytes_at 0 [] ≡ Some ([], []) }
    ensures byte { AreBytes (255 ∷ []) }
    ensures no_byte { AreBytes (256 ∷ []) → ⊥ }
{}

// A prefix may have more after it, and no less.
fn prefixes()
    ensures more { IsPrefixOf {A = ℕ} (1 ∷ []) (1 ∷ 2 ∷ []) }
    ensures less { IsPrefixOf {A = ℕ} (1 ∷ 2 ∷ []) (1 ∷ []) → ⊥ }
{}

// A value is decoded from all of the bytes, or there is none.
fn whole_values()
    ensures all { whole (number_at 1) (5 ∷ []) ≡ Some 5 }
    ensures behind { whole (number_at 1) (5 ∷ 6 ∷ []) ≡ None }
    ensures too_few { whole (number_at 1) [] ≡ None }
{}

// In one byte 256 has the encoding of 0.
fn no_code_for_256()
    ensures { IsPrefixCode (number_at 1) (little_bytes 1) (λ x. x ≤ 256) → ⊥ }
{}

#[tactic(auto, unfolding(dp_base::specs::Journal::header_at))]
fn headers()
    ensures encoded { header (0xaa ∷ 0xbb ∷ []) ≡ 1 ∷ 0x44 ∷ 0x50 ∷ 0x4a ∷ 0x31 ∷ 2 ∷ 0 ∷ 0 ∷ 0 ∷ 0xaa ∷ 0xbb ∷ [] }
    ensures read { header_at (1 ∷ 0x44 ∷ 0x50 ∷ 0x4a ∷ 0x31 ∷ 2 ∷ 0 ∷ 0 ∷ 0 ∷ 0xaa ∷ 0xbb ∷ 0 ∷ []) ≡ Some (0xaa ∷ 0xbb ∷ [], 0 ∷ []) }
    ensures empty_guest { header_at (1 ∷ 0x44 ∷ 0x50 ∷ 0x4a ∷ 0x31 ∷ 0 ∷ 0 ∷ 0 ∷ 0 ∷ []) ≡ Some ([], []) }
    ensures gate_alone { header_at (1 ∷ []) ≡ None }
    ensures torn_gate { header_at (7 ∷ 0x44 ∷ 0x50 ∷ 0x4a ∷ 0x31 ∷ 0 ∷ 0 ∷ 0 ∷ 0 ∷ []) ≡ None }
    ensures another_format { header_at (1 ∷ 0x44 ∷ 0x50 ∷ 0x4a ∷ 0x32 ∷ 0 ∷ 0 ∷ 0 ∷ 0 ∷ []) ≡ None }
    ensures guest_not_whole { header_at (1 ∷ 0x44 ∷ 0x50 ∷ 0x4a ∷ 0x31 ∷ 2 ∷ 0 ∷ 0 ∷ 0 ∷ 0xaa ∷ []) ≡ None }
    ensures too_long { (guest : List ℕ) → length guest ≡ 4294967296 → IsGuest guest → ⊥ }
{}

fn records()
    ensures encoded { record_of (0xaa ∷ []) ≡ 1 ∷ 1 ∷ 0 ∷ 0 ∷ 0 ∷ 0xaa ∷ [] }
    ensures framed { frame (0xaa ∷ []) ≡ 1 ∷ 0 ∷ 0 ∷ 0 ∷ 0xaa ∷ 0 ∷ [] }
    ensures no_body { IsBody [] → ⊥ }
    ensures longest { (body : List ℕ) → length body ≡ 16777216 → AreBytes body → IsBody body }
    ensures too_long { (body : List ℕ) → length body ≡ 16777217 → IsBody body → ⊥ }
{}

#[tactic(auto, unfolding(dp_base::specs::Journal::slice_at))]
fn slices()
    ensures encoded { slice (record { tid = record { 0 = 0x0102 }; steps = 0x03040506 }) ≡ 2 ∷ 1 ∷ 6 ∷ 5 ∷ 4 ∷ 3 ∷ [] }
    ensures read { slice_at (2 ∷ 1 ∷ 6 ∷ 5 ∷ 4 ∷ 3 ∷ 9 ∷ []) ≡ Some (record { tid = record { 0 = 0x0102 }; steps = 0x03040506 }, 9 ∷ []) }
    ensures no_thread { slice_at (0 ∷ 0 ∷ 1 ∷ 0 ∷ 0 ∷ 0 ∷ []) ≡ None }
    ensures no_step { slice_at (1 ∷ 0 ∷ 0 ∷ 0 ∷ 0 ∷ 0 ∷ []) ≡ None }
    ensures thread_0 { IsSlice (record { tid = record { 0 = 0 }; steps = 1 }) → ⊥ }
    ensures steps_0 { IsSlice (record { tid = record { 0 = 1 }; steps = 0 }) → ⊥ }
    ensures greatest { IsSlice (record { tid = record { 0 = 65535 }; steps = 4294967295 }) }
{}

#[tactic(auto, unfolding(dp_base::specs::Journal::answer_at, dp_base::specs::Journal::read_at, dp_base::specs::Journal::clock_at))]
fn answers()
    ensures clock { answer_at (1 ∷ 5 ∷ 0 ∷ 0 ∷ 0 ∷ 0 ∷ 0 ∷ 0 ∷ 0x80 ∷ 9 ∷ []) ≡ Some (Clock 0x8000000000000005, 9 ∷ []) }
    ensures read { answer_at (0 ∷ 2 ∷ 0 ∷ 0xaa ∷ 0xbb ∷ 9 ∷ []) ≡ Some (Read (0xaa ∷ 0xbb ∷ []), 9 ∷ []) }
    ensures ended { answer_at (0 ∷ 0 ∷ 0 ∷ []) ≡ Some (Read [], []) }
    ensures third_kind { answer_at (2 ∷ 0 ∷ 0 ∷ 0 ∷ 0 ∷ 0 ∷ 0 ∷ 0 ∷ 0 ∷ []) ≡ None }
    ensures not_whole { answer_at (0 ∷ 2 ∷ 0 ∷ 0xaa ∷ []) ≡ None }
    ensures longest { (bytes : List ℕ) → length bytes ≡ 4096 → AreBytes bytes → IsAnswer (Read bytes) }
    ensures too_long { (bytes : List ℕ) → length bytes ≡ 4097 → IsAnswer (Read bytes) → ⊥ }
    ensures last_reading { IsAnswer (Clock 0xffffffffffffffff) }
    ensures past_it { IsAnswer (Clock 0x10000000000000000) → ⊥ }
{}

// The body of three steps of thread 1, what follows it, and what is not one.
#[tactic(auto, unfolding(dp_base::specs::Journal::epoch_body_at, dp_base::specs::Journal::many_at, dp_base::specs::Journal::slice_at, dp_base::specs::Journal::answer_at, dp_base::specs::Journal::read_at, dp_base::specs::Journal::clock_at))]
fn epochs()
    ensures encoded { epoch_body (record { slices = record { tid = record { 0 = 1 }; steps = 3 } ∷ record { tid = record { 0 = 2 }; steps = 4 } ∷ []; answers = Clock 5 ∷ Read (7 ∷ []) ∷ [] }) ≡ 0 ∷ 2 ∷ 0 ∷ 0 ∷ 0 ∷ 1 ∷ 0 ∷ 3 ∷ 0 ∷ 0 ∷ 0 ∷ 2 ∷ 0 ∷ 4 ∷ 0 ∷ 0 ∷ 0 ∷ 2 ∷ 0 ∷ 0 ∷ 0 ∷ 1 ∷ 5 ∷ 0 ∷ 0 ∷ 0 ∷ 0 ∷ 0 ∷ 0 ∷ 0 ∷ 0 ∷ 1 ∷ 0 ∷ 7 ∷ [] }
    ensures read { epoch_body_at (0 ∷ 1 ∷ 0 ∷ 0 ∷ 0 ∷ 1 ∷ 0 ∷ 3 ∷ 0 ∷ 0 ∷ 0 ∷ 0 ∷ 0 ∷ 0 ∷ 0 ∷ []) ≡ Some (record { slices = record { tid = record { 0 = 1 }; steps = 3 } ∷ []; answers = [] }, []) }
    ensures behind { epoch_body_at (0 ∷ 1 ∷ 0 ∷ 0 ∷ 0 ∷ 1 ∷ 0 ∷ 3 ∷ 0 ∷ 0 ∷ 0 ∷ 0 ∷ 0 ∷ 0 ∷ 0 ∷ 0 ∷ []) ≡ Some (record { slices = record { tid = record { 0 = 1 }; steps = 3 } ∷ []; answers = [] }, 0 ∷ []) }
    ensures not_whole { epoch_body_at (0 ∷ 1 ∷ 0 ∷ 0 ∷ 0 ∷ 1 ∷ 0 ∷ 3 ∷ 0 ∷ 0 ∷ 0 ∷ 0 ∷ 0 ∷ 0 ∷ []) ≡ None }
    ensures no_steps { epoch_body_at (0 ∷ 1 ∷ 0 ∷ 0 ∷ 0 ∷ 1 ∷ 0 ∷ 0 ∷ 0 ∷ 0 ∷ 0 ∷ 0 ∷ 0 ∷ 0 ∷ 0 ∷ []) ≡ None }
    ensures no_slice { epoch_body_at (0 ∷ 0 ∷ 0 ∷ 0 ∷ 0 ∷ 0 ∷ 0 ∷ 0 ∷ 0 ∷ []) ≡ None }
    ensures mark { epoch_body_at (1 ∷ 1 ∷ 0 ∷ 0 ∷ 0 ∷ 1 ∷ 0 ∷ 3 ∷ 0 ∷ 0 ∷ 0 ∷ 0 ∷ 0 ∷ 0 ∷ 0 ∷ []) ≡ None }
    ensures most_steps { epoch_body_at (0 ∷ 1 ∷ 0 ∷ 0 ∷ 0 ∷ 1 ∷ 0 ∷ 0x40 ∷ 0x42 ∷ 0x0f ∷ 0 ∷ 0 ∷ 0 ∷ 0 ∷ 0 ∷ []) ≡ Some (record { slices = record { tid = record { 0 = 1 }; steps = 1000000 } ∷ []; answers = [] }, []) }
    ensures one_step_more { epoch_body_at (0 ∷ 2 ∷ 0 ∷ 0 ∷ 0 ∷ 1 ∷ 0 ∷ 0x40 ∷ 0x42 ∷ 0x0f ∷ 0 ∷ 2 ∷ 0 ∷ 1 ∷ 0 ∷ 0 ∷ 0 ∷ 0 ∷ 0 ∷ 0 ∷ 0 ∷ []) ≡ None }
{}
