//! What follows from the definitions alone. Each function's contract is a law over all words, instructions, harts and
//! memories; a call of it costs nothing and hands the law to the caller's proof.

ghost use Rattle.std.specs.Prelude.{◌≡◌, ◌⊎◌, ◌<◌, ◌^◌, ◌%◌, ℕ, false, Some};
ghost use Rattle.dp_base.specs.declared.access.Width.{Width};
ghost use Rattle.dp_base.specs.Memory.{Memory, stored};
ghost use Rattle.guest_state.specs.declared.hart.Hart.{Hart};
ghost use Rattle.guest_state.specs.Register.{register};
ghost use Rattle.rv_step.specs.declared.instr.Instr.{Instr};
ghost use Rattle.rv_step.specs.Decoding.{decoded};
ghost use Rattle.rv_step.specs.Effect.{goes, traps};
ghost use Rattle.rv_step.specs.Encoding.{IsInstruction, encoded};
ghost use Rattle.rv_step.specs.Execution.{executed};
ghost use Rattle.rv_step.specs.Frame.{IsStoredAt, destination, reserves_or_ends, written_at};
ghost use Rattle.rv_step.specs.Step.{effect};
ghost use Rattle.guest_state.specs.Checkpoint.{IsWord};
ghost use Rattle.rv_step.specs.Words.{HasBytes, HasSameShape, HasWords};

/// The word that an instruction encodes to is one of 32 bits and is decoded to that instruction; so no two instructions
/// share a word.
pub fn an_encoding_is_decoded()
    ensures word { (i : Instr) → IsInstruction i → encoded i < 2 ^ 32 }
    ensures decoded { (i : Instr) → IsInstruction i → decoded (encoded i) ≡ Some i }
    ensures apart { (i j : Instr) → IsInstruction i → IsInstruction j → encoded i ≡ encoded j → i ≡ j }
{}

/// What a word is decoded to can be encoded.
pub fn a_decoding_is_encodable()
    ensures { (word : ℕ) (i : Instr) → word < 2 ^ 32 → decoded word ≡ Some i → IsInstruction i }
{}

/// An instruction changes at most its destination, pc, the reservation if it makes or ends one, and the bytes that it
/// stores. Afterwards x0 reads 0, and pc is a multiple of 4 if it was.
pub fn an_instruction_changes_no_more()
    ensures registers { (i : Instr) (h after : Hart) (m left : Memory) → executed i h m ≡ goes after left →
        (number : ℕ) → (number ≡ destination i) ⊎ (register after number ≡ register h number) }
    ensures zero { (i : Instr) (h after : Hart) (m left : Memory) → executed i h m ≡ goes after left → register after 0 ≡ 0 }
    ensures reservation { (i : Instr) (h after : Hart) (m left : Memory) → executed i h m ≡ goes after left →
        reserves_or_ends i ≡ false → after.held ≡ h.held }
    ensures memory { (i : Instr) (h after : Hart) (m left : Memory) → executed i h m ≡ goes after left →
        IsStoredAt (written_at i h) m left }
    ensures aligned { (i : Instr) (h after : Hart) (m left : Memory) → executed i h m ≡ goes after left →
        h.pc % 4 ≡ 0 → after.pc % 4 ≡ 0 }
{}

/// After a step registers and pc are words and memory is bytes, if they were; no page is mapped or unmapped, and no
/// flag is changed.
pub fn a_step_leaves_words()
    ensures hart { (h after : Hart) (m left : Memory) → HasWords h → HasBytes m → effect h m ≡ goes after left → HasWords after }
    ensures bytes { (h after : Hart) (m left : Memory) → HasWords h → HasBytes m → effect h m ≡ goes after left → HasBytes left }
    ensures shape { (h after : Hart) (m left : Memory) → effect h m ≡ goes after left → HasSameShape m left }
{}

/// A store leaves memory of bytes such, and changes nothing else of a page.
pub fn a_store_leaves_bytes()
    ensures bytes { (width : Width) (address value : ℕ) (m : Memory) → HasBytes m → HasBytes (stored width address value m) }
    ensures shape { (width : Width) (address value : ℕ) (m : Memory) → HasSameShape m (stored width address value m) }
{}

/// A trap's cause is 0 to 7, and its value a word.
pub fn a_trap_has_a_cause()
    ensures cause { (h : Hart) (m : Memory) (cause value : ℕ) → effect h m ≡ traps cause value → cause < 8 }
    ensures value { (h : Hart) (m : Memory) (cause value : ℕ) → HasWords h → HasBytes m → effect h m ≡ traps cause value → IsWord value }
{}
