// Worked examples of answers that are faithful to an input, and of what an image says of a recording.
ghost use Rattle.std.specs.Prelude.{◌≡◌, ◌∷◌, [], ℕ, true, false, None};
ghost use Rattle.dp_base.specs.declared.answer.Answer.TheVariants.{Clock, Read};
ghost use Rattle.guest_kernel.specs.declared.state.State.{State};
ghost use Rattle.recorder.specs.Drawing.{IsFaithful};
ghost use Rattle.recorder.specs.Moments.{IsRecording};

// Reads take the input's bytes in order, and none only at its end.
fn faithful_reads()
    ensures all { IsFaithful (Read (1 ∷ 2 ∷ []) ∷ Read [] ∷ []) (1 ∷ 2 ∷ []) true [] }
    ensures a_part { IsFaithful (Read (1 ∷ []) ∷ []) (1 ∷ 2 ∷ []) false [] }
    ensures left_out { IsFaithful (Read (2 ∷ []) ∷ []) (1 ∷ 2 ∷ []) false [] → ⊥ }
    ensures never_given { IsFaithful (Read (1 ∷ 3 ∷ []) ∷ []) (1 ∷ 2 ∷ []) false [] → ⊥ }
    ensures before_the_end { IsFaithful (Read [] ∷ []) (1 ∷ []) true [] → ⊥ }
    ensures no_end_seen { IsFaithful (Read [] ∷ []) [] false [] → ⊥ }
{}

// Clock calls get readings, in their order.
fn faithful_clocks()
    ensures in_order { IsFaithful (Clock 5 ∷ Clock 7 ∷ []) [] false (5 ∷ 6 ∷ 7 ∷ []) }
    ensures twice { IsFaithful (Clock 5 ∷ Clock 5 ∷ []) [] false (5 ∷ []) }
    ensures back { IsFaithful (Clock 7 ∷ Clock 5 ∷ []) [] false (5 ∷ 7 ∷ []) → ⊥ }
    ensures never_read { IsFaithful (Clock 6 ∷ []) [] false (5 ∷ 7 ∷ []) → ⊥ }
{}

// The journal of a guest's file of one byte, AA, without a record.
#[tactic(auto, unfolding(guest_kernel::specs::Slices::chain, journal_text::specs::Reading::reads, journal_text::specs::Records::list_from, journal_text::specs::Records::next_at, dp_base::specs::Journal::header_at))]
fn images()
    ensures begun { (every : ℕ) (start : State) → IsRecording (0xaa ∷ []) every start None None (1 ∷ 0x44 ∷ 0x50 ∷ 0x4a ∷ 0x31 ∷ 1 ∷ 0 ∷ 0 ∷ 0 ∷ 0xaa ∷ 0 ∷ []) [] }
    ensures sent_too_early { (every : ℕ) (start : State) → IsRecording (0xaa ∷ []) every start None None (1 ∷ 0x44 ∷ 0x50 ∷ 0x4a ∷ 0x31 ∷ 1 ∷ 0 ∷ 0 ∷ 0 ∷ 0xaa ∷ 0 ∷ []) (7 ∷ []) → ⊥ }
    ensures another_guest { (every : ℕ) (start : State) → IsRecording (0xbb ∷ []) every start None None (1 ∷ 0x44 ∷ 0x50 ∷ 0x4a ∷ 0x31 ∷ 1 ∷ 0 ∷ 0 ∷ 0 ∷ 0xaa ∷ 0 ∷ []) [] → ⊥ }
    ensures no_journal { (every : ℕ) (start : State) → IsRecording (0xaa ∷ []) every start None None (0 ∷ 0x44 ∷ 0x50 ∷ 0x4a ∷ 0x31 ∷ 1 ∷ 0 ∷ 0 ∷ 0 ∷ 0xaa ∷ 0 ∷ []) [] → ⊥ }
{}
