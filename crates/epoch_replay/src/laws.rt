//! What follows from the definition of a play alone. A call of such a function costs nothing, and hands the law to the
//! caller's proof.

ghost use Rattle.std.specs.Prelude.{◌≡◌, ◌↔◌, ℕ, List, Some, true, length};
ghost use Rattle.std.specs.List.{AllByRecursion};
ghost use Rattle.disk_model.specs.History.{History, IsSynced};
ghost use Rattle.dp_base.specs.Field.{AreBytes};
ghost use Rattle.guest_kernel.specs.Start.{IsGuestFile, start_state};
ghost use Rattle.journal_text.specs.Reading.{Reading, Tail, reads};
ghost use Rattle.journal_text.specs.Records.{IsRecord, Record};
ghost use Rattle.guest_kernel.specs.declared.state.State.{State};
ghost use Rattle.guest_state.specs.Checkpoint.{Checkpoint, IsCheckpoint};
ghost use Rattle.checkpoint.specs.State.{IsEncodable, checkpoint_of};
ghost use Rattle.epoch_replay.specs.Play.{is_right, play_from, play_of};
ghost use Rattle.epoch_replay.specs.Parts.{IsWithinMarks, first_part, marked_parts, play_parts, played_part};
ghost use Rattle.epoch_replay.specs.Replaying.{IsReplaying};

/// A mark is right exactly if it is the guest's whole state there.
pub fn a_right_mark_is_the_state()
    ensures { (c : Checkpoint) (s : State) → IsCheckpoint c → IsEncodable s → (is_right c s ≡ true) ↔ (c ≡ checkpoint_of s) }
{
    guest_state::laws::whole_checkpoints();
}

/// A crash at any moment of a replay leaves exactly the bytes that the disk had, if nothing was pending.
pub fn a_crash_in_a_replay_leaves_the_disk()
    ensures { (output : List ℕ) (before : History) (image sent : List ℕ) → IsSynced before →
        IsReplaying output before image sent → image ≡ before.disk }
{}

/// Playing records one after another is playing each stretch between two marks from its own mark: the results are
/// joined up to the first stretch that stops, or whose end isn't the next mark. A partial mark's state is taken against
/// that of the mark before it, without any epoch.
pub fn a_play_is_that_of_its_stretches()
    ensures records { (base s : State) (number : ℕ) (records : List Record) (tail : Tail) → IsEncodable base →
        AllByRecursion IsRecord records → IsWithinMarks (length records) s → play_from base s number records tail
        ≡ play_parts (played_part s (first_part records)) number (length (first_part records))
        (marked_parts (Some (checkpoint_of base)) records) tail }
    ensures journal { (bytes : List ℕ) (r : Reading) → AreBytes bytes → reads bytes ≡ Some r → IsGuestFile r.guest → play_of r
        ≡ play_parts (played_part (start_state r.guest) (first_part r.records)) 1 (length (first_part r.records))
        (marked_parts (Some (checkpoint_of (start_state r.guest))) r.records) r.tail }
{
    guest_state::laws::whole_checkpoints();
    partial_mark::laws::a_partial_stands_for_a_checkpoint();
    guest_kernel::laws::a_run_is_as_long_as_its_slices();
    checkpoint::laws::a_run_keeps_a_state_encodable();
    checkpoint::laws::a_start_state_is_encodable();
    journal_text::laws::a_journal_is_its_parts();
}
