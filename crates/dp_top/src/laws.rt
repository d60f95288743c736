//! The two halves together: what a recording leaves plays to what it was. A call of such a function costs nothing, and
//! hands the law to the caller's proof.

ghost use Rattle.std.specs.Prelude.{◌≡◌, ◌++◌, ℕ, List, Option, None, Some, Ok};
ghost use Rattle.dp_base.specs.Field.{AreBytes};
ghost use Rattle.disk_model.specs.History.{History};
ghost use Rattle.disk_model.specs.Input.{Input};
ghost use Rattle.dp_report.specs.declared.report.Report.{Report};
ghost use Rattle.epoch_replay.specs.Play.{no_journal, played, plays_to};
ghost use Rattle.epoch_replay.specs.Replaying.{Ends, Replayed};
ghost use Rattle.guest_kernel.specs.Start.{IsGuestFile, start_state};
ghost use Rattle.journal_text.specs.Reading.{journal_of, reads};
ghost use Rattle.racing_runner.specs.Offers.{Tells};
ghost use Rattle.recorder.specs.declared.options.Options.{Options};
ghost use Rattle.recorder.specs.Moments.{IsRecording};
ghost use Rattle.recorder.specs.Recording.{FitsWithin, Recorded, Run, records, report_of};

/// The journal of a run, however far it went, plays to its end if it isn't too long: to the run's whole output, and to
/// the state in which the run ends.
pub fn a_run_plays_to_its_end()
    ensures { (guest : List ℕ) (tells : Tells) (options : Options) (r : Run tells options (start_state guest)) → IsGuestFile guest → AreBytes guest →
        FitsWithin guest options (records r) →
        plays_to (reads (journal_of guest (records r))) ≡ played (record { output = r.output; stop = Ok r.end }) }
{
    elf_image::laws::a_file_without_fault_has_segments();
    journal_text::laws::a_journal_at_rest_reads_as_itself();
    checkpoint::laws::a_start_state_is_encodable();
    checkpoint::laws::a_run_keeps_a_state_encodable();
    checkpoint::laws::a_partial_is_short();
    guest_kernel::laws::a_run_is_as_long_as_its_slices();
}

/// A journal that a recording answered `Ok` for plays to exactly the output that the recording sent, and to the report
/// that it gave, but for the squashes, of which a replay has none.
pub fn a_recording_plays_as_it_was()
    ensures { (guest : List ℕ) (tells : Tells) (options : Options) (i j : Option Input) (before after : History) (report : Report) → IsGuestFile guest → AreBytes guest →
        Recorded guest tells (start_state guest) options i j (Some before) (Some after) (Ok report) →
        (output : List ℕ) × (after.sent ≡ before.sent ++ output)
        × Ends (reads after.disk) output (record report { squashes = 0 }) }
{
    elf_image::laws::a_file_without_fault_has_segments();
    journal_text::laws::a_journal_at_rest_reads_as_itself();
    checkpoint::laws::a_start_state_is_encodable();
    checkpoint::laws::a_run_keeps_a_state_encodable();
    checkpoint::laws::a_partial_is_short();
    guest_kernel::laws::a_run_is_as_long_as_its_slices();
}

/// Whatever a crash leaves of a recording plays to its run: to the whole output of its epochs, of which a prefix was
/// sent by then, and to the state in which they end. If it leaves no journal, there is nothing to play.
pub fn a_crash_plays_to_its_run()
    ensures recording { (guest : List ℕ) (every : ℕ) (i j : Option Input) (image said : List ℕ) → IsGuestFile guest → (r : IsRecording guest every (start_state guest) i j image said) →
        plays_to (reads image) ≡ played (record { output = r.output; stop = Ok r.end }) }
    ensures none { (image : List ℕ) → reads image ≡ None → plays_to (reads image) ≡ no_journal }
{}

/// A replay of what a crash left of a recording, if it answers `Ok`, sends exactly the output of its epochs, and
/// reports exactly the state in which they end.
pub fn a_crash_is_replayed()
    ensures { (guest : List ℕ) (every : ℕ) (i j : Option Input) (image said : List ℕ) (before after : History) (report : Report) → IsGuestFile guest →
        (r : IsRecording guest every (start_state guest) i j image said) → Replayed (reads image) (Some before) (Some after) (Ok report) →
        (after.sent ≡ before.sent ++ r.output) × (report ≡ report_of r.epochs r.end r.output) }
{}
