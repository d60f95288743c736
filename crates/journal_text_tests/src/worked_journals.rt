//! What the definitions say of files that stand here in full: at each a mistake in one of them shows. The expected
//! sides were written by hand. The guest's file has one byte, AA; the epoch is of three steps of thread 1; the mark is
//! of a guest whose one thread is gone with code 7.

ghost use Rattle.std.specs.Prelude.{◌≡◌, ◌∷◌, [], ◌++◌, ℕ, List, length, Some, None};
ghost use Rattle.dp_base.specs.Journal.{record_of};
ghost use Rattle.guest_state.specs.declared.end.End.TheVariants as ends;
ghost use Rattle.guest_state.specs.declared.thread.Thread.TheVariants.{Gone};
ghost use Rattle.journal_text.specs.Reading.{bad_record, end, first_bytes, journal_of, reads};
ghost use Rattle.journal_text.specs.Records.{IsRecord, Record, bad, body_of, ended, epoch, found, mark, next_at, partial, record_bytes};

fn encodings()
    ensures epoch { record_bytes (epoch (record { slices = record { tid = record { 0 = 1 }; steps = 3 } ∷ []; answers = [] })) ≡ 1 ∷ 0x0f ∷ 0 ∷ 0 ∷ 0 ∷ 0 ∷ 1 ∷ 0 ∷ 0 ∷ 0 ∷ 1 ∷ 0 ∷ 3 ∷ 0 ∷ 0 ∷ 0 ∷ 0 ∷ 0 ∷ 0 ∷ 0 ∷ [] }
    ensures mark { record_bytes (mark (record { steps = 3; input = 0; heap = 0x1000; brk = 0x1004; end = ends.None; threads = Gone 7 ∷ []; pages = [] })) ≡ 1 ∷ 0x23 ∷ 0 ∷ 0 ∷ 0 ∷ 1 ∷ 3 ∷ 0 ∷ 0 ∷ 0 ∷ 0 ∷ 0 ∷ 0 ∷ 0 ∷ 0 ∷ 0 ∷ 0 ∷ 0 ∷ 0 ∷ 0 ∷ 0 ∷ 0 ∷ 0 ∷ 0x10 ∷ 0 ∷ 0 ∷ 4 ∷ 0x10 ∷ 0 ∷ 0 ∷ 0 ∷ 1 ∷ 0 ∷ 2 ∷ 7 ∷ 0 ∷ 0 ∷ 0 ∷ 0 ∷ 0 ∷ [] }
    ensures partial { record_bytes (partial (record { fields = record { steps = 3; input = 0; heap = 0x1000; brk = 0x1004; end = ends.None }; threads = Gone 7 ∷ []; pages = record { number = 0x10; flags = 5; content = None } ∷ [] })) ≡ 1 ∷ 0x29 ∷ 0 ∷ 0 ∷ 0 ∷ 2 ∷ 3 ∷ 0 ∷ 0 ∷ 0 ∷ 0 ∷ 0 ∷ 0 ∷ 0 ∷ 0 ∷ 0 ∷ 0 ∷ 0 ∷ 0 ∷ 0 ∷ 0 ∷ 0 ∷ 0 ∷ 0x10 ∷ 0 ∷ 0 ∷ 4 ∷ 0x10 ∷ 0 ∷ 0 ∷ 0 ∷ 1 ∷ 0 ∷ 2 ∷ 7 ∷ 0 ∷ 0 ∷ 0 ∷ 1 ∷ 0 ∷ 0x10 ∷ 0 ∷ 0 ∷ 0 ∷ 5 ∷ 0 ∷ [] }
    ensures journal { journal_of (0xaa ∷ []) (epoch (record { slices = record { tid = record { 0 = 1 }; steps = 3 } ∷ []; answers = [] }) ∷ []) ≡ 1 ∷ 0x44 ∷ 0x50 ∷ 0x4a ∷ 0x31 ∷ 1 ∷ 0 ∷ 0 ∷ 0 ∷ 0xaa ∷ 1 ∷ 0x0f ∷ 0 ∷ 0 ∷ 0 ∷ 0 ∷ 1 ∷ 0 ∷ 0 ∷ 0 ∷ 1 ∷ 0 ∷ 3 ∷ 0 ∷ 0 ∷ 0 ∷ 0 ∷ 0 ∷ 0 ∷ 0 ∷ 0 ∷ [] }
    ensures two_epochs { journal_of (0xaa ∷ []) (epoch (record { slices = record { tid = record { 0 = 1 }; steps = 3 } ∷ []; answers = [] }) ∷ epoch (record { slices = record { tid = record { 0 = 1 }; steps = 4 } ∷ []; answers = [] }) ∷ []) ≡ 1 ∷ 0x44 ∷ 0x50 ∷ 0x4a ∷ 0x31 ∷ 1 ∷ 0 ∷ 0 ∷ 0 ∷ 0xaa ∷ 1 ∷ 15 ∷ 0 ∷ 0 ∷ 0 ∷ 0 ∷ 1 ∷ 0 ∷ 0 ∷ 0 ∷ 1 ∷ 0 ∷ 3 ∷ 0 ∷ 0 ∷ 0 ∷ 0 ∷ 0 ∷ 0 ∷ 0 ∷ 1 ∷ 15 ∷ 0 ∷ 0 ∷ 0 ∷ 0 ∷ 1 ∷ 0 ∷ 0 ∷ 0 ∷ 1 ∷ 0 ∷ 4 ∷ 0 ∷ 0 ∷ 0 ∷ 0 ∷ 0 ∷ 0 ∷ 0 ∷ 0 ∷ [] }
    ensures too_long { (r : Record) → length (body_of r) ≡ 16777217 → IsRecord r → ⊥ }
    ensures first { (file : List ℕ) → length file ≡ 1073741824 → first_bytes (file ++ 1 ∷ []) ≡ file }
{}

// What is at a gate.
#[tactic(auto, unfolding(journal_text::specs::Records::next_at, journal_text::specs::Records::fitting_at, journal_text::specs::Records::record_in, journal_text::specs::Records::mark_in, dp_base::specs::Journal::epoch_body_at, dp_base::specs::Journal::many_at, dp_base::specs::Journal::slice_at, dp_base::specs::Journal::answer_at, dp_base::specs::Journal::read_at, dp_base::specs::Journal::clock_at, guest_state::specs::Checkpoint::checkpoint_from, guest_state::specs::Checkpoint::end_from, guest_state::specs::Checkpoint::thread_from, guest_state::specs::Checkpoint::gone_from, partial_mark::specs::Partial::partial_from, partial_mark::specs::Partial::parts_from, partial_mark::specs::Partial::fields_from, partial_mark::specs::Partial::counted_from, partial_mark::specs::Partial::partial_page_from, partial_mark::specs::Partial::content_from))]
fn gates()
    ensures nothing { next_at [] ≡ ended }
    ensures closed { next_at (0 ∷ 0x0f ∷ 0 ∷ 0 ∷ 0 ∷ 0 ∷ 1 ∷ 0 ∷ 0 ∷ 0 ∷ 1 ∷ 0 ∷ 3 ∷ 0 ∷ 0 ∷ 0 ∷ 0 ∷ 0 ∷ 0 ∷ 0 ∷ []) ≡ ended }
    ensures third_gate { next_at (2 ∷ 0x0f ∷ 0 ∷ 0 ∷ 0 ∷ 0 ∷ 1 ∷ 0 ∷ 0 ∷ 0 ∷ 1 ∷ 0 ∷ 3 ∷ 0 ∷ 0 ∷ 0 ∷ 0 ∷ 0 ∷ 0 ∷ 0 ∷ []) ≡ ended }
    ensures no_length { next_at (1 ∷ 0 ∷ 0 ∷ 0 ∷ []) ≡ ended }
    ensures empty { next_at (1 ∷ 0 ∷ 0 ∷ 0 ∷ 0 ∷ []) ≡ bad }
    ensures not_whole { next_at (1 ∷ 2 ∷ 0 ∷ 0 ∷ 0 ∷ 0 ∷ []) ≡ ended }
    ensures longest_without_body { next_at (1 ∷ 0 ∷ 0 ∷ 0 ∷ 1 ∷ []) ≡ ended }
    ensures longer_without_body { next_at (1 ∷ 1 ∷ 0 ∷ 0 ∷ 1 ∷ []) ≡ ended }
    ensures too_long { (body rest : List ℕ) → length body ≡ 16777217 → next_at (record_of body ++ rest) ≡ bad }
    ensures third_kind { next_at (1 ∷ 1 ∷ 0 ∷ 0 ∷ 0 ∷ 2 ∷ 9 ∷ []) ≡ bad }
    ensures epoch { next_at (1 ∷ 0x0f ∷ 0 ∷ 0 ∷ 0 ∷ 0 ∷ 1 ∷ 0 ∷ 0 ∷ 0 ∷ 1 ∷ 0 ∷ 3 ∷ 0 ∷ 0 ∷ 0 ∷ 0 ∷ 0 ∷ 0 ∷ 0 ∷ 0 ∷ []) ≡ found (epoch (record { slices = record { tid = record { 0 = 1 }; steps = 3 } ∷ []; answers = [] })) (0 ∷ []) }
    ensures mark { next_at (1 ∷ 0x23 ∷ 0 ∷ 0 ∷ 0 ∷ 1 ∷ 3 ∷ 0 ∷ 0 ∷ 0 ∷ 0 ∷ 0 ∷ 0 ∷ 0 ∷ 0 ∷ 0 ∷ 0 ∷ 0 ∷ 0 ∷ 0 ∷ 0 ∷ 0 ∷ 0 ∷ 0x10 ∷ 0 ∷ 0 ∷ 4 ∷ 0x10 ∷ 0 ∷ 0 ∷ 0 ∷ 1 ∷ 0 ∷ 2 ∷ 7 ∷ 0 ∷ 0 ∷ 0 ∷ 0 ∷ 0 ∷ 0 ∷ []) ≡ found (mark (record { steps = 3; input = 0; heap = 0x1000; brk = 0x1004; end = ends.None; threads = Gone 7 ∷ []; pages = [] })) (0 ∷ []) }
    ensures partial { next_at (1 ∷ 0x29 ∷ 0 ∷ 0 ∷ 0 ∷ 2 ∷ 3 ∷ 0 ∷ 0 ∷ 0 ∷ 0 ∷ 0 ∷ 0 ∷ 0 ∷ 0 ∷ 0 ∷ 0 ∷ 0 ∷ 0 ∷ 0 ∷ 0 ∷ 0 ∷ 0 ∷ 0x10 ∷ 0 ∷ 0 ∷ 4 ∷ 0x10 ∷ 0 ∷ 0 ∷ 0 ∷ 1 ∷ 0 ∷ 2 ∷ 7 ∷ 0 ∷ 0 ∷ 0 ∷ 1 ∷ 0 ∷ 0x10 ∷ 0 ∷ 0 ∷ 0 ∷ 5 ∷ 0 ∷ 0 ∷ []) ≡ found (partial (record { fields = record { steps = 3; input = 0; heap = 0x1000; brk = 0x1004; end = ends.None }; threads = Gone 7 ∷ []; pages = record { number = 0x10; flags = 5; content = None } ∷ [] })) (0 ∷ []) }
    ensures fourth_kind { next_at (1 ∷ 1 ∷ 0 ∷ 0 ∷ 0 ∷ 3 ∷ 9 ∷ []) ≡ bad }
    ensures mark_with_a_byte_behind { next_at (1 ∷ 0x24 ∷ 0 ∷ 0 ∷ 0 ∷ 1 ∷ 3 ∷ 0 ∷ 0 ∷ 0 ∷ 0 ∷ 0 ∷ 0 ∷ 0 ∷ 0 ∷ 0 ∷ 0 ∷ 0 ∷ 0 ∷ 0 ∷ 0 ∷ 0 ∷ 0 ∷ 0x10 ∷ 0 ∷ 0 ∷ 4 ∷ 0x10 ∷ 0 ∷ 0 ∷ 0 ∷ 1 ∷ 0 ∷ 2 ∷ 7 ∷ 0 ∷ 0 ∷ 0 ∷ 0 ∷ 0 ∷ 0 ∷ []) ≡ bad }
{}

#[tactic(auto, unfolding(journal_text::specs::Reading::reads, journal_text::specs::Records::list_from, journal_text::specs::Records::next_at, journal_text::specs::Records::fitting_at, journal_text::specs::Records::record_in, journal_text::specs::Records::mark_in, dp_base::specs::Journal::header_at, dp_base::specs::Journal::epoch_body_at, dp_base::specs::Journal::many_at, dp_base::specs::Journal::slice_at, guest_state::specs::Checkpoint::checkpoint_from, guest_state::specs::Checkpoint::end_from, guest_state::specs::Checkpoint::thread_from, guest_state::specs::Checkpoint::gone_from, partial_mark::specs::Partial::partial_from))]
fn journals()
    ensures nothing { reads [] ≡ None }
    ensures gate_alone { reads (1 ∷ []) ≡ None }
    ensures no_record { reads (1 ∷ 0x44 ∷ 0x50 ∷ 0x4a ∷ 0x31 ∷ 1 ∷ 0 ∷ 0 ∷ 0 ∷ 0xaa ∷ []) ≡ Some (record { guest = 0xaa ∷ []; records = []; tail = end 10 }) }
    ensures at_rest { reads (1 ∷ 0x44 ∷ 0x50 ∷ 0x4a ∷ 0x31 ∷ 1 ∷ 0 ∷ 0 ∷ 0 ∷ 0xaa ∷ 1 ∷ 0x0f ∷ 0 ∷ 0 ∷ 0 ∷ 0 ∷ 1 ∷ 0 ∷ 0 ∷ 0 ∷ 1 ∷ 0 ∷ 3 ∷ 0 ∷ 0 ∷ 0 ∷ 0 ∷ 0 ∷ 0 ∷ 0 ∷ 0 ∷ []) ≡ Some (record { guest = 0xaa ∷ []; records = epoch (record { slices = record { tid = record { 0 = 1 }; steps = 3 } ∷ []; answers = [] }) ∷ []; tail = end 30 }) }
    ensures no_gate_behind { reads (1 ∷ 0x44 ∷ 0x50 ∷ 0x4a ∷ 0x31 ∷ 1 ∷ 0 ∷ 0 ∷ 0 ∷ 0xaa ∷ 1 ∷ 0x0f ∷ 0 ∷ 0 ∷ 0 ∷ 0 ∷ 1 ∷ 0 ∷ 0 ∷ 0 ∷ 1 ∷ 0 ∷ 3 ∷ 0 ∷ 0 ∷ 0 ∷ 0 ∷ 0 ∷ 0 ∷ 0 ∷ []) ≡ Some (record { guest = 0xaa ∷ []; records = epoch (record { slices = record { tid = record { 0 = 1 }; steps = 3 } ∷ []; answers = [] }) ∷ []; tail = end 30 }) }
    ensures marked { reads (1 ∷ 0x44 ∷ 0x50 ∷ 0x4a ∷ 0x31 ∷ 1 ∷ 0 ∷ 0 ∷ 0 ∷ 0xaa ∷ 1 ∷ 0x0f ∷ 0 ∷ 0 ∷ 0 ∷ 0 ∷ 1 ∷ 0 ∷ 0 ∷ 0 ∷ 1 ∷ 0 ∷ 3 ∷ 0 ∷ 0 ∷ 0 ∷ 0 ∷ 0 ∷ 0 ∷ 0 ∷ 1 ∷ 0x23 ∷ 0 ∷ 0 ∷ 0 ∷ 1 ∷ 3 ∷ 0 ∷ 0 ∷ 0 ∷ 0 ∷ 0 ∷ 0 ∷ 0 ∷ 0 ∷ 0 ∷ 0 ∷ 0 ∷ 0 ∷ 0 ∷ 0 ∷ 0 ∷ 0 ∷ 0x10 ∷ 0 ∷ 0 ∷ 4 ∷ 0x10 ∷ 0 ∷ 0 ∷ 0 ∷ 1 ∷ 0 ∷ 2 ∷ 7 ∷ 0 ∷ 0 ∷ 0 ∷ 0 ∷ 0 ∷ 0 ∷ []) ≡ Some (record { guest = 0xaa ∷ []; records = epoch (record { slices = record { tid = record { 0 = 1 }; steps = 3 } ∷ []; answers = [] }) ∷ mark (record { steps = 3; input = 0; heap = 0x1000; brk = 0x1004; end = ends.None; threads = Gone 7 ∷ []; pages = [] }) ∷ []; tail = end 70 }) }
    ensures bad_second { reads (1 ∷ 0x44 ∷ 0x50 ∷ 0x4a ∷ 0x31 ∷ 1 ∷ 0 ∷ 0 ∷ 0 ∷ 0xaa ∷ 1 ∷ 0x0f ∷ 0 ∷ 0 ∷ 0 ∷ 0 ∷ 1 ∷ 0 ∷ 0 ∷ 0 ∷ 1 ∷ 0 ∷ 3 ∷ 0 ∷ 0 ∷ 0 ∷ 0 ∷ 0 ∷ 0 ∷ 0 ∷ 1 ∷ 0 ∷ 0 ∷ 0 ∷ 0 ∷ []) ≡ Some (record { guest = 0xaa ∷ []; records = epoch (record { slices = record { tid = record { 0 = 1 }; steps = 3 } ∷ []; answers = [] }) ∷ []; tail = bad_record 2 }) }
{}
