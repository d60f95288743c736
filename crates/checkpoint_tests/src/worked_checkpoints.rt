//! What the definitions say of values and bytes that stand here in full: at each a mistake in one of them shows. The
//! expected sides were written by hand.

ghost use Rattle.std.specs.Prelude.{◌≡◌, ◌∷◌, [], ◌++◌, List, ℕ, length, replicate, Some, None, true, false};
ghost use Rattle.dp_base.specs.declared.page.Page.{Page};
ghost use Rattle.guest_state.specs.declared.end.End.TheVariants as ends;
ghost use Rattle.guest_state.specs.declared.thread.Thread.TheVariants.{Runs, Waits, Gone};
ghost use Rattle.guest_state.specs.Checkpoint.{Checkpoint, IsFreeHart, checkpoint_bytes, end_bytes, end_from, is_heap, live, page_bytes, rising, thread_bytes, traps_within};

fn ends()
    ensures none { end_bytes ends.None ≡ 0 ∷ [] }
    ensures exit { end_bytes (ends.Exit 0x01020304) ≡ 1 ∷ 4 ∷ 3 ∷ 2 ∷ 1 ∷ [] }
    ensures trap { end_bytes (ends.Trap (record { 0 = 0x0102 }) 7 0x0a0b0c0d) ≡ 2 ∷ 2 ∷ 1 ∷ 7 ∷ 0x0d ∷ 0x0c ∷ 0x0b ∷ 0x0a ∷ [] }
    ensures deadlock { end_bytes ends.Deadlock ≡ 3 ∷ [] }
{}

#[tactic(auto, unfolding(guest_state::specs::Checkpoint::end_from, guest_state::specs::Checkpoint::trap_from, guest_state::specs::Checkpoint::exit_from))]
fn ends_read()
    ensures trap { end_from (2 ∷ 1 ∷ 0 ∷ 3 ∷ 0x54 ∷ 0 ∷ 1 ∷ 0 ∷ 9 ∷ []) ≡ Some (ends.Trap (record { 0 = 1 }) 3 0x10054, 9 ∷ []) }
    ensures eighth_cause { end_from (2 ∷ 1 ∷ 0 ∷ 8 ∷ 0 ∷ 0 ∷ 0 ∷ 0 ∷ []) ≡ None }
    ensures no_kind { end_from (4 ∷ []) ≡ None }
{}

// pc, the clear-on-exit address, and x1 to x31; a waiting thread has its address first.
fn threads()
    ensures gone { thread_bytes (Gone 5) ≡ 2 ∷ 5 ∷ 0 ∷ 0 ∷ 0 ∷ [] }
    ensures runs { thread_bytes (Runs (record { pc = 0x10054; x = 1 ∷ 2 ∷ []; held = None }) 3) ≡ 0 ∷ 0x54 ∷ 0 ∷ 1 ∷ 0 ∷ 3 ∷ 0 ∷ 0 ∷ 0 ∷ 1 ∷ 0 ∷ 0 ∷ 0 ∷ 2 ∷ 0 ∷ 0 ∷ 0 ∷ [] }
    ensures waits { thread_bytes (Waits 0x0a000000 (record { pc = 4; x = []; held = None }) 3) ≡ 1 ∷ 0 ∷ 0 ∷ 0 ∷ 0x0a ∷ 4 ∷ 0 ∷ 0 ∷ 0 ∷ 3 ∷ 0 ∷ 0 ∷ 0 ∷ [] }
    ensures held { IsFreeHart (record { pc = 4; x = replicate 31 0; held = Some 4 }) → ⊥ }
    ensures alive { live (Gone 1 ∷ Waits 4 (record { pc = 4; x = []; held = None }) 0 ∷ Gone 2 ∷ Runs (record { pc = 4; x = []; held = None }) 0 ∷ []) ≡ 2 }
{}

fn bounds()
    ensures page { page_bytes (record { number = 0x10; flags = 5; bytes = 7 ∷ [] }) ≡ 0x10 ∷ 0 ∷ 0 ∷ 0 ∷ 5 ∷ 7 ∷ [] }
    ensures rises { rising (record { number = 0; flags = 0; bytes = [] } ∷ record { number = 2; flags = 0; bytes = [] } ∷ []) ≡ true }
    ensures twice { rising (record { number = 2; flags = 0; bytes = [] } ∷ record { number = 2; flags = 0; bytes = [] } ∷ []) ≡ false }
    ensures falls { rising (record { number = 2; flags = 0; bytes = [] } ∷ record { number = 1; flags = 0; bytes = [] } ∷ []) ≡ false }
    ensures heap { is_heap 0x11000 0x11000 ≡ true }
    ensures below { is_heap 0x11000 0x10fff ≡ false }
    ensures unaligned { is_heap 0x11001 0x11001 ≡ false }
    ensures top { is_heap 0xfffff000 0xfffff000 ≡ true }
    ensures past_it { is_heap 0x11000 0xfffff001 ≡ false }
    ensures first_thread { traps_within 1 (ends.Trap (record { 0 = 1 }) 0 0) ≡ true }
    ensures thread_0 { traps_within 1 (ends.Trap (record { 0 = 0 }) 0 0) ≡ false }
    ensures never_made { traps_within 1 (ends.Trap (record { 0 = 2 }) 0 0) ≡ false }
{}

// Numbers, an end, one thread and no page.
fn checkpoints()
    ensures { checkpoint_bytes (record { steps = 3; input = 2; heap = 0x11000; brk = 0x11001; end = ends.Exit 7; threads = Gone 7 ∷ []; pages = [] }) ≡ 3 ∷ 0 ∷ 0 ∷ 0 ∷ 0 ∷ 0 ∷ 0 ∷ 0 ∷ 2 ∷ 0 ∷ 0 ∷ 0 ∷ 0 ∷ 0 ∷ 0 ∷ 0 ∷ 0 ∷ 0x10 ∷ 1 ∷ 0 ∷ 1 ∷ 0x10 ∷ 1 ∷ 0 ∷ 1 ∷ 7 ∷ 0 ∷ 0 ∷ 0 ∷ 1 ∷ 0 ∷ 2 ∷ 7 ∷ 0 ∷ 0 ∷ 0 ∷ 0 ∷ 0 ∷ [] }
{}
