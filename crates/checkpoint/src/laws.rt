//! Which states have an encoding. Each function's contract is a law over all guests, states, slices and logs; a call of
//! it costs nothing and hands the law to the caller's proof.

ghost use Rattle.std.specs.Prelude.{◌≡◌, ◌<◌, ◌^◌, ℕ, List, [], length, Ok};
ghost use Rattle.dp_base.specs.declared.answer.Answer.{Answer};
ghost use Rattle.dp_base.specs.declared.slice.Slice.{Slice};
ghost use Rattle.dp_base.specs.declared.tid.Tid.{Tid};
ghost use Rattle.dp_base.specs.Field.{AreBytes};
ghost use Rattle.dp_base.specs.Journal.{Epoch, IsAnswer};
ghost use Rattle.std.specs.List.{AllByRecursion};
ghost use Rattle.guest_kernel.specs.declared.state.State.{State};
ghost use Rattle.guest_kernel.specs.Call.{After};
ghost use Rattle.guest_kernel.specs.Slices.{new_after, run, chain};
ghost use Rattle.guest_kernel.specs.Start.{IsGuestFile, start_state};
ghost use Rattle.guest_kernel.specs.State.{without_reservation};
ghost use Rattle.guest_kernel.specs.Turn.{turn};
ghost use Rattle.partial_mark.specs.Partial.{IsPartial, Partial, partial_bytes};
ghost use Rattle.checkpoint.specs.State.{IsEncodable, state_bytes};
ghost use Rattle.dp_base.specs.declared.limits.TheConstants.{MAX_BODY_BYTES};

/// The state in which a guest starts has an encoding.
pub fn a_start_state_is_encodable()
    ensures { (file : List ℕ) → IsGuestFile file → AreBytes file → IsEncodable (start_state file) }
{
    elf_image::laws::a_file_without_fault_has_segments();
    elf_image::laws::a_heap_starts_in_memory();
    guest_kernel::laws::a_guest_starts_with_pages();
}

/// The encoding of a state is shorter than the body of a record may be, so a mark of it fits.
pub fn an_encoding_is_short()
    ensures { (s : State) → IsEncodable s → length (state_bytes s) < MAX_BODY_BYTES }
{}

/// A partial mark is shorter than the body of a record may be.
pub fn a_partial_is_short()
    ensures { (m : Partial) → IsPartial m → length (partial_bytes m) < MAX_BODY_BYTES }
{}

/// After a turn a state has an encoding once the reservation of the thread whose turn it was is dropped, if it was so
/// before and its answers have encodings. Step counts and input places are below 2^64.
pub fn a_turn_keeps_a_state_encodable()
    ensures { (s : State) (tid : Tid) (log : List Answer) (after : After) → IsEncodable (without_reservation s tid) →
        AllByRecursion IsAnswer log → turn s tid log ≡ Ok after → after.state.steps < 2 ^ 64 →
        after.state.input < 2 ^ 64 → IsEncodable (without_reservation after.state tid) }
{
    rv_step::laws::a_step_leaves_words();
    rv_step::laws::a_trap_has_a_cause();
    rv_step::laws::a_store_leaves_bytes();
    cow_pages::laws::a_heap_keeps_pages();
    guest_kernel::laws::threads_are_few();
    guest_kernel::laws::a_wake_is_of_the_lowest();
}

/// A run of slices from a state that has an encoding ends in one, if its answers have encodings and it has fewer than
/// 2^64 steps and bytes of input.
pub fn a_run_keeps_a_state_encodable()
    ensures { (s : State) (slices : List Slice) (log : List Answer) (there : After) → IsEncodable s →
        AllByRecursion IsAnswer log → run slices (new_after s [] log) ≡ Ok there → there.state.steps < 2 ^ 64 →
        there.state.input < 2 ^ 64 → IsEncodable there.state }
{
    guest_kernel::laws::a_turn_is_one_step();
    guest_kernel::laws::the_place_grows_by_what_is_read();
    guest_kernel::laws::a_turn_goes_by_its_peek();
    a_turn_keeps_a_state_encodable();
}

/// A chain of epochs from a state that has an encoding ends in one, if their answers have encodings and it has fewer
/// than 2^64 steps and bytes of input.
pub fn a_chain_keeps_a_state_encodable()
    ensures { (s : State) (epochs : List Epoch) (end : State) (output : List ℕ) → IsEncodable s →
        AllByRecursion (λ e. AllByRecursion IsAnswer e.answers) epochs → chain s epochs ≡ Ok (end, output) →
        end.steps < 2 ^ 64 → end.input < 2 ^ 64 → IsEncodable end }
{
    guest_kernel::laws::a_turn_is_one_step();
    guest_kernel::laws::the_place_grows_by_what_is_read();
    guest_kernel::laws::a_turn_goes_by_its_peek();
    a_turn_keeps_a_state_encodable();
}
