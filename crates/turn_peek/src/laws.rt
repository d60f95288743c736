//! What follows from the definitions alone. Each function's contract is a law over all instructions, harts and
//! memories; a call of it costs nothing and hands the law to the caller's proof.

ghost use Rattle.std.specs.Prelude.{◌≡◌, ◌⊎◌, ◌<◌, ◌≤◌, ℕ, Bool, Option};
ghost use Rattle.dp_base.specs.declared.limits.TheConstants.{MAX_CALL_BYTES};
ghost use Rattle.dp_base.specs.Memory.{Memory};
ghost use Rattle.guest_state.specs.declared.hart.Hart.{Hart};
ghost use Rattle.rv_step.specs.declared.instr.Instr.{Instr};
ghost use Rattle.turn_peek.specs.declared.peek.Peek.{Peek};
ghost use Rattle.turn_peek.specs.Peek.{hart_peeked, instruction_peeked};

/// An instruction that neither calls nor traps takes nothing from outside.
pub fn an_instruction_asks_for_nothing()
    ensures { (i : Instr) → (instruction_peeked i ≡ Peek.Plain) ⊎ ((instruction_peeked i ≡ Peek.Sync) ⊎ (instruction_peeked i ≡ Peek.Sc)) }
{}

/// What a hart's next turn asks for doesn't depend on its reservation: no test differs with and without it, but one
/// that distinguishes Plain, Sync and Sc.
pub fn a_reservation_asks_for_nothing()
    ensures { (f : Peek → Bool) (hart : Hart) (memory : Memory) (input : ℕ) → f Peek.Plain ≡ f Peek.Sync → f Peek.Sc ≡ f Peek.Sync
        → f (hart_peeked (record hart { held = None }) memory input) ≡ f (hart_peeked hart memory input) }
{}

/// A hart's next turn is the same over any reservation.
pub fn a_peek_needs_no_reservation()
    ensures { (hart : Hart) (held : Option ℕ) (memory : Memory) (input : ℕ) → hart_peeked (record hart { held = held }) memory input ≡ hart_peeked hart memory input }
{}

/// A read takes its input from where the guest's input is, and at least one byte, and no more than a call moves.
pub fn a_read_starts_where_the_input_is()
    ensures { (hart : Hart) (memory : Memory) (input place max : ℕ) → hart_peeked hart memory input ≡ Peek.Read place max
        → (place ≡ input) × ((0 < max) × (max ≤ MAX_CALL_BYTES)) }
{}
