//! What follows from the schedule's definitions alone. A call of such a function costs nothing, and hands the law to
//! the caller's proof.

ghost use Rattle.std.specs.Prelude.{◌≡◌, ◌⊎◌, ◌<◌, ◌≤◌, ◌+◌, ℕ, Bool, false, true, List, [], Ok, length, Option, Some, None, if◌then◌else◌};
ghost use Rattle.std.specs.List.{list_any};
ghost use Rattle.dp_base.specs.declared.limits.TheConstants.{EPOCH_END_BYTES, MAX_CALL_BYTES};
ghost use Rattle.dp_base.specs.declared.tid.Tid.{Tid};
ghost use Rattle.dp_base.specs.Journal.{Epoch, steps_of};
ghost use Rattle.guest_kernel.specs.Answers.{bytes_read};
ghost use Rattle.guest_kernel.specs.declared.state.State.{State};
ghost use Rattle.guest_kernel.specs.Slices.{new_after, run};
ghost use Rattle.guest_kernel.specs.State.{has_ended};
ghost use Rattle.guest_kernel.specs.Threads.{is_running};
ghost use Rattle.epoch_runner.specs.Answering.{can_step, input_due, ready_at};
ghost use Rattle.epoch_runner.specs.declared.bounds.Bounds.{Bounds};
ghost use Rattle.epoch_runner.specs.Hinted.{Following, any_left, lefts};
ghost use Rattle.epoch_runner.specs.Schedule.{Course, IsScheduled, IsUsedUp, EpochProgress, by_last, course, ends, ends_epoch, next_step, starting, turn_of};
ghost use Rattle.epoch_runner.specs.Supplying.{IsSuppliedBy, IsSuppliedRun};
ghost use Rattle.sync_hints.specs.declared.hints.Hints.{Hints};
ghost use Rattle.supply.specs.Supplied.{IsSupply, Supplied, end_of, refilled};

use crate::kernel_laws::{run_laws, turn_laws};

/// A state, hints, a supply and bounds determine the epoch: its slices, its answers, its output and its end.
pub fn a_schedule_is_determined()
    ensures { (start : State) (hints : Hints) (w : Supplied) (bounds : Bounds) (e f : Epoch) (output other : List ℕ) (end otherwise : State) →
        IsScheduled start hints w bounds e output end → IsScheduled start hints w bounds f other otherwise →
        (e ≡ f) × (output ≡ other) × (end ≡ otherwise) }
{}

/// A run by the schedule is the run of its slices, which uses its answers up.
pub fn a_scheduled_run_is_a_run()
    ensures { (start : State) (hints : Hints) (w : Supplied) (bounds : Bounds) (e : Epoch) (output : List ℕ) (end : State) →
        IsScheduled start hints w bounds e output end → run e.slices (new_after start [] e.answers) ≡ Ok (new_after end output []) }
{
    turn_laws();
    run_laws();
    turn_peek::laws::a_reservation_asks_for_nothing();
}

/// The thread whose turn is next can step, and the guest hasn't ended.
pub fn the_next_thread_can_step()
    ensures { (s : State) (w : Supplied) (bounds : Bounds) (p : EpochProgress) (tid : Tid) (begins : Bool) (left : Option Following) →
        next_step s w bounds p ≡ turn_of tid begins left → (has_ended s.end ≡ false) × (ready_at s w tid ≡ true) }
{}

/// Without hints an epoch goes by round robin alone: the hints are none at each turn, and the turn that is next is
/// named by the thread that ran last. It doesn't depend on the order of hints that have no steps.
pub fn without_hints_an_epoch_goes_by_round_robin()
    ensures none { (start : State) (hints : Hints) (w : Supplied) (bounds : Bounds) (turns : ℕ) (c : Course) → any_left (lefts hints.counts) ≡ false →
        course turns w bounds (starting start hints) ≡ Some c → c.hints ≡ None }
    ensures next { (s : State) (w : Supplied) (bounds : Bounds) (p : EpochProgress) → p.hints ≡ None →
        next_step s w bounds p ≡ (if ends_epoch s w bounds p then ends else by_last s w bounds p p.last) }
    ensures same { (start : State) (hints other : Hints) (w : Supplied) (bounds : Bounds) (e : Epoch) (output : List ℕ) (end : State) →
        any_left (lefts hints.counts) ≡ false → any_left (lefts other.counts) ≡ false →
        IsScheduled start hints w bounds e output end → IsScheduled start other w bounds e output end }
{
    turn_laws();
    run_laws();
    turn_peek::laws::a_reservation_asks_for_nothing();
}

/// An epoch ends if no thread can step, if it has as many steps as it may, if it has written or read 65,536 bytes, or
/// if it follows hints and no thread has steps left by them. It never has more steps, and never writes or reads 69,632
/// bytes.
pub fn an_epoch_ends_by_a_rule()
    ensures stops { (start : State) (hints : Hints) (w : Supplied) (bounds : Bounds) (e : Epoch) (output : List ℕ) (end : State) →
        (is : IsScheduled start hints w bounds e output end) →
        (can_step is.last.state w ≡ false) ⊎ ((is.turns ≡ bounds.steps)
        ⊎ ((EPOCH_END_BYTES ≤ length output) ⊎ ((EPOCH_END_BYTES ≤ length (bytes_read e.answers)) ⊎ IsUsedUp is.last.hints))) }
    ensures few { (start : State) (hints : Hints) (w : Supplied) (bounds : Bounds) (e : Epoch) (output : List ℕ) (end : State) →
        IsScheduled start hints w bounds e output end → steps_of e.slices ≤ bounds.steps }
    ensures writes { (start : State) (hints : Hints) (w : Supplied) (bounds : Bounds) (e : Epoch) (output : List ℕ) (end : State) →
        IsScheduled start hints w bounds e output end → length output < EPOCH_END_BYTES + MAX_CALL_BYTES }
    ensures reads { (start : State) (hints : Hints) (w : Supplied) (bounds : Bounds) (e : Epoch) (output : List ℕ) (end : State) →
        IsScheduled start hints w bounds e output end → length (bytes_read e.answers) < EPOCH_END_BYTES + MAX_CALL_BYTES }
{
    turn_laws();
    run_laws();
    turn_peek::laws::a_reservation_asks_for_nothing();
}

/// Each turn of an epoch takes its answer from the supply. A read takes the window's bytes from the state's place on,
/// as many as there are and at most as many as it asks for, and none only at the end of the input. A clock call takes
/// the stamp.
pub fn each_turn_is_supplied()
    ensures { (start : State) (hints : Hints) (w : Supplied) (bounds : Bounds) (e : Epoch) (output : List ℕ) (end : State) →
        IsScheduled start hints w bounds e output end → w.place ≤ start.input → IsSuppliedRun start w e.slices e.answers }
{
    turn_laws();
    run_laws();
    turn_peek::laws::a_reservation_asks_for_nothing();
    turn_peek::laws::a_read_starts_where_the_input_is();
}

/// The answers that an epoch takes are the supply's: its reads take the bytes of the window from the state's place on,
/// one after another; one that takes none is at the end of the input; and each reading of the clock is the stamp.
pub fn an_epoch_is_supplied()
    ensures { (start : State) (hints : Hints) (w : Supplied) (bounds : Bounds) (e : Epoch) (output : List ℕ) (end : State) →
        IsScheduled start hints w bounds e output end → w.place ≤ start.input → start.input ≤ end_of w →
        IsSuppliedBy w start.input end.input e.answers }
{
    turn_laws();
    turn_peek::laws::a_reservation_asks_for_nothing();
    turn_peek::laws::a_read_starts_where_the_input_is();
}

/// While a thread of a guest runs, it can step or waits for input. If input is due, the supply has no more of it and
/// hasn't reached its end, and once it is refilled the guest can step.
pub fn a_supply_lets_a_guest_step()
    ensures ready { (s : State) (w : Supplied) → has_ended s.end ≡ false → list_any is_running s.threads ≡ true →
        input_due s w ≡ false → can_step s w ≡ true }
    ensures used_up { (s : State) (w : Supplied) → IsSupply w → w.place ≤ s.input → s.input ≤ end_of w →
        input_due s w ≡ true → (s.input ≡ end_of w) × (w.ended ≡ false) }
    ensures refilled { (s : State) (w : Supplied) (bytes : List ℕ) (stamp : ℕ) → w.place ≤ s.input → s.input ≤ end_of w →
        input_due s w ≡ true → can_step s (record (refilled bytes w) { stamp = stamp }) ≡ true }
    ensures stamped { (s : State) (w : Supplied) (stamp : ℕ) → can_step s (record w { stamp = stamp }) ≡ can_step s w }
{
    turn_peek::laws::a_read_starts_where_the_input_is();
}
