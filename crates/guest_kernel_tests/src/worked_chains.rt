//! What the definition of a chain says of no epoch, of two, and of two of which one doesn't run.

ghost use Rattle.std.specs.Prelude.{◌≡◌, ◌++◌, [], ◌∷◌, Ok, Err};
ghost use Rattle.dp_base.specs.Journal.{Epoch};
ghost use Rattle.guest_kernel.specs.declared.state.State.{State};
ghost use Rattle.guest_kernel.specs.Call.{After};
ghost use Rattle.guest_kernel.specs.Slices.{Stop, new_after, run, chain};

#[tactic(auto, unfolding(guest_kernel::specs::Slices::chain))]
fn no_epoch()
    ensures { (s : State) → chain s [] ≡ Ok (s, []) }
{}

#[tactic(auto, unfolding(guest_kernel::specs::Slices::chain))]
fn two_epochs()
    // The second goes on from where the first ended, and the outputs are joined.
    ensures both { (s : State) (e f : Epoch) (mid end : After) →
        run e.slices (new_after s [] e.answers) ≡ Ok mid → run f.slices (new_after mid.state [] f.answers) ≡ Ok end →
        chain s (e ∷ f ∷ []) ≡ Ok (end.state, mid.output ++ (end.output ++ [])) }
    // The first that doesn't run is named by how many ran before it.
    ensures first { (s : State) (e f : Epoch) (stop : Stop) (here : After) →
        run e.slices (new_after s [] e.answers) ≡ Err (stop, here) → chain s (e ∷ f ∷ []) ≡ Err 0 }
    ensures second { (s : State) (e f : Epoch) (mid : After) (stop : Stop) (here : After) →
        run e.slices (new_after s [] e.answers) ≡ Ok mid → run f.slices (new_after mid.state [] f.answers) ≡ Err (stop, here) →
        chain s (e ∷ f ∷ []) ≡ Err 1 }
{}
