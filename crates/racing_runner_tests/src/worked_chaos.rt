// Worked examples of the definitions: what each clause says is computed.
ghost use Rattle.std.specs.Prelude.{◌≡◌, ◌∷◌, [], None};
ghost use Rattle.guest_state.specs.declared.end.End.TheVariants as ends;
ghost use Rattle.guest_state.specs.declared.thread.Thread.TheVariants.{Gone, Runs, Waits};
ghost use Rattle.racing_runner.specs.Chaos.{flipped, hart_flipped, spoilt_place};

// The offer that is spoilt, by the racer's number.
fn places()
    ensures first { spoilt_place 0 ≡ 1 }
    ensures still_first { spoilt_place 3 ≡ 1 }
    ensures second { spoilt_place 4 ≡ 2 }
    ensures last { spoilt_place 28 ≡ 8 }
    ensures still_last { spoilt_place 31 ≡ 8 }
    ensures again { spoilt_place 32 ≡ 1 }
{}

// Bit 0 of x5, which is the fifth register that is kept.
fn registers()
    ensures set { hart_flipped (record { pc = 4; x = 1 ∷ 2 ∷ 3 ∷ 4 ∷ 6 ∷ 6 ∷ []; held = None }) ≡ record { pc = 4; x = 1 ∷ 2 ∷ 3 ∷ 4 ∷ 7 ∷ 6 ∷ []; held = None } }
    ensures cleared { hart_flipped (record { pc = 4; x = 1 ∷ 2 ∷ 3 ∷ 4 ∷ 7 ∷ 6 ∷ []; held = None }) ≡ record { pc = 4; x = 1 ∷ 2 ∷ 3 ∷ 4 ∷ 6 ∷ 6 ∷ []; held = None } }
{}

// The lowest thread that runs or waits; none if all have exited.
fn threads()
    ensures waits { flipped (record { pages = []; heap = 0; brk = 0; threads = Gone 1 ∷ Waits 8 (record { pc = 4; x = 0 ∷ 0 ∷ 0 ∷ 0 ∷ 0 ∷ []; held = None }) 0 ∷ Runs (record { pc = 4; x = []; held = None }) 0 ∷ []; input = 0; steps = 0; end = ends.None }) ≡ record { pages = []; heap = 0; brk = 0; threads = Gone 1 ∷ Waits 8 (record { pc = 4; x = 0 ∷ 0 ∷ 0 ∷ 0 ∷ 1 ∷ []; held = None }) 0 ∷ Runs (record { pc = 4; x = []; held = None }) 0 ∷ []; input = 0; steps = 0; end = ends.None } }
    ensures gone { flipped (record { pages = []; heap = 0; brk = 0; threads = Gone 1 ∷ []; input = 0; steps = 0; end = ends.Exit 1 }) ≡ record { pages = []; heap = 0; brk = 0; threads = Gone 1 ∷ []; input = 0; steps = 0; end = ends.Exit 1 } }
{}
