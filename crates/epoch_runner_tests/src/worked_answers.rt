// Worked examples of the definitions: what each clause says is computed.
ghost use Rattle.std.specs.Prelude.{◌≡◌, ◌∷◌, [], true, false, Some, None};
ghost use Rattle.supply.specs.Supplied.{window_answer, empty, refilled, unfilled};
ghost use Rattle.supply.specs.Windows.{bytes_left};

use supply::MAX_ROOM;

fn limits()
    ensures { MAX_ROOM ≡ 65536 }
{}

// A window of the bytes 7 and 8 at place 5.
fn answers()
    ensures before { window_answer 4 9 (record { window = 7 ∷ 8 ∷ []; place = 5; ended = false; stamp = 0; room = 2 }) ≡ None }
    ensures first { window_answer 5 9 (record { window = 7 ∷ 8 ∷ []; place = 5; ended = false; stamp = 0; room = 2 }) ≡ Some (7 ∷ 8 ∷ []) }
    ensures few { window_answer 5 1 (record { window = 7 ∷ 8 ∷ []; place = 5; ended = false; stamp = 0; room = 2 }) ≡ Some (7 ∷ []) }
    ensures last { window_answer 6 9 (record { window = 7 ∷ 8 ∷ []; place = 5; ended = false; stamp = 0; room = 2 }) ≡ Some (8 ∷ []) }
    ensures nothing { window_answer 6 0 (record { window = 7 ∷ 8 ∷ []; place = 5; ended = false; stamp = 0; room = 2 }) ≡ Some [] }
    ensures behind { window_answer 7 9 (record { window = 7 ∷ 8 ∷ []; place = 5; ended = false; stamp = 0; room = 2 }) ≡ None }
{}

// The end of the input at place 5.
fn ends()
    ensures there { window_answer 5 9 (record { window = []; place = 5; ended = true; stamp = 0; room = 2 }) ≡ Some [] }
    ensures before { window_answer 4 9 (record { window = []; place = 5; ended = true; stamp = 0; room = 2 }) ≡ None }
    ensures behind { window_answer 6 9 (record { window = []; place = 5; ended = true; stamp = 0; room = 2 }) ≡ None }
    ensures not_seen { window_answer 5 9 (record { window = []; place = 5; ended = false; stamp = 0; room = 2 }) ≡ None }
{}

// Refills of an empty window, of one after it, and one that fails.
fn refills()
    ensures first { (refilled (7 ∷ []) (empty 4)).place ≡ 0 }
    ensures next { (refilled (8 ∷ 9 ∷ []) (refilled (7 ∷ []) (empty 4))).place ≡ 1 }
    ensures going { (refilled (7 ∷ []) (empty 4)).ended ≡ false }
    ensures end { (refilled [] (empty 4)).ended ≡ true }
    ensures fault { unfilled (refilled (7 ∷ 8 ∷ []) (empty 4)) ≡ record { window = []; place = 2; ended = false; stamp = 0; room = 4 } }
{}

// All bytes up to an empty piece.
#[tactic(auto, unfolding(supply::specs::Windows::bytes_left))]
fn lefts()
    ensures { bytes_left ((7 ∷ 8 ∷ []) ∷ (9 ∷ []) ∷ [] ∷ (6 ∷ []) ∷ []) ≡ 7 ∷ 8 ∷ 9 ∷ [] }
{}
