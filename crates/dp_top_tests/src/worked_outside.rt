// Worked examples of the outside's definitions, and what they exclude.
ghost use Rattle.std.specs.Prelude.{◌≡◌, ◌+◌, ◌∷◌, [], Some, None};
ghost use Rattle.dp_base.specs.declared.limits.TheConstants.{MAX_GUEST_BYTES};
ghost use Rattle.dp_base.specs.Counts.{Rose};
ghost use Rattle.disk_model.specs.declared.files.TheConstants.{MAX_FETCH_BYTES};
ghost use Rattle.disk_model.specs.Known.{IsLength, IsWritten};
ghost use Rattle.disk_model.specs.Steps.{IsRead};

// A count has risen, or is at its greatest value.
fn counts()
    ensures rose { Rose 3 4 }
    ensures full { Rose 0xffffffffffffffff 0xffffffffffffffff }
    ensures same { Rose 3 3 → ⊥ }
    ensures fell { Rose 4 3 → ⊥ }
{}

// What is known after a write into three bytes: within, at the end, and nothing past it.
fn writes_to_three()
    ensures within { IsWritten (Some (1 ∷ 2 ∷ 3 ∷ [])) 1 (9 ∷ []) (Some (1 ∷ 9 ∷ 3 ∷ [])) }
    ensures at_end { IsWritten (Some (1 ∷ 2 ∷ 3 ∷ [])) 3 (9 ∷ []) (Some (1 ∷ 2 ∷ 3 ∷ 9 ∷ [])) }
    ensures lost { IsWritten (Some (1 ∷ 2 ∷ 3 ∷ [])) 3 (9 ∷ []) (Some (1 ∷ 2 ∷ 3 ∷ [])) → ⊥ }
    ensures unknown { IsWritten (Some (1 ∷ 2 ∷ 3 ∷ [])) 3 (9 ∷ []) None → ⊥ }
    ensures past { IsWritten (Some (1 ∷ 2 ∷ 3 ∷ [])) 4 (9 ∷ []) None }
    ensures three { IsLength (Some (1 ∷ 2 ∷ 3 ∷ [])) 3 }
    ensures two { IsLength (Some (1 ∷ 2 ∷ 3 ∷ [])) 2 → ⊥ }
{}

// What a read of three bytes gives into a buffer of two.
fn reads_of_three()
    ensures first { IsRead (Some (1 ∷ 2 ∷ 3 ∷ [])) 0 (8 ∷ 9 ∷ []) (1 ∷ 2 ∷ []) 2 }
    ensures last { IsRead (Some (1 ∷ 2 ∷ 3 ∷ [])) 2 (8 ∷ 9 ∷ []) (3 ∷ 9 ∷ []) 1 }
    ensures past { IsRead (Some (1 ∷ 2 ∷ 3 ∷ [])) 5 (8 ∷ 9 ∷ []) (8 ∷ 9 ∷ []) 0 }
    ensures short { IsRead (Some (1 ∷ 2 ∷ 3 ∷ [])) 0 (8 ∷ 9 ∷ []) (1 ∷ 9 ∷ []) 1 → ⊥ }
{}

// How many bytes a fetch returns at most: one more than a guest's file may have.
fn fetches()
    ensures { MAX_FETCH_BYTES ≡ MAX_GUEST_BYTES + 1 }
{}
