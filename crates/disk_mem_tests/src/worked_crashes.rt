// Worked examples of what a crash may leave, and of what holds at every moment.
ghost use Rattle.std.specs.Prelude.{◌≡◌, ◌∷◌, [], List, ℕ, take};
ghost use Rattle.disk_model.specs.declared.world.Stream.TheVariants.{Out};
ghost use Rattle.disk_model.specs.History.{History, IsImage, MayLeave, nothing_pending, write_pending};
ghost use Rattle.disk_model.specs.Moments.{Always};
ghost use Rattle.disk_model.specs.Steps.{emitted};

// Nothing is pending on a disk of two bytes.
fn images_of_a_disk_at_rest()
    ensures as_it_is { IsImage (nothing_pending (1 ∷ 2 ∷ [])) (1 ∷ 2 ∷ []) }
    ensures another { IsImage (nothing_pending (1 ∷ 2 ∷ [])) (1 ∷ 9 ∷ []) → ⊥ }
    ensures shorter { IsImage (nothing_pending (1 ∷ 2 ∷ [])) (1 ∷ []) → ⊥ }
    ensures longer { IsImage (nothing_pending (1 ∷ 2 ∷ [])) (1 ∷ 2 ∷ 0 ∷ []) → ⊥ }
{}

// A write of one byte is pending: over the second of two, and after both.
fn images_of_a_pending_write()
    ensures any_byte { IsImage (write_pending 1 1 (nothing_pending (1 ∷ 2 ∷ []))) (1 ∷ 9 ∷ []) }
    ensures another_place { IsImage (write_pending 1 1 (nothing_pending (1 ∷ 2 ∷ []))) (9 ∷ 2 ∷ []) → ⊥ }
    ensures no_byte { IsImage (write_pending 1 1 (nothing_pending (1 ∷ 2 ∷ []))) (1 ∷ 256 ∷ []) → ⊥ }
    ensures behind { IsImage (write_pending 2 1 (nothing_pending (1 ∷ 2 ∷ []))) (1 ∷ 2 ∷ 9 ∷ []) }
    ensures not_there { IsImage (write_pending 2 1 (nothing_pending (1 ∷ 2 ∷ []))) (1 ∷ 2 ∷ []) }
    ensures too_long { IsImage (write_pending 2 1 (nothing_pending (1 ∷ 2 ∷ []))) (1 ∷ 2 ∷ 9 ∷ 9 ∷ []) → ⊥ }
{}

// While a piece of two bytes is sent, after another byte.
fn pieces()
    ensures none { MayLeave (record { pending = nothing_pending (1 ∷ []); sent = 7 ∷ []; piece = 8 ∷ 9 ∷ [] }) (1 ∷ []) (7 ∷ []) }
    ensures first { MayLeave (record { pending = nothing_pending (1 ∷ []); sent = 7 ∷ []; piece = 8 ∷ 9 ∷ [] }) (1 ∷ []) (7 ∷ 8 ∷ []) }
    ensures both { MayLeave (record { pending = nothing_pending (1 ∷ []); sent = 7 ∷ []; piece = 8 ∷ 9 ∷ [] }) (1 ∷ []) (7 ∷ 8 ∷ 9 ∷ []) }
    ensures second_alone { MayLeave (record { pending = nothing_pending (1 ∷ []); sent = 7 ∷ []; piece = 8 ∷ 9 ∷ [] }) (1 ∷ []) (7 ∷ 9 ∷ []) → ⊥ }
    ensures lost { MayLeave (record { pending = nothing_pending (1 ∷ []); sent = 7 ∷ []; piece = 8 ∷ 9 ∷ [] }) (1 ∷ []) [] → ⊥ }
    ensures another_disk { MayLeave (record { pending = nothing_pending (1 ∷ []); sent = 7 ∷ []; piece = 8 ∷ 9 ∷ [] }) (2 ∷ []) (7 ∷ []) → ⊥ }
{}

// An emit of two bytes that took one: both may have been sent while it ran.
fn moments_of_an_emit()
    ensures at_most_both { (h : History) → h.sent ≡ [] →
        Always (λ image sent. (n : ℕ) × (sent ≡ take n (8 ∷ 9 ∷ []))) h (emitted Out (8 ∷ 9 ∷ []) 1 h) }
    ensures nothing_sent { (h : History) (image : List ℕ) → IsImage h.pending image →
        Always (λ image sent. sent ≡ h.sent) h (emitted Out (8 ∷ 9 ∷ []) 1 h) → ⊥ }
    ensures one_sent { (h : History) (image : List ℕ) → h.sent ≡ [] → IsImage h.pending image →
        Always (λ image sent. sent ≡ 8 ∷ []) h (emitted Out (8 ∷ 9 ∷ []) 1 h) → ⊥ }
{}
