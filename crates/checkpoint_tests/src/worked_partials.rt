//! What the definitions of partial marks say of values and bytes that stand here in full. The expected sides were
//! written by hand.

ghost use Rattle.std.specs.Prelude.{◌≡◌, ◌∷◌, [], Some, None};
ghost use Rattle.guest_state.specs.declared.end.End.TheVariants as ends;
ghost use Rattle.guest_state.specs.declared.thread.Thread.TheVariants.{Gone};
ghost use Rattle.partial_mark.specs.Base.{content_against, page_against, page_over, pages_over};
ghost use Rattle.partial_mark.specs.Partial.{content_from, partial_bytes, partial_page_bytes, partial_page_from};

// A page whose bytes are the base's, and one with bytes of its own.
fn pages()
    ensures same { partial_page_bytes (record { number = 0x10; flags = 5; content = None }) ≡ 0x10 ∷ 0 ∷ 0 ∷ 0 ∷ 5 ∷ 0 ∷ [] }
    ensures written { partial_page_bytes (record { number = 0x10; flags = 5; content = Some (7 ∷ []) }) ≡ 0x10 ∷ 0 ∷ 0 ∷ 0 ∷ 5 ∷ 1 ∷ 7 ∷ [] }
{}

#[tactic(auto, unfolding(partial_mark::specs::Partial::partial_page_from, partial_mark::specs::Partial::content_from))]
fn pages_read()
    ensures same { partial_page_from (0x10 ∷ 0 ∷ 0 ∷ 0 ∷ 5 ∷ 0 ∷ 9 ∷ []) ≡ Some (record { number = 0x10; flags = 5; content = None }, 9 ∷ []) }
    ensures third_kind { content_from (2 ∷ []) ≡ None }
    ensures eighth_flags { partial_page_from (0x10 ∷ 0 ∷ 0 ∷ 0 ∷ 8 ∷ 0 ∷ []) ≡ None }
{}

// Numbers, an end, one thread and a page.
fn partials()
    ensures { partial_bytes (record { fields = record { steps = 3; input = 2; heap = 0x11000; brk = 0x11001; end = ends.Exit 7 }; threads = Gone 7 ∷ []; pages = record { number = 0x10; flags = 5; content = None } ∷ [] }) ≡ 2 ∷ 3 ∷ 0 ∷ 0 ∷ 0 ∷ 0 ∷ 0 ∷ 0 ∷ 0 ∷ 2 ∷ 0 ∷ 0 ∷ 0 ∷ 0 ∷ 0 ∷ 0 ∷ 0 ∷ 0 ∷ 0x10 ∷ 1 ∷ 0 ∷ 1 ∷ 0x10 ∷ 1 ∷ 0 ∷ 1 ∷ 7 ∷ 0 ∷ 0 ∷ 0 ∷ 1 ∷ 0 ∷ 2 ∷ 7 ∷ 0 ∷ 0 ∷ 0 ∷ 1 ∷ 0 ∷ 0x10 ∷ 0 ∷ 0 ∷ 0 ∷ 5 ∷ 0 ∷ [] }
{}

// A base of one page. Flags are always a mark's own.
#[tactic(auto, unfolding(partial_mark::specs::Base::pages_over))]
fn bases()
    ensures same { page_over (record { number = 2; flags = 4; bytes = 9 ∷ [] } ∷ []) (record { number = 2; flags = 5; content = None }) ≡ Some (record { number = 2; flags = 5; bytes = 9 ∷ [] }) }
    ensures own { page_over (record { number = 2; flags = 4; bytes = 9 ∷ [] } ∷ []) (record { number = 2; flags = 5; content = Some (8 ∷ []) }) ≡ Some (record { number = 2; flags = 5; bytes = 8 ∷ [] }) }
    ensures lacking { page_over (record { number = 2; flags = 4; bytes = 9 ∷ [] } ∷ []) (record { number = 3; flags = 5; content = None }) ≡ None }
    ensures one_lacking { pages_over (record { number = 2; flags = 4; bytes = 9 ∷ [] } ∷ []) (record { number = 2; flags = 5; content = None } ∷ record { number = 3; flags = 5; content = None } ∷ []) ≡ None }
    ensures left_out { page_against (record { number = 2; flags = 4; bytes = 9 ∷ [] } ∷ []) (record { number = 2; flags = 5; bytes = 9 ∷ [] }) ≡ record { number = 2; flags = 5; content = None } }
    ensures changed { page_against (record { number = 2; flags = 4; bytes = 9 ∷ [] } ∷ []) (record { number = 2; flags = 4; bytes = 8 ∷ [] }) ≡ record { number = 2; flags = 4; content = Some (8 ∷ []) } }
    ensures not_there { content_against None (record { number = 2; flags = 4; bytes = 8 ∷ [] }) ≡ Some (8 ∷ []) }
{}
