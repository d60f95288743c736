//! What follows from the definitions alone. Each function's contract is a law over all inputs and windows; a call of it
//! costs nothing and hands the law to the caller's proof.

ghost use Rattle.std.specs.Prelude.{◌≡◌, ◌<◌, ◌≤◌, ◌⊎◌, ◌↔◌, ◌-◌, ◌++◌, ℕ, List, [], true, false, Some, None, length, take, drop};
ghost use Rattle.std.specs.List.{concat};
ghost use Rattle.disk_model.specs.Input.{Input, is_at_end, taken, took};
ghost use Rattle.supply.specs.Supplied.{Supplied, HasByte, IsInputEnd, IsLastOf, window_answer, empty, refilled, unfilled};
ghost use Rattle.supply.specs.Windows.{input_after_takes, bytes_left, windows};

/// The windows that takes give, one after another and joined, are what the input gave. With what is left after them
/// they are what was left before, however it is cut into pieces. So windows up to the end are all of it. A take into a
/// buffer that isn't empty gives no byte exactly at the end.
pub fn the_windows_are_the_input()
    ensures given { (room count : ℕ) (i : Input) →
        (input_after_takes room count i).given ≡ i.given ++ concat (windows room count i) }
    ensures left { (room count : ℕ) (i : Input) →
        concat (windows room count i) ++ bytes_left (input_after_takes room count i).left ≡ bytes_left i.left }
    ensures whole { (room count : ℕ) (i : Input) → is_at_end (input_after_takes room count i).left ≡ true →
        concat (windows room count i) ≡ bytes_left i.left }
    ensures end { (room : ℕ) (left : List (List ℕ)) → 0 < room → (length (taken room left) ≡ 0) ↔ (is_at_end left ≡ true) }
    ensures seen { (room : ℕ) (i : Input) → 0 < room → i.ended ≡ false →
        ((took room i).ended ≡ true) ↔ (length (taken room i.left) ≡ 0) }
{}

/// An answer is known exactly at a byte of the window, or at the end. It is empty exactly at the end, or if no byte was
/// asked for. It has at most as many bytes as were asked for.
pub fn an_answer_is_of_the_window()
    ensures bytes { (place max : ℕ) (s : Supplied) → HasByte s place →
        window_answer place max s ≡ Some (take max (drop (place - s.place) s.window)) }
    ensures none { (place max : ℕ) (s : Supplied) →
        (window_answer place max s ≡ None) ↔ ((¬ HasByte s place) × (¬ IsInputEnd s place)) }
    ensures empty { (place max : ℕ) (s : Supplied) →
        (window_answer place max s ≡ Some []) ↔ (IsInputEnd s place ⊎ (HasByte s place × (max ≡ 0))) }
    ensures few { (place max : ℕ) (s : Supplied) (bytes : List ℕ) →
        window_answer place max s ≡ Some bytes → length bytes ≤ max }
{}

/// The window is always the last of the bytes that the input gave, so an answer is what the input has at that place: as
/// many of its bytes as are known, and none at its end.
pub fn an_answer_is_of_the_input()
    ensures start { (room : ℕ) → IsLastOf (empty room) [] }
    ensures refill { (s : Supplied) (given bytes : List ℕ) →
        IsLastOf s given → IsLastOf (refilled bytes s) (given ++ bytes) }
    ensures fault { (s : Supplied) (given : List ℕ) → IsLastOf s given → IsLastOf (unfilled s) given }
    ensures bytes { (place max : ℕ) (s : Supplied) (given : List ℕ) → IsLastOf s given → HasByte s place →
        window_answer place max s ≡ Some (take max (drop place given)) }
    ensures end { (place : ℕ) (s : Supplied) (given : List ℕ) → IsLastOf s given → IsInputEnd s place →
        place ≡ length given }
{}
