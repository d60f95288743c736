// The order of the AMOs of a pass.
//
// An AMO takes its ticket between its load and its exchange. If others change the word meanwhile and then store again
// what the load found, the exchange succeeds, but the ticket is too small. Then, in the order of tickets, some AMO of
// that word doesn't find what the one before it stored. So an order is sought in which each does. In it an AMO may be
// anywhere between its own ticket and the next one of its thread.
ghost use Rattle.std.specs.Prelude.{◌≡◌, ◌⊎◌, ℕ, IfOk, OnOk, All, map};
ghost use Rattle.amo_order.specs.Places.{IsBetween, IsDisordered, IsInTurn, KeepsOrder, at_tickets, placed_of};
ghost use Rattle.amo_order.specs.Replacing.{IsStep, Replaces};

use crate::amo::{Amo, Placed};
use crate::disordered_words::disordered_words;
use crate::search::places_of;
use crate::turn_check::{is_disordered, is_in_turn};
use dp_base::OutOfMemory;
use std::alloc::Global;

/// Returns the AMOs of a pass with their places, in the order in which they are given.
///
/// A place is the AMO's ticket, or is between that and the next ticket of its thread. If by their tickets one of a
/// word's AMOs doesn't find what the one before it stored, an order is sought in which each does, and they get places
/// in that order. If none is found, or they are in turn by their tickets, they keep these.
///
/// # Errors
///
/// Returns `OutOfMemory` if memory runs out.
pub fn order_amos(alloc: Global, amos: &[Amo]) -> Result<Vec<Placed>, OutOfMemory>
    ensures each_once { IfOk result (λ placed. map (λ p. p.amo) placed.items ≡ amos.now) }
    ensures between { IfOk result (λ placed. All IsBetween placed.items) }
    ensures threads { IfOk result (λ placed. KeepsOrder placed.items) }
    ensures words { IfOk result (λ placed. (word : ℕ) →
        (placed_of word placed.items ≡ placed_of word (at_tickets amos.now))
        ⊎ (IsDisordered word (at_tickets amos.now) × IsInTurn word placed.items)) }
{
    let mut placed = start_of(alloc, amos)?;
    let words = disordered_words(alloc, amos)?;
    for word in &words {
        order_word(alloc, amos, &mut placed, *word)?;
    }
    Ok(placed)
}

// The AMOs at their tickets.
fn start_of(alloc: Global, amos: &[Amo]) -> Result<Vec<Placed>, OutOfMemory>
    ensures { IfOk result (λ placed. placed.items ≡ at_tickets amos.now) }
{
    let mut placed = Vec::new(alloc);
    for amo in amos {
        placed.push(Placed {
            amo: *amo,
            place: amo.ticket,
        })?;
    }
    Ok(placed)
}

// Puts the AMOs of a word in order, if they aren't in turn by their tickets and an order is found.
fn order_word(
    alloc: Global,
    amos: &[Amo],
    placed: &mut Vec<Placed>,
    word: u32,
) -> Result<(), OutOfMemory>
    ensures { OnOk result (IsStep word (at_tickets amos.now) placed.old.items placed.new.items) }
{
    if !is_disordered(alloc, &start_of(alloc, amos)?, word)? {
        return Ok(());
    }
    let Some(places) = places_of(alloc, amos, word)? else {
        return Ok(());
    };
    let mut candidate = placed.to_vec(alloc)?;
    put_places(&mut candidate, word, &places);
    if !is_in_turn(alloc, &candidate, word)? {
        return Ok(());
    }
    *placed = candidate;
    Ok(())
}

// Gives AMOs of a word other places: each an index and a place.
fn put_places(placed: &mut [Placed], word: u32, places: &[(usize, u64)])
    ensures { Replaces word placed.old placed.new }
{
    for place in places {
        put_place(placed, word, place.0, place.1);
    }
}

// Gives an AMO of a word another place, if that is between its ticket and the next one of its thread.
fn put_place(placed: &mut [Placed], word: u32, index: usize, place: u64)
    ensures { Replaces word placed.old placed.new }
{
    if index < placed.len() {
        let amo = placed[index].amo;
        if amo.address == word && amo.ticket <= place && place < amo.next {
            placed[index] = Placed { amo, place };
        }
    }
}
