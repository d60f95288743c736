// Whether the AMOs of a word are in turn: each finds what the one before it stored.
ghost use Rattle.std.specs.Prelude.{◌≡◌, ◌==◌, IfOk, map, true};
ghost use Rattle.std.specs.List.Sorted.{IsStrictlyIncreasing};
ghost use Rattle.amo_order.specs.Places.{IsDisordered, IsInTurn, IsOrder, each_finds, placed_of};

use crate::amo::Placed;
use dp_base::OutOfMemory;
use std::alloc::Global;

// Whether an AMO of a word doesn't find what the one before it stored.
pub(crate) fn is_disordered(
    alloc: Global,
    placed: &[Placed],
    word: u32,
) -> Result<bool, OutOfMemory>
    ensures { IfOk result (λ is. is ≡ true → IsDisordered word placed.now) }
{
    let order = by_place(alloc, placed, word)?;
    Ok(!each_finds(&order))
}

// Whether the AMOs of a word are at different places, and each finds what the one before it stored.
pub(crate) fn is_in_turn(alloc: Global, placed: &[Placed], word: u32) -> Result<bool, OutOfMemory>
    ensures { IfOk result (λ is. is ≡ true → IsInTurn word placed.now) }
{
    let order = by_place(alloc, placed, word)?;
    Ok(is_rising(&order) && each_finds(&order))
}

// The AMOs of a word by place.
fn by_place(alloc: Global, placed: &[Placed], word: u32) -> Result<Vec<Placed>, OutOfMemory>
    ensures { IfOk result (λ order. IsOrder word placed.now order.items) }
{
    let mut order = of_word(alloc, placed, word)?;
    order.sort_by_key(|placed| placed.place)?;
    Ok(order)
}

fn of_word(alloc: Global, placed: &[Placed], word: u32) -> Result<Vec<Placed>, OutOfMemory>
    ensures { IfOk result (λ of. of.items ≡ placed_of word placed.now) }
{
    let mut of_word = Vec::new(alloc);
    for one in placed {
        if one.amo.address == word {
            of_word.push(*one)?;
        }
    }
    Ok(of_word)
}

// Whether each AMO finds what the one before it stored.
fn each_finds(order: &[Placed]) -> bool
    ensures { result ≡ each_finds order.now }
{
    for index in 1..order.len() {
        if order[index - 1].amo.stored != order[index].amo.found {
            return false;
        }
    }
    true
}

// Whether each place is above the one before it.
fn is_rising(order: &[Placed]) -> bool
    ensures { result ≡ true → IsStrictlyIncreasing (map (λ p. p.place) order.now) }
{
    for index in 1..order.len() {
        if order[index].place <= order[index - 1].place {
            return false;
        }
    }
    true
}
