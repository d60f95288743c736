// The rule of the words, and what each kind of step says.
ghost use Rattle.shared_words.specs.Rule.{KeepsRule, all_tickets, exchanges, joined_seats, loads_word, new_seat_view, reduced, spent, stores_word, takes_ticket};

use crate::view::View;
use atomic_table::{Join, Play, Split, TableRule};

/// The rule of the words: `specs/Rule.antt`. Its key is the words at the start.
pub struct WordRule;

impl TableRule<(), View, Vec<u64>> for WordRule {
    ghost holds = { λ start. KeepsRule start.items };

    ghost first = { λ _. all_tickets };
}

pub(crate) struct Loads;

impl Play<(), View> for Loads {
    ghost then = { loads_word };
}

pub(crate) struct Stores;

impl Play<(), View> for Stores {
    ghost then = { stores_word };
}

pub(crate) struct Exchanges;

impl Play<(), View> for Exchanges {
    ghost then = { exchanges };
}

pub(crate) struct TakesTicket;

impl Play<(), View> for TakesTicket {
    ghost then = { takes_ticket };
}

pub(crate) struct SplitsBudget;

impl Split<View> for SplitsBudget {
    ghost left = { reduced };

    ghost right = { λ _. new_seat_view };
}

pub(crate) struct JoinsViews;

impl Join<View> for JoinsViews {
    ghost both = { joined_seats };

    ghost spent = { spent };
}
