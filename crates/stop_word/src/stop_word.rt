// The word: its type alone. The steps on it are in another file, since their definitions name the type.
ghost use Rattle.std.specs.Prelude.{◌≡◌};

use crate::rule::{StopRule, View};
use atomic_table::Table;
use std::alloc::Global;

/// A word that is 0 until its stopper stops.
#[derive(Drop)]
pub struct StopWord {
    pub(crate) table: Table<u8, View, (), StopRule, Global>,
    ghost one: { table.shared.table_id.words ≡ 1 },
}
