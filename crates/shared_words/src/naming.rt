// Which words are meant, for types that have to agree on it.
use std::marker::Brand;

/// Names the words of one guest. A function that makes them picks the name.
pub trait Naming {
    ghost use Rattle.atomic_table.specs.Seated.{TableId};

    ghost table: { TableId };
}

impl Naming for Brand {
    ghost use Rattle.shared_words.specs.NoTable.{no_table};

    ghost table = { no_table };
}
