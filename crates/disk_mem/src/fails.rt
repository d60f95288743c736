// Which calls in memory fail.
ghost use Rattle.std.specs.Prelude.{◌≡◌, ◌==◌};
ghost use Rattle.std.specs.List.{list_any};
ghost use Rattle.disk_mem.specs.Fails.{fails_at};

use std::marker::Model;

/// Numbers of calls, which clauses see as a list. The first call has the number 1.
#[derive(Debug, Drop)]
pub struct CallNumbers {
    numbers: Vec<u64>,
}

impl Model for CallNumbers {
    ghost use Rattle.std.specs.Prelude.{List, ℕ};

    ghost Value = { List ℕ };

    ghost view = { λ c. c.numbers.items };
}

impl CallNumbers {
    /// Makes them from a `Vec`, with no copy.
    pub fn from_vec(numbers: Vec<u64>) -> Self
        ensures { result ≡ numbers.items }
    {
        CallNumbers { numbers }
    }

    /// Returns the `Vec`, with no copy.
    pub fn into_vec(self) -> Vec<u64>
        ensures { result.items ≡ self }
    {
        self.numbers
    }

    /// Returns `true` if the number is among them.
    pub fn contains(&self, number: u64) -> bool
        ensures { result ≡ list_any (λ n. n == number) self.now }
    {
        self.numbers.contains(&number)
    }
}

/// Which calls fail, by their number. The first call has the number 1.
#[derive(Debug, Drop)]
pub enum Fails {
    /// None.
    Never,
    /// Those with these numbers.
    At(CallNumbers),
    /// The one with this number, and each after it.
    From(u64),
}

impl Fails {
    /// Returns `true` if the call with this number fails.
    pub fn fails_at(&self, number: u64) -> bool
        ensures { result ≡ fails_at self.now number }
    {
        match self {
            Fails::Never => false,
            Fails::At(numbers) => numbers.contains(number),
            Fails::From(first) => *first <= number,
        }
    }
}
