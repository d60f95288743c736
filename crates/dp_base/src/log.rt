// What was put into a list, in order.
ghost use Rattle.std.specs.Prelude.{◌≡◌, ◌+◌, ◌++◌, [], ◌∷◌, OnOk, OnErr, slice_get, if◌then◌else◌, is_some};
ghost use Rattle.std.specs.Option.{option_copied};

use crate::OutOfMemory;
use std::alloc::Global;
use std::marker::Model;

/// What was put into it, in order.
#[derive(Debug, Drop)]
pub struct Log<T> {
    items: Vec<T>,
}

impl<T> Model for Log<T> {
    ghost use Rattle.std.specs.Prelude.{List};
    ghost use Rattle.std.specs.Coded.{coded_list};

    ghost Value = { List T };

    ghost coded = { coded_list T.code };

    ghost view = { λ log. log.items.items };
}

impl<T: Drop> Log<T> {
    /// Makes an empty log.
    pub fn new(alloc: Global) -> Self
        ensures { result ≡ [] }
    {
        Log {
            items: Vec::new(alloc),
        }
    }

    /// Makes a log of the items of a `Vec`, in their order. Takes no memory.
    pub fn from_vec(items: Vec<T>) -> Self
        ensures { result ≡ items.items }
    {
        Log { items }
    }

    /// Appends one item. An `Err` changes nothing.
    pub fn put(&mut self, item: T) -> Result<(), OutOfMemory>
        ensures ok { OnOk result (self.new ≡ self.old ++ item ∷ []) }
        ensures err { OnErr result (self.new ≡ self.old) }
    {
        self.items.push(item)?;
        Ok(())
    }

    /// Returns the item at `at`, and moves `at` on by one. Returns `None` exactly if there is none; `at` then stays.
    pub fn next(&self, at: &mut usize) -> Option<&T>
        ensures item { option_copied result ≡ slice_get self.now at.old }
        ensures place { at.new ≡ at.old + (if is_some result then 1 else 0) }
    {
        let item = self.items.get(*at)?;
        *at += 1;
        Some(item)
    }

    /// Returns the items, first to last.
    pub fn as_slice(&self) -> &[T]
        ensures { result.now ≡ self.now }
    {
        &self.items
    }

    /// Returns the items as the `Vec` that holds them. Takes no memory.
    pub fn into_vec(self) -> Vec<T>
        ensures { result.items ≡ self }
    {
        self.items
    }
}
