// The numbers of a table's pages in rising order. Tables share them, and each gets its own when it maps a page.
ghost use Rattle.std.specs.Prelude.{◌≡◌, ◌++◌, ◌∷◌, [], IfOk, OnErr, OnOk, slice_get};
ghost use Rattle.cow_pages.specs.Tree.{leaf_put};

use crate::root::Root;
use crate::shared_page::SharedPage;
use dp_base::OutOfMemory;
use std::alloc::Global;
use std::marker::Model;
use std::sync::Arc;

#[derive(Drop)]
pub(crate) struct Rising {
    numbers: Vec<u32>,
}

impl Model for Rising {
    ghost use Rattle.std.specs.Prelude.{List, ℕ};

    ghost Value = { List ℕ };

    ghost view = { λ r. r.numbers.items };
}

#[derive(Drop)]
pub(crate) struct Numbers {
    rising: Arc<Rising, Global>,
}

impl Model for Numbers {
    ghost use Rattle.std.specs.Prelude.{List, ℕ};
    ghost use Rattle.std.specs.Arc.{arc_value};

    ghost Value = { List ℕ };

    ghost view = { λ n. arc_value n.rising };
}

impl Rising {
    // These numbers, and one after them.
    fn with(&self, alloc: Global, number: u32) -> Result<Rising, OutOfMemory>
        ensures { IfOk result (λ rising. rising ≡ self.now ++ number ∷ []) }
    {
        let mut numbers = self.numbers.to_vec(alloc)?;
        numbers.push(number)?;
        Ok(Rising { numbers })
    }

    fn put_page(
        &mut self,
        alloc: Global,
        root: &mut Root,
        page: SharedPage,
    ) -> Result<(), OutOfMemory>
        ensures ok_numbers { OnOk result (self.new ≡ self.old ++ page.number ∷ []) }
        ensures ok_root { OnOk result (root.new ≡ leaf_put page root.old) }
        ensures err_numbers { OnErr result (self.new ≡ self.old) }
        ensures err_root { OnErr result (root.new ≡ root.old) }
    {
        put_in(&mut self.numbers, alloc, root, page)
    }
}

fn put_in(
    numbers: &mut Vec<u32>,
    alloc: Global,
    root: &mut Root,
    page: SharedPage,
) -> Result<(), OutOfMemory>
    ensures ok_numbers { OnOk result (numbers.new.items ≡ numbers.old.items ++ page.number ∷ []) }
    ensures ok_root { OnOk result (root.new ≡ leaf_put page root.old) }
    ensures err_numbers { OnErr result (numbers.new.items ≡ numbers.old.items) }
    ensures err_root { OnErr result (root.new ≡ root.old) }
{
    let len = numbers.len();
    numbers.push(page.number())?;
    match root.put(alloc, page) {
        Ok(()) => Ok(()),
        Err(error) => {
            numbers.truncate(len);
            Err(error)
        }
    }
}

fn number_in(numbers: &[u32], place: usize) -> Option<u32>
    ensures { result ≡ slice_get numbers.now place }
{
    let number = numbers.get(place)?;
    Some(*number)
}

impl Numbers {
    pub(crate) fn new(alloc: Global) -> Result<Numbers, OutOfMemory>
        ensures { IfOk result (λ numbers. numbers ≡ []) }
    {
        Numbers::of_rising(
            alloc,
            Rising {
                numbers: Vec::new(alloc),
            },
        )
    }

    fn of_rising(alloc: Global, rising: Rising) -> Result<Numbers, OutOfMemory>
        ensures { IfOk result (λ numbers. numbers ≡ rising) }
    {
        match Arc::new(alloc, rising) {
            Ok(rising) => Ok(Numbers { rising }),
            Err(_) => Err(OutOfMemory),
        }
    }

    // Equal numbers, which are the same in memory.
    pub(crate) fn share(&self) -> Result<Numbers, OutOfMemory>
        ensures { IfOk result (λ numbers. numbers ≡ self.now) }
    {
        let rising = Arc::try_clone(&self.rising)?;
        Ok(Numbers { rising })
    }

    pub(crate) fn at(&self, place: usize) -> Option<u32>
        ensures { result ≡ slice_get self.now place }
    {
        let rising: &Rising = &self.rising;
        number_in(&rising.numbers, place)
    }

    pub(crate) fn as_slice(&self) -> &[u32]
        ensures { result.now ≡ self.now }
    {
        let rising: &Rising = &self.rising;
        &rising.numbers
    }

    // Puts a page into a tree, and its number after all others. An `Err` changes nothing.
    pub(crate) fn put_page(
        &mut self,
        alloc: Global,
        root: &mut Root,
        page: SharedPage,
    ) -> Result<(), OutOfMemory>
        ensures ok_numbers { OnOk result (self.new ≡ self.old ++ page.number ∷ []) }
        ensures ok_root { OnOk result (root.new ≡ leaf_put page root.old) }
        ensures err_numbers { OnErr result (self.new ≡ self.old) }
        ensures err_root { OnErr result (root.new ≡ root.old) }
    {
        match Arc::get_mut(&mut self.rising) {
            Some(rising) => rising.put_page(alloc, root, page),
            None => {
                let shared: &Rising = &self.rising;
                let numbers = Numbers::of_rising(alloc, shared.with(alloc, page.number())?)?;
                root.put(alloc, page)?;
                *self = numbers;
                Ok(())
            }
        }
    }
}
