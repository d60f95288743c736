// The pages in hand: those that a table last stored to. They are taken out of its tree, so that an access finds them at
// once, and a store to them walks no tree. Each is at an entry by its number, and goes back into the tree if a store to
// another page needs the entry.
ghost use Rattle.std.specs.Prelude.{◌≡◌, ◌+◌, ◌<◌, ◌≤◌, ℕ, IfOk, IfSome, None, OnErr, OnOk, is_some, length, replicate, slice_set};
ghost use Rattle.std.specs.Option.{option_copied, option_map};
ghost use Rattle.byteorder.specs.Endian.{little_bytes};
ghost use Rattle.dp_base.specs.Memory.{width_bytes};
ghost use Rattle.cow_pages.specs.InPage.{is_writable, with_bytes, written};
ghost use Rattle.cow_pages.specs.Table.{IsAside, changed_if, hand_entry, found, found_changed, held, held_changed, if_numbered};
ghost use Rattle.cow_pages.specs.Tree.{entry_at, leaf, leaf_put, leaf_without};

use crate::level_entries::grow;
use crate::node::shared;
use crate::root::Root;
use crate::shared_page::SharedPage;
use dp_base::{OutOfMemory, Width};
use std::alloc::Global;
use std::marker::Model;

// How many pages may be in hand.
const ENTRIES: usize = 128;

#[derive(Drop)]
pub(crate) struct Hand {
    entries: Vec<Option<SharedPage>>,
}

impl Model for Hand {
    ghost use Rattle.std.specs.Prelude.{List, Option};
    ghost use Rattle.dp_base.specs.declared.page.Page.{Page};

    ghost Value = { List (Option Page) };

    ghost use Rattle.cow_pages.specs.Table.{IsHand};

    ghost view = { λ h. h.entries.items };

    ghost invariant = { λ h. IsHand h.entries.items };
}

// The entry of a page, by its number. The high bits are mixed in, so that a heap and a stack have entries of their own.
#[inline(always)]
fn hand_entry(number: u32) -> usize
    ensures entry { result ≡ hand_entry number }
    ensures inside { result < ENTRIES }
{
    let number = number as usize;
    (number + number / 1024) % ENTRIES
}

// Writes to the page of an entry, if it has the number and may be written. Returns whether it does and may. An `Err`
// changes nothing.
#[inline(always)]
fn write_entry(
    entry: &mut Option<SharedPage>,
    alloc: Global,
    number: u32,
    offset: usize,
    width: Width,
    value: u32,
) -> Result<bool, OutOfMemory>
    requires { offset + width_bytes width ≤ 4096 }
    ensures answer { IfOk result (λ done. done ≡ is_writable (if_numbered number entry.old)) }
    ensures ok { OnOk result (entry.new ≡ option_map (changed_if number (written offset (little_bytes (width_bytes width) value))) entry.old) }
    ensures err { OnErr result (entry.new ≡ entry.old) }
{
    match entry {
        Some(page) => {
            if page.number() != number {
                return Ok(false);
            }
            page.write(alloc, offset, width, value)
        }
        None => Ok(false),
    }
}

fn put_part_entry(
    entry: &mut Option<SharedPage>,
    alloc: Global,
    number: u32,
    offset: usize,
    part: &[u8],
) -> Result<(), OutOfMemory>
    requires { offset + length part.now ≤ 4096 }
    ensures ok { OnOk result (entry.new ≡ option_map (changed_if number (with_bytes offset part.now)) entry.old) }
    ensures err { OnErr result (entry.new ≡ entry.old) }
{
    match entry {
        Some(page) => {
            if page.number() != number {
                return Ok(());
            }
            page.put_part(alloc, offset, part)
        }
        None => Ok(()),
    }
}

impl Hand {
    // No pages.
    pub(crate) fn new(alloc: Global) -> Result<Hand, OutOfMemory>
        ensures { IfOk result (λ hand. hand ≡ replicate ENTRIES None) }
    {
        let mut entries = Vec::with_capacity(alloc, ENTRIES)?;
        grow(&mut entries, ENTRIES)?;
        Ok(Hand { entries })
    }

    // Equal pages, which have the same bytes in memory.
    pub(crate) fn share(&self, alloc: Global) -> Result<Hand, OutOfMemory>
        ensures { IfOk result (λ hand. hand ≡ self.now) }
    {
        let entries = shared(alloc, &self.entries)?;
        Ok(Hand { entries })
    }

    // The page with a number.
    #[inline(always)]
    pub(crate) fn at(&self, number: u32) -> Option<&SharedPage>
        ensures { option_copied result ≡ held self.now number }
    {
        match &self.entries[hand_entry(number)] {
            Some(page) if page.number() == number => Some(page),
            _ => None,
        }
    }

    #[inline(always)]
    pub(crate) fn has(&self, number: u32) -> bool
        ensures { result ≡ is_some (held self.now number) }
    {
        self.at(number).is_some()
    }

    // The page that has the entry of this number.
    fn rival(&self, number: u32) -> Option<&SharedPage>
        ensures page { option_copied result ≡ entry_at self.now (hand_entry number) }
        ensures own { IfSome result (λ p. hand_entry p.now.number ≡ hand_entry number) }
    {
        self.entries[hand_entry(number)].as_ref()
    }

    // Gives the entry of a number to its page, or to none.
    fn set(&mut self, number: u32, page: Option<SharedPage>)
        requires { IfSome page (λ p. p.number ≡ number) }
        ensures entry { self.new ≡ slice_set self.old (hand_entry number) page }
        ensures count { length self.old ≡ ENTRIES }
    {
        self.entries[hand_entry(number)] = page;
    }

    // Writes the low bytes of a value to the page with a number, if it is in hand and may be written. Returns whether
    // it is and may. An `Err` changes nothing.
    #[inline(always)]
    pub(crate) fn write(
        &mut self,
        alloc: Global,
        number: u32,
        offset: usize,
        width: Width,
        value: u32,
    ) -> Result<bool, OutOfMemory>
        requires { offset + width_bytes width ≤ 4096 }
        ensures answer { IfOk result (λ done. done ≡ is_writable (held self.old number)) }
        ensures ok { OnOk result (self.new ≡ held_changed number (written offset (little_bytes (width_bytes width) value)) self.old) }
        ensures err { OnErr result (self.new ≡ self.old) }
    {
        let entry = &mut self.entries[hand_entry(number)];
        write_entry(entry, alloc, number, offset, width, value)
    }

    fn put_part_held(
        &mut self,
        alloc: Global,
        number: u32,
        offset: usize,
        part: &[u8],
    ) -> Result<(), OutOfMemory>
        requires { offset + length part.now ≤ 4096 }
        ensures ok { OnOk result (self.new ≡ held_changed number (with_bytes offset part.now) self.old) }
        ensures err { OnErr result (self.new ≡ self.old) }
    {
        let entry = &mut self.entries[hand_entry(number)];
        put_part_entry(entry, alloc, number, offset, part)
    }

    // The page of the tree with a number, which has the same bytes in memory. `None` if the page is in hand.
    pub(crate) fn aside(&self, root: &Root, number: u32) -> Option<SharedPage>
        requires { IfSome (found self.now root.now number) (λ p. p.number ≡ number) }
        ensures { IfSome result (IsAside self.now root.now) }
    {
        if self.has(number) {
            return None;
        }
        match root.at(number) {
            Some(page) => page.share().ok(),
            None => None,
        }
    }

    // Puts the page that has the entry of this number back into the tree. It stays in hand too.
    fn put_back(&self, root: &mut Root, alloc: Global, number: u32) -> Result<(), OutOfMemory>
        ensures same { (n : ℕ) → found self.now root.new n ≡ found self.now root.old n }
        ensures back { OnOk result (IfSome (entry_at self.now (hand_entry number)) (λ p. leaf root.new p.number ≡ Some p)) }
    {
        match self.rival(number) {
            Some(page) => root.put(alloc, page.share()?),
            None => Ok(()),
        }
    }

    // Takes the page with this number out of the tree. The page that had its entry goes back into the tree. No page
    // changes, also on an `Err`.
    #[cold]
    #[inline(never)]
    fn take(&mut self, root: &mut Root, alloc: Global, number: u32) -> Result<(), OutOfMemory>
        requires { IfSome (found self.old root.old number) (λ p. p.number ≡ number) }
        ensures same { (n : ℕ) → found self.new root.new n ≡ found self.old root.old n }
        ensures held { OnOk result (held self.new number ≡ found self.old root.old number) }
        ensures unheld { (n : ℕ) → (number ≡ n → ⊥) → held self.old n ≡ None → held self.new n ≡ None }
    {
        self.put_back(root, alloc, number)?;
        let page = root.take(alloc, number)?;
        self.set(number, page);
        Ok(())
    }

    // Takes the page with this number in hand, unless it is there. No page changes, also on an `Err`.
    pub(crate) fn hold(
        &mut self,
        root: &mut Root,
        alloc: Global,
        number: u32,
    ) -> Result<(), OutOfMemory>
        requires { IfSome (found self.old root.old number) (λ p. p.number ≡ number) }
        ensures same { (n : ℕ) → found self.new root.new n ≡ found self.old root.old n }
        ensures held { OnOk result (held self.new number ≡ found self.old root.old number) }
        ensures unheld { (n : ℕ) → (number ≡ n → ⊥) → held self.old n ≡ None → held self.new n ≡ None }
    {
        if self.has(number) {
            return Ok(());
        }
        self.take(root, alloc, number)
    }

    // Writes the low bytes of a value to the page with a number, if it may be written, and takes the page in hand
    // before. Returns whether it may be written. An `Err` changes no page.
    pub(crate) fn take_and_write(
        &mut self,
        root: &mut Root,
        alloc: Global,
        number: u32,
        offset: usize,
        width: Width,
        value: u32,
    ) -> Result<bool, OutOfMemory>
        requires inside { offset + width_bytes width ≤ 4096 }
        requires numbered { IfSome (found self.old root.old number) (λ p. p.number ≡ number) }
        ensures answer { IfOk result (λ done. done ≡ is_writable (found self.old root.old number)) }
        ensures ok { OnOk result ((n : ℕ) → found self.new root.new n ≡ found_changed number (written offset (little_bytes (width_bytes width) value)) (found self.old root.old) n) }
        ensures err { OnErr result ((n : ℕ) → found self.new root.new n ≡ found self.old root.old n) }
        ensures unheld { (n : ℕ) → (number ≡ n → ⊥) → held self.old n ≡ None → held self.new n ≡ None }
    {
        self.take(root, alloc, number)?;
        self.write(alloc, number, offset, width, value)
    }

    // Writes bytes to the page with a number, if there is one. An `Err` changes no page.
    pub(crate) fn put_part(
        &mut self,
        root: &mut Root,
        alloc: Global,
        number: u32,
        offset: usize,
        part: &[u8],
    ) -> Result<(), OutOfMemory>
        requires inside { offset + length part.now ≤ 4096 }
        requires numbered { IfSome (found self.old root.old number) (λ p. p.number ≡ number) }
        ensures ok { OnOk result ((n : ℕ) → found self.new root.new n ≡ found_changed number (with_bytes offset part.now) (found self.old root.old) n) }
        ensures err { OnErr result ((n : ℕ) → found self.new root.new n ≡ found self.old root.old n) }
        ensures unheld { (n : ℕ) → (number ≡ n → ⊥) → held self.old n ≡ None → held self.new n ≡ None }
    {
        self.hold(root, alloc, number)?;
        self.put_part_held(alloc, number, offset, part)
    }
}
