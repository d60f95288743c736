// A node: pages by the low ten bits of their numbers. Tables share nodes, and each gets its own on the way to a store.
ghost use Rattle.std.specs.Prelude.{◌≡◌, ◌<◌, ◌++◌, [], ◌∷◌, IfOk, None, OnErr, OnOk, Some, replicate};
ghost use Rattle.std.specs.Option.{option_copied};
ghost use Rattle.cow_pages.specs.Tree.{entry_at, entry_put, padded, slots_without};

use crate::level_entries::grow;
use crate::shared_page::SharedPage;
use dp_base::OutOfMemory;
use std::alloc::Global;
use std::marker::Model;
use std::sync::Arc;

// There are slots only from the first page on, so a copy of a node with a stack at its end is short.
#[derive(Drop)]
pub(crate) struct Slots {
    // How many empty places there are before the slots.
    first: usize,
    slots: Vec<Option<SharedPage>>,
}

impl Model for Slots {
    ghost use Rattle.std.specs.Prelude.{◌++◌, List, None, Option, replicate};
    ghost use Rattle.dp_base.specs.declared.page.Page.{Page};

    ghost Value = { List (Option Page) };

    ghost view = { λ s. replicate s.first None ++ s.slots.items };
}

#[derive(Drop)]
pub(crate) struct Node {
    slots: Arc<Slots, Global>,
}

impl Model for Node {
    ghost use Rattle.std.specs.Prelude.{List, Option};
    ghost use Rattle.dp_base.specs.declared.page.Page.{Page};
    ghost use Rattle.std.specs.Arc.{arc_value};

    ghost Value = { List (Option Page) };

    ghost view = { λ n. arc_value n.slots };
}

impl Slots {
    // Slots of one page.
    fn new(alloc: Global, place: usize, page: SharedPage) -> Result<Slots, OutOfMemory>
        ensures { IfOk result (λ slots. slots ≡ entry_put place page []) }
    {
        let mut slots = Vec::new(alloc);
        slots.push(Some(page))?;
        Ok(Slots {
            first: place,
            slots,
        })
    }

    #[inline(always)]
    fn at(&self, place: usize) -> Option<&SharedPage>
        ensures { option_copied result ≡ entry_at self.now place }
    {
        if place < self.first {
            return None;
        }
        match self.slots.get(place - self.first) {
            Some(Some(page)) => Some(page),
            _ => None,
        }
    }

    // Equal slots, whose pages have the same bytes in memory.
    fn copy(&self, alloc: Global) -> Result<Slots, OutOfMemory>
        ensures { IfOk result (λ copy. copy ≡ self.now) }
    {
        let slots = shared(alloc, &self.slots)?;
        Ok(Slots {
            first: self.first,
            slots,
        })
    }

    fn put(&mut self, alloc: Global, place: usize, page: SharedPage) -> Result<(), OutOfMemory>
        requires { place < 1024 }
        ensures ok { OnOk result (self.new ≡ entry_put place page self.old) }
        ensures err { OnErr result (self.new ≡ self.old) }
    {
        if place < self.first {
            self.slots = slots_before(alloc, page, self.first - place, &self.slots)?;
            self.first = place;
            return Ok(());
        }
        put_slot(&mut self.slots, place - self.first, page)
    }

    fn take(&mut self, place: usize) -> Option<SharedPage>
        ensures page { result ≡ entry_at self.old place }
        ensures rest { self.new ≡ slots_without place self.old }
    {
        if place < self.first {
            return None;
        }
        take_slot(&mut self.slots, place - self.first)
    }
}

#[tactic(auto, using(crate::proofs::EntryChanges::put_entry))]
fn put_slot(
    slots: &mut Vec<Option<SharedPage>>,
    index: usize,
    page: SharedPage,
) -> Result<(), OutOfMemory>
    requires { index < 1024 }
    ensures ok { OnOk result (slots.new.items ≡ entry_put index page slots.old.items) }
    ensures err { OnErr result (slots.new.items ≡ slots.old.items) }
{
    grow(slots, index + 1)?;
    slots[index] = Some(page);
    Ok(())
}

fn take_slot(slots: &mut Vec<Option<SharedPage>>, index: usize) -> Option<SharedPage>
    ensures page { result ≡ entry_at slots.old.items index }
    ensures rest { slots.new.items ≡ slots_without index slots.old.items }
{
    match slots.get_mut(index) {
        Some(slot) => slot.take(),
        None => None,
    }
}

// The slots of a page that comes so many places before the first of these slots.
fn slots_before(
    alloc: Global,
    page: SharedPage,
    distance: usize,
    slots: &[Option<SharedPage>],
) -> Result<Vec<Option<SharedPage>>, OutOfMemory>
    ensures { IfOk result (λ all. all.items ≡ padded distance (Some page ∷ []) ++ slots.now) }
{
    let mut all = Vec::new(alloc);
    all.push(Some(page))?;
    grow(&mut all, distance)?;
    append_shared(&mut all, slots)?;
    Ok(all)
}

// Equal slots, whose pages have the same bytes in memory.
pub(crate) fn shared(
    alloc: Global,
    slots: &[Option<SharedPage>],
) -> Result<Vec<Option<SharedPage>>, OutOfMemory>
    ensures { IfOk result (λ copy. copy.items ≡ slots.now) }
{
    let mut copy = Vec::with_capacity(alloc, slots.len())?;
    append_shared(&mut copy, slots)?;
    Ok(copy)
}

// Appends equal slots, whose pages have the same bytes in memory.
fn append_shared(
    all: &mut Vec<Option<SharedPage>>,
    slots: &[Option<SharedPage>],
) -> Result<(), OutOfMemory>
    ensures { OnOk result (all.new.items ≡ all.old.items ++ slots.now) }
{
    'slots: for slot in slots {
        all.push(share_slot(slot)?)?;
    }
    Ok(())
}

#[inline(always)]
fn share_slot(slot: &Option<SharedPage>) -> Result<Option<SharedPage>, OutOfMemory>
    ensures { IfOk result (λ copy. copy ≡ slot.now) }
{
    match slot {
        Some(page) => Ok(Some(page.share()?)),
        None => Ok(None),
    }
}

impl Node {
    // A node of one page.
    pub(crate) fn new(alloc: Global, place: usize, page: SharedPage) -> Result<Node, OutOfMemory>
        requires { place < 1024 }
        ensures { IfOk result (λ node. node ≡ entry_put place page []) }
    {
        Node::of_slots(alloc, Slots::new(alloc, place, page)?)
    }

    fn of_slots(alloc: Global, slots: Slots) -> Result<Node, OutOfMemory>
        ensures { IfOk result (λ node. node ≡ slots) }
    {
        match Arc::new(alloc, slots) {
            Ok(slots) => Ok(Node { slots }),
            Err(_) => Err(OutOfMemory),
        }
    }

    // An equal node, which is the same in memory.
    #[inline(always)]
    pub(crate) fn share(&self) -> Result<Node, OutOfMemory>
        ensures { IfOk result (λ node. node ≡ self.now) }
    {
        let slots = Arc::try_clone(&self.slots)?;
        Ok(Node { slots })
    }

    // The page at a place.
    #[inline(always)]
    pub(crate) fn at(&self, place: usize) -> Option<&SharedPage>
        ensures { option_copied result ≡ entry_at self.now place }
    {
        let slots: &Slots = &self.slots;
        slots.at(place)
    }

    // Puts a page at a place. An `Err` changes nothing.
    pub(crate) fn put(
        &mut self,
        alloc: Global,
        place: usize,
        page: SharedPage,
    ) -> Result<(), OutOfMemory>
        requires { place < 1024 }
        ensures ok { OnOk result (self.new ≡ entry_put place page self.old) }
        ensures err { OnErr result (self.new ≡ self.old) }
    {
        match Arc::get_mut(&mut self.slots) {
            Some(slots) => slots.put(alloc, place, page),
            None => {
                let shared: &Slots = &self.slots;
                let mut slots = shared.copy(alloc)?;
                slots.put(alloc, place, page)?;
                *self = Node::of_slots(alloc, slots)?;
                Ok(())
            }
        }
    }

    // Takes the page at a place out, if there is one. An `Err` changes nothing.
    pub(crate) fn take(
        &mut self,
        alloc: Global,
        place: usize,
    ) -> Result<Option<SharedPage>, OutOfMemory>
        ensures page { IfOk result (λ page. page ≡ entry_at self.old place) }
        ensures ok { OnOk result (self.new ≡ slots_without place self.old) }
        ensures err { OnErr result (self.new ≡ self.old) }
    {
        match Arc::get_mut(&mut self.slots) {
            Some(slots) => Ok(slots.take(place)),
            None => {
                let shared: &Slots = &self.slots;
                let mut slots = shared.copy(alloc)?;
                let page = slots.take(place);
                *self = Node::of_slots(alloc, slots)?;
                Ok(page)
            }
        }
    }
}
