// A search for an order of the AMOs of a word.
use crate::amo::Amo;
use dp_base::OutOfMemory;
use std::alloc::Global;

// How many steps a search takes for each AMO, and how many more.
const STEPS_EACH: usize = 16;

const STEPS_MORE: usize = 1024;

// Finds places for the AMOs of a word, so that each finds what the one before it stored. Returns the index of each AMO,
// and its place. Returns `None` if other stores change the word too, or if no order is found in few steps.
pub(crate) fn places_of(
    alloc: Global,
    amos: &[Amo],
    word: u32,
) -> Result<Option<Vec<(usize, u64)>>, OutOfMemory> {
    let amos = amos_of(alloc, amos, word)?;
    if !adds_up(&amos) {
        return Ok(None);
    }
    let mut order = Order::new(alloc, &amos)?;
    if !order.search()? {
        return Ok(None);
    }
    Ok(Some(order.places(alloc)?))
}

// An AMO of the word, and its index among all.
#[derive(Clone, Copy)]
struct Indexed {
    index: usize,
    amo: Amo,
}

// The AMOs of a word by ticket.
fn amos_of(alloc: Global, amos: &[Amo], word: u32) -> Result<Vec<Indexed>, OutOfMemory> {
    let mut of_word = Vec::new(alloc);
    for index in 0..amos.len() {
        let amo = amos[index];
        if amo.address == word {
            of_word.push(Indexed { index, amo })?;
        }
    }
    of_word.sort_by_key(|one| one.amo.ticket)?;
    Ok(of_word)
}

// Whether the changes of a word add up. If other stores change it too, they don't, and the AMOs needn't find what
// others stored.
fn adds_up(amos: &[Indexed]) -> bool {
    let mut sum = 0i64;
    let mut least = u32::MAX;
    let mut most = 0;
    for one in amos {
        let Amo { found, stored, .. } = one.amo;
        sum = sum
            .wrapping_add(i64::from(stored))
            .wrapping_sub(i64::from(found));
        least = least.min(found).min(stored);
        most = most.max(found).max(stored);
    }
    sum.unsigned_abs() <= u64::from(most.saturating_sub(least))
}

// The AMOs of a thread on a word, in order, and how many of them have a place.
#[derive(Drop)]
struct Line {
    thread: usize,
    amos: Vec<Indexed>,
    placed: usize,
}

// An AMO that was placed: it is the next one of this line. If it is free, another one could have been placed here.
#[derive(Clone, Copy)]
struct Choice {
    line: usize,
    is_free: bool,
}

// The AMOs of a word, of which the first ones have a place, so that each finds what the one before it stored.
#[derive(Drop)]
struct Order {
    lines: Vec<Line>,
    choices: Vec<Choice>,
    count: usize,
    // What the word holds after those. It isn't known before the first one.
    value: Option<u32>,
    // Of AMOs that may be next, only those with greater tickets are tried.
    after: Option<u64>,
}

impl Order {
    fn new(alloc: Global, amos: &[Indexed]) -> Result<Order, OutOfMemory> {
        let mut order = Order {
            lines: Vec::new(alloc),
            choices: Vec::new(alloc),
            count: 0,
            value: None,
            after: None,
        };
        for one in amos {
            order.add(alloc, *one)?;
        }
        Ok(order)
    }

    // Adds an AMO without a place.
    fn add(&mut self, alloc: Global, one: Indexed) -> Result<(), OutOfMemory> {
        self.count = self.count.saturating_add(1);
        for line in self.lines.iter_mut() {
            if line.thread == one.amo.thread {
                line.amos.push(one)?;
                return Ok(());
            }
        }
        let mut amos = Vec::new(alloc);
        amos.push(one)?;
        self.lines.push(Line {
            thread: one.amo.thread,
            amos,
            placed: 0,
        })?;
        Ok(())
    }

    // Gives each AMO a place, if that is found in a few steps for each. Returns whether all have one.
    fn search(&mut self) -> Result<bool, OutOfMemory> {
        let limit = self
            .count
            .saturating_mul(STEPS_EACH)
            .saturating_add(STEPS_MORE);
        for _ in 0..limit {
            if self.choices.len() >= self.count {
                return Ok(true);
            }
            match self.next_choice() {
                Some(choice) => self.place(choice)?,
                None => {
                    if !self.go_back() {
                        return Ok(false);
                    }
                }
            }
        }
        Ok(false)
    }

    // The AMO that is next: the one with the smallest ticket. All whose threads have gone on at its ticket have to be
    // placed before. One that changes nothing is in nobody's way, so no other is tried instead.
    fn next_choice(&self) -> Option<Choice> {
        let mut least = u64::MAX;
        let mut second = u64::MAX;
        for line in &self.lines {
            if let Some(amo) = line.head() {
                if amo.next < least {
                    second = least;
                    least = amo.next;
                } else {
                    second = second.min(amo.next);
                }
            }
        }
        let mut best: Option<(Choice, u64)> = None;
        for index in 0..self.lines.len() {
            let Some(amo) = self.head_of(index) else {
                continue;
            };
            let others = if amo.next == least { second } else { least };
            if others <= amo.ticket || !self.finds(&amo) {
                continue;
            }
            let is_next = match self.after {
                Some(after) => amo.ticket > after,
                None => true,
            };
            let is_smaller = match best {
                Some((_, ticket)) => amo.ticket < ticket,
                None => true,
            };
            if is_next && is_smaller {
                let choice = Choice {
                    line: index,
                    is_free: self.value.is_none() || amo.found != amo.stored,
                };
                best = Some((choice, amo.ticket));
            }
        }
        best.map(|best| best.0)
    }

    fn head_of(&self, index: usize) -> Option<Amo> {
        match self.lines.get(index) {
            Some(line) => line.head(),
            None => None,
        }
    }

    // Whether an AMO that came next would find what it found in the race.
    fn finds(&self, amo: &Amo) -> bool {
        match self.value {
            Some(value) => value == amo.found,
            None => true,
        }
    }

    fn place(&mut self, choice: Choice) -> Result<(), OutOfMemory> {
        self.choices.push(choice)?;
        if let Some(line) = self.lines.get_mut(choice.line) {
            if let Some(amo) = line.head() {
                self.value = Some(amo.stored);
            }
            line.placed = line.placed.saturating_add(1);
        }
        self.after = None;
        Ok(())
    }

    // Takes back the last free choice and those after it. Returns whether there was one.
    fn go_back(&mut self) -> bool {
        for _ in 0..self.count {
            let Some(choice) = self.choices.pop() else {
                return false;
            };
            let is_first = self.choices.is_empty();
            if let Some(line) = self.lines.get_mut(choice.line) {
                line.placed = line.placed.saturating_sub(1);
                if let Some(amo) = line.head() {
                    self.value = if is_first { None } else { Some(amo.found) };
                    self.after = Some(amo.ticket);
                }
            }
            if choice.is_free {
                return true;
            }
        }
        false
    }

    // The places of the AMOs in this order, each from its ticket on and above the one before it.
    fn places(&mut self, alloc: Global) -> Result<Vec<(usize, u64)>, OutOfMemory> {
        for line in self.lines.iter_mut() {
            line.placed = 0;
        }
        let mut places = Vec::new(alloc);
        let mut last = 0u64;
        for choice in &self.choices {
            if let Some(line) = self.lines.get_mut(choice.line) {
                if let Some(one) = line.next() {
                    last = one.amo.ticket.max(last.saturating_add(1));
                    places.push((one.index, last))?;
                }
                line.placed = line.placed.saturating_add(1);
            }
        }
        Ok(places)
    }
}

impl Line {
    // The first AMO without a place, with its index.
    fn next(&self) -> Option<Indexed> {
        self.amos.get(self.placed).copied()
    }

    fn head(&self) -> Option<Amo> {
        self.next().map(|one| one.amo)
    }
}
