// A seat of a racing thread, and its log.
ghost use Rattle.std.specs.Prelude.{◌≡◌, ◌+◌, ◌*◌, ◌<◌, ◌≤◌, ◌^◌, ℕ, [], IfSome, OnOk, vec_capacity, vec_len};
ghost use Rattle.shared_words.specs.Copied.{AreMarked};
ghost use Rattle.shared_words.specs.Logged.{AreBelow, AreInOrder, IsLog, IsNextTicket};
ghost use Rattle.shared_words.specs.Rule.{view_of};
ghost use Rattle.shared_words.specs.Words.{IsGuestWord, IsPageStart, IsSeatAt, table_of};
ghost use Rattle.shared_words.specs.declared.layout.TheConstants.{BLOCK_WORDS, FIRST_WORD};

use crate::layout::{BLOCK_WORDS, FIRST_WORD};
use crate::marks::Marks;
use crate::naming::Naming;
use crate::shared_words::{Seat, SharedWords};
use dp_base::{AmoOp, Log, OutOfMemory};
use std::alloc::Global;
use std::marker::PhantomData;
use sync_hints::Sc;

// How often a change of a word is tried.
const TRIES: u32 = 64;

// A seat at shared words, how many tickets may still be taken, and the log of the steps that synchronise.
#[derive(Drop)]
pub(crate) struct RacingSeat<'a, J: Naming> {
    words: &'a SharedWords,
    seat: Seat,
    tickets_left: u32,
    // The ticket of each step that synchronises, and what the step is.
    entries: Vec<(u64, Sc)>,
    // The blocks of the words that it stored.
    marks: Marks,
    of: PhantomData<J>,
    ghost named: { table_of words.now ≡ J.table },
    ghost seated: { IsSeatAt J.table seat },
    ghost budget: { tickets_left ≤ (view_of seat).budget },
    ghost logged: { IsLog (view_of seat).tickets entries.items },
    ghost sized: { FIRST_WORD + BLOCK_WORDS * vec_len marks.blocks ≡ J.table.words },
    ghost marked: { AreMarked marks.blocks.items (view_of seat).stored },
}

impl<'a, J: Naming> RacingSeat<'a, J> {
    #[tactic(auto, using(crate::proofs::Logs::log_none))]
    pub(crate) fn new(
        alloc: Global,
        words: &'a SharedWords,
        seat: Seat,
    ) -> Result<RacingSeat<'a, J>, OutOfMemory>
        requires named { table_of words.now ≡ J.table }
        requires seat { IsSeatAt J.table seat }
        requires budget { 2 ^ 32 ≤ (view_of seat).budget }
        requires stored { (view_of seat).stored ≡ [] }
    {
        let marks = words.no_marks(alloc)?;
        Ok(RacingSeat {
            words,
            seat,
            tickets_left: u32::MAX,
            entries: Vec::new(alloc),
            marks,
            of: PhantomData,
        })
    }

    pub(crate) fn into_parts(self) -> (Seat, Log<(u64, Sc)>, Marks)
        ensures seat { IsSeatAt J.table result.0 }
        ensures log { AreInOrder result.1 }
        ensures sized { FIRST_WORD + BLOCK_WORDS * vec_len result.2.blocks ≡ J.table.words }
        ensures marked { AreMarked result.2.blocks.items (view_of result.0).stored }
    {
        let RacingSeat {
            words: _,
            seat,
            tickets_left: _,
            entries,
            marks,
            of: _,
        } = self;
        (seat, Log::from_vec(entries), marks)
    }

    #[inline(always)]
    pub(crate) fn word_count(&self) -> usize
        ensures { result ≡ J.table.words }
    {
        self.words.word_count()
    }

    // The index of the first word of a page that has the flag.
    #[inline(always)]
    pub(crate) fn first_with(&self, flag: u8, number: u32) -> Option<usize>
        requires { 0 < flag }
        ensures { IfSome result (IsPageStart J.table) }
    {
        self.words.first_with(flag, number)
    }

    // The index of the word that holds an address, if its page has the flag.
    #[inline(always)]
    pub(crate) fn index_with(&self, flag: u8, address: u32) -> Option<usize>
        requires { 0 < flag }
        ensures { IfSome result (IsGuestWord J.table) }
    {
        self.words.index_with(flag, address)
    }

    #[inline(always)]
    pub(crate) fn load(&mut self, index: usize) -> u32
        requires { IsGuestWord J.table index }
        ensures { self.new.entries ≡ self.old.entries }
    {
        self.words.load_at(&mut self.seat, index)
    }

    #[inline(always)]
    pub(crate) fn store(&mut self, index: usize, value: u32)
        requires { IsGuestWord J.table index }
    {
        self.words.store_at(&mut self.seat, index, value);
        self.marks.set(index);
    }

    // Tries once to change a word. Returns whether it found the one that is expected.
    #[inline(always)]
    pub(crate) fn compare_exchange(&mut self, index: usize, expected: u32, new: u32) -> bool
        requires { IsGuestWord J.table index }
        ensures entries { self.new.entries ≡ self.old.entries }
        ensures tickets { (view_of self.new.seat).tickets ≡ (view_of self.old.seat).tickets }
    {
        self.marks.set(index);
        self.words
            .compare_exchange_at(&mut self.seat, index, expected, new)
    }

    // Takes a ticket, if one is left. It is greater than those in the log.
    #[inline(always)]
    #[tactic(auto, using(crate::proofs::Logs::log_ticket, crate::proofs::Logs::next_ticket))]
    pub(crate) fn ticket(&mut self) -> Option<u64>
        ensures entries { self.new.entries ≡ self.old.entries }
        ensures next { IfSome result (λ ticket. IsNextTicket ticket (view_of self.new.seat).tickets self.new.entries.items) }
    {
        if self.tickets_left == 0 {
            return None;
        }
        let ticket = self.words.ticket(&mut self.seat);
        self.tickets_left -= 1;
        Some(ticket)
    }

    // Gets memory for one more entry.
    pub(crate) fn reserve(&mut self) -> Result<(), OutOfMemory>
        ensures { OnOk result (vec_len self.new.entries < vec_capacity self.new.entries) }
    {
        self.entries.reserve(1)?;
        Ok(())
    }

    // How many entries there are.
    pub(crate) fn entry_count(&self) -> usize {
        self.entries.len()
    }

    // Adds the entry of a step.
    #[tactic(auto, using(crate::proofs::Logs::log_more))]
    pub(crate) fn note(&mut self, ticket: u64, sc: Sc)
        requires room { vec_len self.old.entries < vec_capacity self.old.entries }
        requires next { IsNextTicket ticket (view_of self.old.seat).tickets self.old.entries.items }
    {
        self.entries.push_reserved((ticket, sc));
    }

    // Adds the entry of an SC that stored. Its LR gets the same ticket, if the LR's entry is the last one. A schedule
    // could otherwise put a step of another thread between the two, which would end the reservation.
    #[tactic(auto, using(crate::proofs::Logs::log_won))]
    pub(crate) fn note_won(&mut self, ticket: u64, reserved: usize)
        requires room { vec_len self.old.entries < vec_capacity self.old.entries }
        requires next { IsNextTicket ticket (view_of self.old.seat).tickets self.old.entries.items }
    {
        move_entry(&mut self.entries, reserved, ticket);
        self.entries.push_reserved((ticket, Sc::Won));
    }

    // Changes the bits of a word that are set in a mask. Returns whether a try succeeded.
    pub(crate) fn change_bits(&mut self, index: usize, mask: u32, bits: u32) -> bool
        requires { IsGuestWord J.table index }
    {
        for _ in 0..TRIES {
            let old = self.load(index);
            if self.compare_exchange(index, old, old & !mask | bits & mask) {
                return true;
            }
        }
        false
    }

    // Does an AMO and adds its entry. Returns the word that it found, if a try succeeded. Each try takes a ticket
    // between its load and its exchange. So if one AMO finds the word that another has stored, its ticket is the
    // greater one.
    pub(crate) fn change_word(&mut self, index: usize, op: AmoOp, value: u32) -> Option<u32>
        requires guest { IsGuestWord J.table index }
        requires room { vec_len self.old.entries < vec_capacity self.old.entries }
    {
        for _ in 0..TRIES {
            let old = self.load(index);
            let ticket = self.ticket()?;
            if self.compare_exchange(index, old, op.result(old, value)) {
                self.note(ticket, Sc::NotSc);
                return Some(old);
            }
        }
        None
    }
}

// Gives the last entry a greater ticket, if it is the one with this index.
#[tactic(auto, using(crate::proofs::Logs::moved_in_order, crate::proofs::Logs::moved_below))]
fn move_entry(entries: &mut [(u64, Sc)], index: usize, ticket: u64)
    requires in_order { AreInOrder entries.old }
    requires below { AreBelow ticket entries.old }
    ensures in_order { AreInOrder entries.new }
    ensures below { (n : ℕ) → AreBelow n entries.old → ticket < n → AreBelow n entries.new }
{
    if index.saturating_add(1) == entries.len() {
        entries[index].0 = ticket;
    }
}
