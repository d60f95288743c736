// The memory that a racing hart sees.
ghost use Rattle.std.specs.Prelude.{◌≡◌, ◌+◌, ◌*◌, ◌<◌, ◌≤◌, ◌^◌, [], IfOk, None, false, vec_len};
ghost use Rattle.shared_words.specs.Contended.{contention_of};
ghost use Rattle.shared_words.specs.Copied.{AreMarked};
ghost use Rattle.shared_words.specs.Logged.{AreInOrder};
ghost use Rattle.shared_words.specs.Rule.{view_of};
ghost use Rattle.shared_words.specs.Words.{IsSeatAt, table_of};
ghost use Rattle.shared_words.specs.declared.layout.TheConstants.{BLOCK_WORDS, FIRST_WORD};

use crate::interference::Counts;
use crate::layout::{BLOCK_WORDS, FIRST_WORD};
use crate::marks::Marks;
use crate::naming::Naming;
use crate::part_access::{load_part, low_word, mask_of, store_part};
use crate::racing_seat::RacingSeat;
use crate::shared_words::{Seat, SharedWords};
use dp_base::{Access, AmoOp, Log, Mem, OutOfMemory, Width};
use std::alloc::Global;
use sync_hints::Sc;

const EXECUTE: u8 = 1;

const WRITE: u8 = 2;

const READ: u8 = 4;

// An LR: the address, the word that it found there, and the index of its entry in the log.
#[derive(Clone, Copy)]
struct Reservation {
    address: u32,
    word: u32,
    entry: usize,
}

/// The memory that a racing hart sees. Stores of other harts show at once, so no proof knows its bytes.
///
/// An aligned word is loaded and stored in one step. A store to part of a word or across two words, and an AMO, change
/// each word by a step that fails if another hart changed it first. They try that 64 times and then answer `Busy`. An
/// SC tries once, and is lost if that fails. An access is denied if a page hasn't the flag, as in `Pages`.
///
/// Each LR, SC and AMO takes a ticket. Two more cases answer `Busy`: all of 2^32 - 1 tickets are taken, or an LR, or an
/// SC without a reservation, can't get memory for its entry in the log (`is_out_of_memory`).
///
/// The address of an LR, SC or AMO has to be a multiple of 4: a hart traps before it reaches memory otherwise.
#[derive(Drop)]
pub struct RacingMem<'a, J: Naming> {
    seat: RacingSeat<'a, J>,
    reservation: Option<Reservation>,
    out_of_memory: bool,
    // The page that was last fetched from, and the index of its first word.
    code_page: u32,
    code_first: usize,
    counts: Counts,
    ghost code: { (FIRST_WORD ≤ code_first) × (code_first < 2 ^ 21) },
}

impl<'a, J: Naming> RacingMem<'a, J> {
    /// Makes the memory of a hart, with a seat that may take 2^32 tickets and hasn't stored yet.
    ///
    /// # Errors
    ///
    /// `OutOfMemory` if an allocation fails.
    pub fn new(
        alloc: Global,
        words: &'a SharedWords,
        seat: Seat,
    ) -> Result<RacingMem<'a, J>, OutOfMemory>
        requires named { table_of words.now ≡ J.table }
        requires seat { IsSeatAt J.table seat }
        requires budget { 2 ^ 32 ≤ (view_of seat).budget }
        requires stored { (view_of seat).stored ≡ [] }
        ensures memory { IfOk result (λ m. m.out_of_memory ≡ false) }
        ensures counts { IfOk result (λ m. (m.counts.busy ≡ 0) × (m.counts.lost ≡ 0)) }
    {
        Ok(RacingMem {
            seat: RacingSeat::new(alloc, words, seat)?,
            reservation: None,
            out_of_memory: false,
            // No page has this number.
            code_page: u32::MAX,
            code_first: FIRST_WORD,
            counts: Counts { busy: 0, lost: 0 },
        })
    }

    /// Returns whether an access answered `Busy` because an allocation failed.
    pub fn is_out_of_memory(&self) -> bool
        ensures { result ≡ self.now.out_of_memory }
    {
        self.out_of_memory
    }

    /// Returns the seat, the log of the steps that synchronise, and marks of the blocks in which it stored. The log has
    /// the ticket of each step, and what the step is. The tickets don't fall. An LR whose SC stored has the ticket of
    /// the SC if no other entry is between them.
    pub fn into_parts(self) -> (Seat, Log<(u64, Sc)>, Marks)
        ensures seat { IsSeatAt J.table result.0 }
        ensures log { AreInOrder result.1 }
        ensures sized { FIRST_WORD + BLOCK_WORDS * vec_len result.2.blocks ≡ J.table.words }
        ensures marked { AreMarked result.2.blocks.items (view_of result.0).stored }
    {
        let RacingMem {
            seat,
            reservation: _,
            out_of_memory: _,
            code_page: _,
            code_first: _,
            counts: _,
        } = self;
        seat.into_parts()
    }

    // Fetches from another page than the last time, or across two words.
    #[cold]
    #[inline(never)]
    fn fetch_elsewhere(&mut self, address: u32) -> Option<u32>
        ensures { self.new.counts ≡ self.old.counts }
    {
        if address % 4 != 0 {
            return load_part(&mut self.seat, EXECUTE, address, Width::Four);
        }
        let page = address / 4096;
        let first = self.seat.first_with(EXECUTE, page)?;
        self.code_page = page;
        self.code_first = first;
        Some(self.seat.load(first + (address % 4096 / 4) as usize))
    }
}

impl<'a, J: Naming> Mem for RacingMem<'a, J> {
    ghost memory = { λ _. None };

    ghost contention = { λ m. contention_of m.counts };

    #[inline(always)]
    fn fetch(&mut self, address: u32) -> Access<u32> {
        if address % 4 == 0 && address / 4096 == self.code_page {
            let index = self.code_first + (address % 4096 / 4) as usize;
            if index < self.seat.word_count() {
                return Access::Done(self.seat.load(index));
            }
        }
        match self.fetch_elsewhere(address) {
            Some(word) => Access::Done(word),
            None => Access::Denied,
        }
    }

    #[inline(always)]
    fn load(&mut self, address: u32, width: Width) -> Access<u32> {
        if address % 4 == 0 {
            let Some(index) = self.seat.index_with(READ, address) else {
                return Access::Denied;
            };
            let word = u64::from(self.seat.load(index));
            return Access::Done(low_word(word & mask_of(width)));
        }
        match load_part(&mut self.seat, READ, address, width) {
            Some(value) => Access::Done(value),
            None => Access::Denied,
        }
    }

    #[inline(always)]
    fn store(&mut self, address: u32, width: Width, value: u32) -> Result<Access<()>, OutOfMemory> {
        if address % 4 == 0 && width == Width::Four {
            let Some(index) = self.seat.index_with(WRITE, address) else {
                return Ok(Access::Denied);
            };
            self.seat.store(index, value);
            return Ok(Access::Done(()));
        }
        match store_part(&mut self.seat, WRITE, address, width, value) {
            Some(true) => Ok(Access::Done(())),
            Some(false) => {
                self.counts.add_busy();
                Ok(Access::Busy)
            }
            None => Ok(Access::Denied),
        }
    }

    fn amo(&mut self, address: u32, op: AmoOp, value: u32) -> Result<Access<u32>, OutOfMemory> {
        if self.seat.index_with(READ, address).is_none() {
            return Ok(Access::Denied);
        }
        let Some(index) = self.seat.index_with(WRITE, address) else {
            return Ok(Access::Denied);
        };
        self.seat.reserve()?;
        match self.seat.change_word(index, op, value) {
            Some(old) => Ok(Access::Done(old)),
            None => {
                self.counts.add_busy();
                Ok(Access::Busy)
            }
        }
    }

    // The ticket is taken after the load, so an SC that stored the word has a smaller one.
    fn load_reserved(&mut self, address: u32) -> Access<u32> {
        let Some(index) = self.seat.index_with(READ, address) else {
            return Access::Denied;
        };
        if self.seat.reserve().is_err() {
            self.out_of_memory = true;
            self.counts.add_busy();
            return Access::Busy;
        }
        let word = self.seat.load(index);
        let Some(ticket) = self.seat.ticket() else {
            self.counts.add_busy();
            return Access::Busy;
        };
        self.reservation = Some(Reservation {
            address,
            word,
            entry: self.seat.entry_count(),
        });
        self.seat.note(ticket, Sc::NotSc);
        Access::Done(word)
    }

    // The ticket is taken before the store, so an LR that finds the word has a greater one.
    fn store_conditional(&mut self, address: u32, value: u32) -> Result<Access<bool>, OutOfMemory> {
        let Some(index) = self.seat.index_with(WRITE, address) else {
            return Ok(Access::Denied);
        };
        self.seat.reserve()?;
        let Some(ticket) = self.seat.ticket() else {
            self.counts.add_busy();
            return Ok(Access::Busy);
        };
        let reservation = self.reservation;
        self.reservation = None;
        if let Some(held) = reservation {
            if held.address == address && self.seat.compare_exchange(index, held.word, value) {
                self.seat.note_won(ticket, held.entry);
                return Ok(Access::Done(true));
            }
        }
        self.seat.note(ticket, Sc::Lost);
        self.counts.add_lost();
        Ok(Access::Done(false))
    }

    // An SC without a reservation asks this. It is lost.
    fn can_store(&mut self, address: u32) -> Access<()> {
        if self.seat.index_with(WRITE, address).is_none() {
            return Access::Denied;
        }
        if self.seat.reserve().is_err() {
            self.out_of_memory = true;
            self.counts.add_busy();
            return Access::Busy;
        }
        let Some(ticket) = self.seat.ticket() else {
            self.counts.add_busy();
            return Access::Busy;
        };
        self.seat.note(ticket, Sc::Lost);
        Access::Done(())
    }
}
