// The steps that a seat takes. Each is one atomic step on one word.
ghost use Rattle.std.specs.Prelude.{◌≡◌, ℕ, ◌/◌, ◌%◌, ◌<◌, ◌≤◌, ◌^◌, ◌==◌, All, Some, true};
ghost use Rattle.shared_words.specs.Layout.{is_mapped, word_index};
ghost use Rattle.shared_words.specs.Rule.{after_exchange, seat_after_load, after_store, joined_seats, new_seat_view, reduced, view_of, with_ticket};
ghost use Rattle.shared_words.specs.Words.{IsGuestWord, IsSeatOf, pages_of, table_of};

use crate::rule::{Exchanges, JoinsViews, Loads, SplitsBudget, Stores, TakesTicket};
use crate::shared_words::{Seat, SharedWords};

impl SharedWords {
    /// Loads the word at an address.
    pub fn load(&self, seat: &mut Seat, address: u32) -> u32
        requires seat { IsSeatOf self.now seat.old }
        requires aligned { address % 4 ≡ 0 }
        requires mapped { is_mapped (pages_of self.now) (address / 4096) ≡ true }
        ensures seat { IsSeatOf self.now seat.new }
        ensures view { (word : ℕ) × (Some word ≡ word_index (pages_of self.now) address) × (view_of seat.new ≡ seat_after_load (view_of seat.old) word result) }
    {
        let word = self.index(address);
        self.load_at(seat, word)
    }

    /// Stores a word at an address.
    pub fn store(&self, seat: &mut Seat, address: u32, value: u32)
        requires seat { IsSeatOf self.now seat.old }
        requires aligned { address % 4 ≡ 0 }
        requires mapped { is_mapped (pages_of self.now) (address / 4096) ≡ true }
        ensures seat { IsSeatOf self.now seat.new }
        ensures view { (word : ℕ) × (Some word ≡ word_index (pages_of self.now) address) × (view_of seat.new ≡ after_store (view_of seat.old) word value) }
    {
        let word = self.index(address);
        self.store_at(seat, word, value);
    }

    /// Stores a word at an address if it finds the one that it expects there. Returns whether it does.
    pub fn compare_exchange(&self, seat: &mut Seat, address: u32, expected: u32, new: u32) -> bool
        requires seat { IsSeatOf self.now seat.old }
        requires aligned { address % 4 ≡ 0 }
        requires mapped { is_mapped (pages_of self.now) (address / 4096) ≡ true }
        ensures seat { IsSeatOf self.now seat.new }
        ensures view { (word : ℕ) × (Some word ≡ word_index (pages_of self.now) address) × (view_of seat.new ≡ after_exchange (view_of seat.old) word expected new (view_of seat.new).last.found) }
        ensures answer { result ≡ ((view_of seat.new).last.found == expected) }
    {
        let word = self.index(address);
        self.compare_exchange_at(seat, word, expected, new)
    }

    /// Takes the next ticket. It is greater than each one that the seat has.
    #[inline(always)]
    pub fn ticket(&self, seat: &mut Seat) -> u64
        requires seat { IsSeatOf self.now seat.old }
        requires budget { 0 < (view_of seat.old).budget }
        ensures seat { IsSeatOf self.now seat.new }
        ensures view { view_of seat.new ≡ with_ticket (view_of seat.old) result }
        ensures above { All (λ ticket. ticket < result) (view_of seat.old).tickets }
    {
        self.table.shared.fetch_add::<TakesTicket>(seat, 0, 1)
    }

    /// Makes a second seat, which gets 2^32 tickets of the first one's budget.
    pub fn split(&self, mut seat: Seat) -> (Seat, Seat)
        requires seat { IsSeatOf self.now seat }
        requires budget { 2 ^ 32 ≤ (view_of seat).budget }
        ensures seats { IsSeatOf self.now result.0 × IsSeatOf self.now result.1 }
        ensures views { (view_of result.0 ≡ reduced (view_of seat)) × (view_of result.1 ≡ new_seat_view) }
    {
        let new = self.table.shared.split_seat::<SplitsBudget>(&mut seat);
        (seat, new)
    }

    /// Makes one seat of two. It has the tickets and the budgets of both.
    pub fn join(&self, mut seat: Seat, other: Seat) -> Seat
        requires seats { IsSeatOf self.now seat × IsSeatOf self.now other }
        ensures seat { IsSeatOf self.now result }
        ensures view { view_of result ≡ joined_seats (view_of seat) (view_of other) }
    {
        self.table.shared.join_seat::<JoinsViews>(&mut seat, other);
        seat
    }

    #[inline(always)]
    pub(crate) fn load_at(&self, seat: &mut Seat, word: usize) -> u32
        requires seat { IsSeatOf self.now seat.old }
        requires guest { IsGuestWord (table_of self.now) word }
        ensures seat { IsSeatOf self.now seat.new }
        ensures view { view_of seat.new ≡ seat_after_load (view_of seat.old) word result }
    {
        self.table.shared.load::<Loads>(seat, word) as u32
    }

    #[inline(always)]
    pub(crate) fn store_at(&self, seat: &mut Seat, word: usize, value: u32)
        requires seat { IsSeatOf self.now seat.old }
        requires guest { IsGuestWord (table_of self.now) word }
        ensures seat { IsSeatOf self.now seat.new }
        ensures view { view_of seat.new ≡ after_store (view_of seat.old) word value }
    {
        self.table
            .shared
            .store::<Stores>(seat, word, u64::from(value));
    }

    #[inline(always)]
    pub(crate) fn compare_exchange_at(
        &self,
        seat: &mut Seat,
        word: usize,
        expected: u32,
        new: u32,
    ) -> bool
        requires seat { IsSeatOf self.now seat.old }
        requires guest { IsGuestWord (table_of self.now) word }
        ensures seat { IsSeatOf self.now seat.new }
        ensures view { view_of seat.new ≡ after_exchange (view_of seat.old) word expected new (view_of seat.new).last.found }
        ensures answer { result ≡ ((view_of seat.new).last.found == expected) }
    {
        let found = self
            .table
            .shared
            .compare_exchange::<Exchanges>(seat, word, u64::from(expected), u64::from(new));
        found == u64::from(expected)
    }
}
