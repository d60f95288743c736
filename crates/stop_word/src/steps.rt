// The steps on a stop word.
ghost use Rattle.std.specs.Prelude.{◌≡◌, true, false, IfOk, IsTrue};
ghost use Rattle.stop_word.specs.Seats.{IsStopperOf, IsWatcherOf, has_seen, has_stopped, knows_seen};

use crate::rule::{Compares, Loads, Stores, Watches};
use crate::seat::{Stopper, Watcher};
use crate::stop_word::StopWord;
use atomic_table::Table;
use std::alloc::{AllocError, Global};

impl StopWord {
    /// Makes a stop word that is 0, with its stopper.
    ///
    /// # Errors
    ///
    /// `AllocError` if an allocation fails.
    pub fn new(alloc: Global) -> Result<(StopWord, Stopper), AllocError>
        ensures stopper { IfOk result (λ r. IsStopperOf r.0 r.1) }
        ensures stopped { IfOk result (λ r. (has_stopped r.1 ≡ false) × (knows_seen r.1 ≡ false)) }
    {
        let (table, seat) = Table::of_words(alloc, &[0], &())?;
        Ok((StopWord { table }, Stopper { seat }))
    }

    /// Makes a watcher, which has seen nothing.
    pub fn watcher(&self, stopper: &mut Stopper) -> Watcher
        requires { IsStopperOf self.now stopper.old }
        ensures watcher { IsWatcherOf self.now result × (has_seen result ≡ false) }
        ensures stopper { IsStopperOf self.now stopper.new }
        ensures same { (has_stopped stopper.new ≡ has_stopped stopper.old) × (knows_seen stopper.new ≡ knows_seen stopper.old) }
    {
        let seat = self.table.shared.split_seat::<Watches>(&mut stopper.seat);
        Watcher { seat }
    }

    /// Sets the word to 1.
    pub fn stop(&self, stopper: &mut Stopper)
        requires { IsStopperOf self.now stopper.old }
        ensures stopper { IsStopperOf self.now stopper.new }
        ensures stopped { has_stopped stopper.new ≡ true }
        ensures same { knows_seen stopper.new ≡ knows_seen stopper.old }
    {
        self.table.shared.store::<Stores>(&mut stopper.seat, 0, 1);
    }

    /// Returns whether the word is 1, by one load. The watcher has then seen so.
    pub fn is_stopped(&self, watcher: &mut Watcher) -> bool
        requires { IsWatcherOf self.now watcher.old }
        ensures watcher { IsWatcherOf self.now watcher.new }
        ensures seen { IsTrue result → has_seen watcher.new ≡ true }
        ensures same { result ≡ false → has_seen watcher.new ≡ has_seen watcher.old }
    {
        self.table.shared.load::<Loads>(&mut watcher.seat, 0) != 0
    }

    /// Takes a watcher back. If it has seen the word stopped, the stopper has stopped.
    pub fn settle(&self, stopper: &mut Stopper, watcher: Watcher)
        requires stopper { IsStopperOf self.now stopper.old }
        requires watcher { IsWatcherOf self.now watcher }
        ensures stopper { IsStopperOf self.now stopper.new }
        ensures same { has_stopped stopper.new ≡ has_stopped stopper.old }
        ensures seen { has_seen watcher ≡ true → has_stopped stopper.old ≡ true }
    {
        self.table
            .shared
            .join_seat::<Watches>(&mut stopper.seat, watcher.seat);
        self.table.shared.load::<Compares>(&mut stopper.seat, 0);
    }
}
