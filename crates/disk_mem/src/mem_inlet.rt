// An input in memory, for tests and for the program.
ghost use Rattle.std.specs.Prelude.{◌≡◌, ◌≤◌, Some, IfOk, OnOk, OnErr, IsErr, IsOk, IsTrue, length, map, take, drop, true};
ghost use Rattle.dp_base.specs.Counts.{Rose};
ghost use Rattle.disk_model.specs.Input.{Took, Gave, ReadClock};
ghost use Rattle.disk_model.specs.Known.{IfKnown};
ghost use Rattle.disk_mem.specs.declared.fails.Fails.TheVariants.{Never};
ghost use Rattle.disk_mem.specs.MemoryInput.{of_pieces, take_fails_next, did_take, failed_take, did_read_clock, reading_at};

use crate::Fails;
use crate::counter::Counter;
use crate::pieces::Pieces;
use disk_model::{Failed, Inlet};
use std::marker::Model;

/// An input, all in memory, and a clock.
///
/// Takes are counted from 1, and those fail whose numbers its `Fails` says. An empty piece is the end of the input, for
/// good. Past its list of readings the clock gives the last one again, and 0 if the list is empty.
#[derive(Drop)]
pub struct MemInlet {
    pieces: Pieces,
    ended: bool,
    clocks: Vec<u64>,
    // how often the clock was read
    reads: u64,
    counter: Counter,
}

impl Model for MemInlet {
    ghost use Rattle.disk_mem.specs.MemoryInput.{MemoryInput, first_readings};

    ghost Value = { MemoryInput };

    ghost view = { λ m. record { input = record { given = m.pieces.given; left = m.pieces.left; ended = m.ended; readings = first_readings m.clocks.items m.reads }; clocks = m.clocks.items; fails = m.counter.fails; takes = m.counter.calls; faults = m.counter.faults } };
}

impl MemInlet {
    /// Makes an input of these pieces, some of whose takes fail, and a clock with these readings.
    #[tactic(auto, unfolding(crate::specs::MemoryInput::first_readings))]
    pub fn new(pieces: Vec<Vec<u8>>, clocks: Vec<u64>, fails: Fails) -> MemInlet
        ensures { result ≡ of_pieces (map (λ v. v.items) pieces.items) clocks.items fails }
    {
        MemInlet {
            pieces: Pieces::new(pieces),
            ended: false,
            clocks,
            reads: 0,
            counter: Counter::new(fails),
        }
    }

    /// Returns how many takes there were. The count stops at 2^64 - 1.
    pub fn takes(&self) -> u64
        ensures { result ≡ self.now.takes }
    {
        self.counter.calls
    }

    /// Returns how many takes failed. The count stops at 2^64 - 1.
    pub fn input_fault_count(&self) -> u64
        ensures { result ≡ self.now.faults }
    {
        self.counter.faults
    }
}

// Beside the trait's clauses: which takes fail, what the clock reads, and what each call leaves.
impl Inlet for MemInlet {
    ghost input = { λ m. Some m.input };

    ghost input_faults = { λ m. m.faults };

    fn take(&mut self, buf: &mut [u8]) -> Result<usize, Failed>
        ensures within { IfOk result (λ n. n ≤ length buf.old) }
        ensures rest { IfOk result (λ n. drop n buf.new ≡ drop n buf.old) }
        ensures taken { IfOk result (λ n. IfKnown (Took (length buf.old) (take n buf.new)) (Some self.old.input) (Some self.new.input)) }
        ensures given { IfOk result (λ n. IfKnown (Gave (take n buf.new)) (Some self.old.input) (Some self.new.input)) }
        ensures kept { OnErr result (Some self.new.input ≡ Some self.old.input) }
        ensures buffer { OnErr result (buf.new ≡ buf.old) }
        ensures cause { IsErr result → Rose self.old.faults self.new.faults }
        ensures count { self.old.faults ≤ self.new.faults }
        ensures planned { IsTrue (take_fails_next self.old) → IsErr result }
        ensures only { IsErr result → take_fails_next self.old ≡ true }
        ensures never { self.old.fails ≡ Never → IsOk result }
        ensures ok { OnOk result (self.new ≡ did_take (length buf.old) self.old) }
        ensures err { OnErr result (self.new ≡ failed_take self.old) }
    {
        if !self.counter.count_call() {
            self.counter.count_fault();
            return Err(Failed);
        }
        let sees_end = self.pieces.is_at_end() && 0 < buf.len();
        let count = self.pieces.give(buf);
        self.ended = self.ended || sees_end;
        Ok(count)
    }

    fn clock(&mut self) -> u64
        ensures reading { IfKnown (ReadClock result) (Some self.old.input) (Some self.new.input) }
        ensures count { self.new.faults ≡ self.old.faults }
        ensures which { result ≡ reading_at self.old.clocks (length self.old.input.readings) }
        ensures after { self.new ≡ did_read_clock result self.old }
    {
        let reading = reading_with_number(&self.clocks, self.reads);
        self.reads = self.reads.saturating_add(1);
        reading
    }
}

// The reading with this number, counted from 0.
fn reading_with_number(clocks: &[u64], number: u64) -> u64
    ensures { result ≡ reading_at clocks.now number }
{
    if clocks.is_empty() {
        return 0;
    }
    let at = number.min(clocks.len() as u64 - 1);
    clocks[at as usize]
}
