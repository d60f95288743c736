// A window of an input, and the stamp of a round.
ghost use Rattle.std.specs.Prelude.{◌≡◌, ◌<◌, ◌≤◌, ◌^◌, ◌↔◌, false, IfOk, OnOk, OnErr, IsErr, IsTrue};
ghost use Rattle.std.specs.Option.{option_copied};
ghost use Rattle.dp_base.specs.Counts.{Rose};
ghost use Rattle.disk_model.specs.Input.{Took, Gave};
ghost use Rattle.disk_model.specs.Known.{IfKnown};
ghost use Rattle.supply.specs.Supplied.{IsSame, IsSupply, window_answer, empty, end_of, refilled, unfilled};

use crate::MAX_ROOM;
use disk_model::{Failed, Inlet};
use dp_base::OutOfMemory;
use std::alloc::Global;
use std::marker::Model;

/// The input could not be read.
#[derive(Clone, Copy, Debug, PartialEq, Eq)]
pub struct InputFault;

/// A window of an input, and the reading of the clock that answers each clock call of a round.
#[derive(Drop)]
pub struct Supply {
    // the window is its first `count` bytes
    buffer: Vec<u8>,
    count: usize,
    place: u64,
    ended: bool,
    stamp: u64,
}

impl Model for Supply {
    ghost use Rattle.std.specs.Prelude.{length, take};
    ghost use Rattle.supply.specs.Supplied.{IsWindow, Supplied};

    ghost Value = { Supplied };

    ghost view = { λ s. record { window = take s.count s.buffer.items; place = s.place; ended = s.ended; stamp = s.stamp; room = length s.buffer.items } };

    ghost invariant = { λ s. IsWindow s.count (length s.buffer.items) s.place s.ended };
}

impl Supply {
    /// Makes an empty window at the start of the input, in a buffer with this capacity.
    pub fn new(alloc: Global, room: u32) -> Result<Supply, OutOfMemory>
        requires some { 0 < room }
        requires small { room ≤ MAX_ROOM }
        ensures { IfOk result (λ s. s ≡ empty room) }
    {
        let mut buffer = Vec::new(alloc);
        buffer.resize(room as usize, 0)?;
        Ok(Supply {
            buffer,
            count: 0,
            place: 0,
            ended: false,
            stamp: 0,
        })
    }

    /// Takes the next bytes of the input, once. The new window begins where the old one ended, and no byte is the end
    /// of the input. The stamp stays.
    ///
    /// # Errors
    ///
    /// `InputFault` if the input can't be read. The window is then empty, at the end of the old one.
    pub fn refill<I: Inlet>(&mut self, inlet: &mut I) -> Result<(), InputFault>
        requires going { self.old.ended ≡ false }
        requires early { end_of self.old < 2 ^ 63 }
        ensures ok { OnOk result (self.new ≡ refilled self.new.window self.old) }
        ensures taken { OnOk result (IfKnown (Took self.old.room self.new.window) (I.input inlet.old) (I.input inlet.new)) }
        ensures given { OnOk result (IfKnown (Gave self.new.window) (I.input inlet.old) (I.input inlet.new)) }
        ensures err { OnErr result (self.new ≡ unfilled self.old) }
        ensures kept { OnErr result (I.input inlet.new ≡ I.input inlet.old) }
        ensures is_supply { IsSupply self.new }
        ensures none { OnOk result (I.input_faults inlet.new ≡ I.input_faults inlet.old) }
        ensures cause { IsErr result → Rose (I.input_faults inlet.old) (I.input_faults inlet.new) }
        ensures count { I.input_faults inlet.old ≤ I.input_faults inlet.new }
    {
        self.place += self.count as u64;
        self.count = 0;
        match inlet.take(&mut self.buffer) {
            Ok(count) => {
                self.count = count;
                self.ended = count == 0;
                Ok(())
            }
            Err(Failed) => Err(InputFault),
        }
    }

    /// Returns what a read of at most `max` bytes at a place of the input gets: as many bytes of the window as there
    /// are, none of them at the end of the input. Returns `None` if the window has no byte at this place and the end
    /// wasn't seen there.
    pub fn answer(&self, place: u64, max: u32) -> Option<&[u8]>
        ensures answer { option_copied result ≡ window_answer place max self.now }
        ensures is_supply { IsSupply self.now }
    {
        let end = self.place + self.count as u64;
        if self.place <= place && place < end {
            let window = &self.buffer[..self.count];
            let rest = &window[(place - self.place) as usize..];
            return Some(&rest[..rest.len().min(max as usize)]);
        }
        if self.ended && place == end {
            return Some(&self.buffer[..0]);
        }
        None
    }

    /// Returns `true` if both have the same window at the same offset, with the same end and stamp. Their capacities
    /// may differ.
    pub fn same(&self, other: &Supply) -> bool
        ensures { IsTrue result ↔ IsSame self.now other.now }
    {
        self.place == other.place
            && self.ended == other.ended
            && self.stamp == other.stamp
            && self.buffer[..self.count] == other.buffer[..other.count]
    }

    /// Returns `true` if the end of the input was seen.
    pub fn has_ended(&self) -> bool
        ensures { result ≡ self.now.ended }
    {
        self.ended
    }

    /// Returns the offset after the window.
    pub fn window_end(&self) -> u64
        ensures { result ≡ end_of self.now }
    {
        self.place + self.count as u64
    }

    /// Returns the reading of the clock that answers each clock call of the round.
    pub fn stamp(&self) -> u64
        ensures { result ≡ self.now.stamp }
    {
        self.stamp
    }

    /// Sets that reading.
    pub fn set_stamp(&mut self, stamp: u64)
        ensures { self.new ≡ record self.old { stamp = stamp } }
    {
        self.stamp = stamp;
    }
}
