// A memory for the tests.
ghost use Rattle.std.specs.Prelude.{◌≡◌, None};
ghost use Rattle.dp_base.specs.Counts.{Counted};

use dp_base::{Access, AmoOp, Mem, OutOfMemory, Width};

/// Where the memory begins.
pub(crate) const BASE: u32 = 0x0001_0000;

/// A memory of 64 bytes, with an answer of its own for each kind of access. Its pages aren't known to any proof.
#[derive(Clone, Copy, PartialEq, Eq)]
pub(crate) struct SmallMemory {
    pub bytes: [u8; 64],
    pub fetches: Access<()>,
    pub reads: Access<()>,
    pub writes: Access<()>,
    /// Whether an SC stores.
    pub keeps_reservations: bool,
    /// How often it has answered `Busy`.
    pub busy: u64,
    /// How often an SC hasn't stored.
    pub lost: u64,
}

impl SmallMemory {
    /// Makes a memory of zeros in which each access is allowed.
    pub(crate) fn new() -> Self {
        SmallMemory {
            bytes: [0; 64],
            fetches: Access::Done(()),
            reads: Access::Done(()),
            writes: Access::Done(()),
            keeps_reservations: true,
            busy: 0,
            lost: 0,
        }
    }

    fn byte(&self, address: u32) -> u8 {
        let offset = address.wrapping_sub(BASE) as usize;
        if offset < 64 { self.bytes[offset] } else { 0 }
    }

    // Answers an access, and counts it if it is busy.
    fn answer<T: Copy>(&mut self, answer: Access<()>, value: T) -> Access<T>
        ensures counted { Counted result (record { busy = self.old.busy; lost = self.old.lost }) (record { busy = self.new.busy; lost = self.new.lost }) }
    {
        match answer {
            Access::Done(()) => Access::Done(value),
            Access::Denied => Access::Denied,
            Access::Busy => {
                self.busy = self.busy.saturating_add(1);
                Access::Busy
            }
        }
    }

    /// Returns the four bytes at an address.
    pub(crate) fn word(&self, address: u32) -> u32 {
        u32::from_le_bytes([
            self.byte(address),
            self.byte(address.wrapping_add(1)),
            self.byte(address.wrapping_add(2)),
            self.byte(address.wrapping_add(3)),
        ])
    }

    /// Writes so many of a value's four bytes at an address.
    pub(crate) fn put(&mut self, address: u32, count: u32, value: u32)
        ensures busy { self.new.busy ≡ self.old.busy }
        ensures lost { self.new.lost ≡ self.old.lost }
    {
        put_value(&mut self.bytes, address, count, value);
    }
}

fn put_value(bytes: &mut [u8; 64], address: u32, count: u32, value: u32) {
    let [a, b, c, d] = value.to_le_bytes();
    for (place, byte) in [(0, a), (1, b), (2, c), (3, d)] {
        let offset = address.wrapping_add(place).wrapping_sub(BASE) as usize;
        if place < count && offset < 64 {
            bytes[offset] = byte;
        }
    }
}

fn bytes_of(width: Width) -> u32 {
    match width {
        Width::One => 1,
        Width::Two => 2,
        Width::Four => 4,
    }
}

impl Mem for SmallMemory {
    ghost memory = { λ _. None };

    ghost contention = { λ m. record { busy = m.busy; lost = m.lost } };

    fn fetch(&mut self, address: u32) -> Access<u32> {
        let word = self.word(address);
        self.answer(self.fetches, word)
    }

    fn load(&mut self, address: u32, width: Width) -> Access<u32> {
        let word = self.word(address);
        let value = match width {
            Width::One => word & 0xff,
            Width::Two => word & 0xffff,
            Width::Four => word,
        };
        self.answer(self.reads, value)
    }

    fn store(&mut self, address: u32, width: Width, value: u32) -> Result<Access<()>, OutOfMemory> {
        if self.writes == Access::Done(()) {
            self.put(address, bytes_of(width), value);
        }
        Ok(self.answer(self.writes, ()))
    }

    // Only what the tests ask for: the two maxima.
    fn amo(&mut self, address: u32, op: AmoOp, value: u32) -> Result<Access<u32>, OutOfMemory> {
        let old = self.word(address);
        let greatest = match op {
            AmoOp::Max => old.cast_signed().max(value.cast_signed()).cast_unsigned(),
            _ => old.max(value),
        };
        if self.reads != Access::Done(()) {
            return Ok(self.answer(self.reads, old));
        }
        if self.writes == Access::Done(()) {
            self.put(address, 4, greatest);
        }
        Ok(self.answer(self.writes, old))
    }

    fn load_reserved(&mut self, address: u32) -> Access<u32> {
        let word = self.word(address);
        self.answer(self.reads, word)
    }

    fn store_conditional(&mut self, address: u32, value: u32) -> Result<Access<bool>, OutOfMemory> {
        match self.writes {
            Access::Done(()) if self.keeps_reservations => {
                self.put(address, 4, value);
                Ok(Access::Done(true))
            }
            Access::Done(()) => {
                self.lost = self.lost.saturating_add(1);
                Ok(Access::Done(false))
            }
            Access::Denied => Ok(Access::Denied),
            Access::Busy => {
                self.busy = self.busy.saturating_add(1);
                Ok(Access::Busy)
            }
        }
    }

    fn can_store(&mut self, _address: u32) -> Access<()> {
        self.answer(self.writes, ())
    }
}
