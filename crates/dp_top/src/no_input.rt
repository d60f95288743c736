// An input without a byte, and a clock that always reads 0.
use disk_model::{Failed, Inlet};

/// An input that is at its end from the start, and a clock that always reads 0.
#[derive(Drop)]
pub(crate) struct NoInput {
    /// Whether the end was seen.
    pub ended: bool,
    /// How often the clock was read. The count stops at 2^64 - 1.
    pub readings: u64,
}

impl Inlet for NoInput {
    ghost use Rattle.std.specs.Prelude.{Some};
    ghost use Rattle.dp_top.specs.SelfTesting.{no_input};

    ghost input = { λ i. Some (no_input i.ended i.readings) };

    ghost input_faults = { λ _. 0 };

    fn take(&mut self, buf: &mut [u8]) -> Result<usize, Failed> {
        self.ended = self.ended || !buf.is_empty();
        Ok(0)
    }

    fn clock(&mut self) -> u64 {
        self.readings = self.readings.saturating_add(1);
        0
    }
}
