// The input of a guest, and a clock.
ghost use Rattle.std.specs.Prelude.{◌≡◌, ◌≤◌, ℕ, Option, IsErr, IfOk, OnErr, OnOk, length, take, drop};
ghost use Rattle.dp_base.specs.Counts.{Rose};
ghost use Rattle.disk_model.specs.Input.{Input, Took, Gave, ReadClock};
ghost use Rattle.disk_model.specs.Known.{IfKnown};

use crate::Failed;

/// An input, which is read in pieces, and a clock.
pub trait Inlet {
    /// What is known of the input. Of a real one nothing is known.
    ghost input: { Self → Option Input };

    /// How often a take has failed. The count stops at 2^64 - 1.
    ghost input_faults: { Self → ℕ };

    /// Takes bytes into the start of the buffer: the next piece, or as much of it as the buffer holds, and its rest is
    /// then the next piece. Returns how many. 0 in a buffer that isn't empty is the end of the input, for good.
    ///
    /// # Errors
    ///
    /// `Failed` if the input can't be read. Nothing is given then, and nothing is lost.
    fn take(&mut self, buf: &mut [u8]) -> Result<usize, Failed>
        ensures within { IfOk result (λ n. n ≤ length buf.old) }
        ensures rest { IfOk result (λ n. drop n buf.new ≡ drop n buf.old) }
        ensures taken { IfOk result (λ n. IfKnown (Took (length buf.old) (take n buf.new)) (input self.old) (input self.new)) }
        ensures given { IfOk result (λ n. IfKnown (Gave (take n buf.new)) (input self.old) (input self.new)) }
        ensures kept { OnErr result (input self.new ≡ input self.old) }
        ensures none { OnOk result (input_faults self.new ≡ input_faults self.old) }
        ensures cause { IsErr result → Rose (input_faults self.old) (input_faults self.new) }
        ensures count { input_faults self.old ≤ input_faults self.new };

    /// Reads the clock, in nanoseconds.
    fn clock(&mut self) -> u64
        ensures reading { IfKnown (ReadClock result) (input self.old) (input self.new) }
        ensures count { input_faults self.new ≡ input_faults self.old };
}
