// Standard input, and the system's clock.
ghost use Rattle.std.specs.Prelude.{◌≡◌, ◌≤◌, ◌-◌, ◌^◌, ◌<◌, ◌⊎◌, Ok, IfOk, IsErr, IsTrue, OnErr, OnOk, false, length, drop, min, take};
ghost use Rattle.std.specs.Io.KnownBytes.{Consumes, IsAtEnd, Keeps};
ghost use Rattle.std.specs.Duration.{as_nanos};
ghost use Rattle.dp_base.specs.Counts.{Rose};

use crate::fault_count::FaultCount;
use crate::refusal::Refusal;
use crate::transfer::read_start;
use disk_model::{Failed, Inlet};
use std::io::{Read, Stdin};
use std::time::{Duration, SystemTime, UNIX_EPOCH};

/// A reader, standard input in a program, and the system's clock.
///
/// A take is one read of at most 65,536 bytes: it waits until there is a byte, also if the read would block, and gives
/// what is there. Once a read has given the end, the end stays, and nothing more is read. The clock gives nanoseconds
/// since the beginning of 1970 UTC, as the system's wall clock has them: 0 before 1970 and if it can't be read, and
/// 2^64 - 1 for all that is later. It may go back.
#[derive(Drop)]
pub struct RealInlet<R: Read> {
    runtime: HostRuntime,
    pub(crate) reader: R,
    ended: bool,
    pub(crate) input_faults: FaultCount,
}

impl RealInlet<Stdin> {
    /// Makes an inlet of standard input.
    pub fn new(runtime: HostRuntime) -> RealInlet<Stdin>
        ensures no_fault { result.input_faults.faults ≡ 0 }
        ensures no_end { result.ended ≡ false }
    {
        RealInlet::of_reader(runtime, runtime.stdin())
    }
}

impl<R: Read> RealInlet<R> {
    /// Makes an inlet of this reader.
    pub fn of_reader(runtime: HostRuntime, reader: R) -> RealInlet<R>
        ensures no_fault { result.input_faults.faults ≡ 0 }
        ensures no_end { result.ended ≡ false }
        ensures reader { result.reader ≡ reader }
    {
        RealInlet {
            runtime,
            reader,
            ended: false,
            input_faults: FaultCount::new(),
        }
    }

    /// Returns what the system last refused of the input.
    pub fn input_refusal(&self) -> Option<Refusal>
        ensures { result ≡ self.now.input_faults.last }
    {
        self.input_faults.last
    }
}

// What the trait says of a known input holds of none. Beside its other clauses: an end that was seen stays.
impl<R: Read> Inlet for RealInlet<R> {
    ghost use Rattle.std.specs.Prelude.{None};

    ghost input = { λ _. None };

    ghost input_faults = { λ i. i.input_faults.faults };

    fn take(&mut self, buf: &mut [u8]) -> Result<usize, Failed>
        ensures within { IfOk result (λ n. n ≤ length buf.old) }
        ensures rest { IfOk result (λ n. drop n buf.new ≡ drop n buf.old) }
        ensures cause { IsErr result → Rose self.old.input_faults.faults self.new.input_faults.faults }
        ensures count { self.old.input_faults.faults ≤ self.new.input_faults.faults }
        ensures none { OnOk result (self.new.input_faults.faults ≡ self.old.input_faults.faults) }
        ensures bytes { IfOk result (λ n. Consumes (R.remaining self.old.reader) (R.remaining self.new.reader) (take n buf.new)) }
        ensures kept { OnErr result (Keeps (R.remaining self.old.reader) (R.remaining self.new.reader)) }
        ensures end { IfOk result (λ n. n ≡ 0 → 0 < length buf.old → IsTrue self.new.ended) }
        ensures known_end { IfOk result (λ n. n ≡ 0 → 0 < length buf.old → IsTrue self.old.ended ⊎ IsAtEnd (R.remaining self.new.reader)) }
        ensures ended { IsTrue self.old.ended → (result ≡ Ok 0) × (self.new ≡ self.old) }
    {
        if self.ended || buf.is_empty() {
            return Ok(0);
        }
        match read_start(&self.runtime, &mut self.reader, buf) {
            Ok(count) => {
                self.ended = count == 0;
                Ok(count)
            }
            Err(reason) => {
                let tried = "standard input: read";
                self.input_faults.count_fault(Refusal { tried, reason });
                Err(Failed)
            }
        }
    }

    fn clock(&mut self) -> u64 {
        match SystemTime::now(&self.runtime) {
            Ok(now) => match now.duration_since(UNIX_EPOCH) {
                Ok(since_1970) => nanoseconds(since_1970),
                Err(_) => 0,
            },
            Err(_) => 0,
        }
    }
}

/// A time in nanoseconds, at most 2^64 - 1.
pub(crate) fn nanoseconds(time: Duration) -> u64
    ensures { result ≡ min (as_nanos time) (2 ^ 64 - 1) }
{
    match u64::try_from(time.as_nanos()) {
        Ok(count) => count,
        Err(_) => u64::MAX,
    }
}
