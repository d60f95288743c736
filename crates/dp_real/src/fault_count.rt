// A count of faults of one kind.
ghost use Rattle.std.specs.Prelude.{◌≡◌, ◌≤◌, ◌+◌, ◌-◌, ◌^◌, min, IfOk, IsErr, OnErr, OnOk, Ok, Some};
ghost use Rattle.dp_base.specs.Counts.{Rose};

use crate::refusal::Refusal;
use disk_model::Failed;

/// How often calls of one kind have failed, and what the system refused last.
#[derive(Drop)]
pub(crate) struct FaultCount {
    /// The count, which stops at 2^64 - 1.
    pub faults: u64,
    pub last: Option<Refusal>,
}

impl FaultCount {
    /// Makes a count before the first fault.
    pub(crate) fn new() -> FaultCount
        ensures { result.faults ≡ 0 }
    {
        FaultCount {
            faults: 0,
            last: None,
        }
    }

    /// Counts a fault.
    pub(crate) fn count_fault(&mut self, refusal: Refusal)
        ensures number { self.new.faults ≡ min (self.old.faults + 1) (2 ^ 64 - 1) }
        ensures cause { Rose self.old.faults self.new.faults }
        ensures count { self.old.faults ≤ self.new.faults }
        ensures last { self.new.last ≡ Some refusal }
    {
        self.faults = self.faults.saturating_add(1);
        self.last = Some(refusal);
    }

    /// Returns a call's answer, and counts a fault if the call failed.
    pub(crate) fn counted<T>(&mut self, answer: Result<T, Refusal>) -> Result<T, Failed>
        ensures value { IfOk result (λ value. answer ≡ Ok value) }
        ensures fault { OnErr result (IsErr answer) }
        ensures cause { IsErr result → Rose self.old.faults self.new.faults }
        ensures count { self.old.faults ≤ self.new.faults }
        ensures none { OnOk result (self.new.faults ≡ self.old.faults) }
    {
        match answer {
            Ok(value) => Ok(value),
            Err(refusal) => {
                self.count_fault(refusal);
                Err(Failed)
            }
        }
    }
}
