// Calls that the system refused.
ghost use Rattle.std.specs.Prelude.{◌≡◌, IfOk, IsErr, OnErr, Ok};

use std::io;

/// A call that the system refused.
#[derive(Clone, Copy)]
pub struct Refusal {
    /// What was tried: `open`, `standard output: write`.
    pub tried: &'static str,
    /// Why it was refused.
    pub reason: io::Error,
}

/// A call's answer, with what was tried.
pub(crate) fn tried<T>(tried: &'static str, answer: io::Result<T>) -> Result<T, Refusal>
    ensures value { IfOk result (λ value. answer ≡ Ok value) }
    ensures fault { OnErr result (IsErr answer) }
{
    match answer {
        Ok(value) => Ok(value),
        Err(reason) => Err(Refusal { tried, reason }),
    }
}
