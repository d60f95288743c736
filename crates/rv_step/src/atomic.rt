// The A extension (RISC-V Unprivileged ISA 20191213, 8.2 and 8.4).
ghost use Rattle.std.specs.Prelude.{◌≡◌, ◌⊎◌, ◌<◌, false, true, IfOk, IfSome, OnErr, OnOk, Ok, Some};
ghost use Rattle.rv_step.specs.Atomic.{outcome};
ghost use Rattle.rv_step.specs.Contention.{AccountsOk, AccountsSc};
ghost use Rattle.rv_step.specs.Effect.{changes_word, fails_unheld, is_held, loads_reserved, stores_conditional, stores_held};
ghost use Rattle.rv_step.specs.Step.{answer_for, hart_after, memory_after};

use crate::jump_branch::write;
use crate::stepped::Stepped;
use crate::trap_cause::{LOAD_DENIED, LOAD_MISALIGNED, STORE_DENIED, STORE_MISALIGNED};
use dp_base::{Access, AmoOp, Mem, OutOfMemory};
use guest_state::Hart;

/// How an instruction of the A extension ends. A trap's value is the address of the access.
#[derive(Clone, Copy)]
pub(crate) enum AtomicEnd {
    Went,
    LoadMisaligned,
    LoadDenied,
    StoreMisaligned,
    StoreDenied,
    Busy,
    OutOfMemory,
}

impl AtomicEnd {
    /// Returns the outcome of the step. It is made apart from the functions below, so that each step's outcome is kept
    /// in registers: one that a function writes through a pointer isn't.
    #[inline(always)]
    pub(crate) fn outcome(self, at: u32) -> Result<Stepped, OutOfMemory>
        ensures { result ≡ outcome self at }
    {
        match self {
            AtomicEnd::Went => Ok(Stepped::Went),
            AtomicEnd::LoadMisaligned => Ok(trap(LOAD_MISALIGNED, at)),
            AtomicEnd::LoadDenied => Ok(trap(LOAD_DENIED, at)),
            AtomicEnd::StoreMisaligned => Ok(trap(STORE_MISALIGNED, at)),
            AtomicEnd::StoreDenied => Ok(trap(STORE_DENIED, at)),
            AtomicEnd::Busy => Ok(Stepped::Busy),
            AtomicEnd::OutOfMemory => Err(OutOfMemory),
        }
    }
}

#[inline(always)]
fn trap(cause: u8, value: u32) -> Stepped
    ensures { result ≡ Stepped.Trap cause value }
{
    Stepped::Trap { cause, value }
}

/// LR: loads a word into a register, and reserves its address.
pub(crate) fn load_reserved<M: Mem>(hart: &mut Hart, memory: &mut M, rd: u8, at: u32) -> AtomicEnd
    requires { rd < 32 }
    ensures answer { IfSome (M.memory memory.old) (λ m. IfOk (outcome result at) (λ stepped. stepped ≡ answer_for (loads_reserved rd at hart.old m))) }
    ensures hart { IfSome (M.memory memory.old) (λ m. OnOk (outcome result at) (hart.new ≡ hart_after (loads_reserved rd at hart.old m) hart.old)) }
    ensures memory { IfSome (M.memory memory.old) (λ m. OnOk (outcome result at) (M.memory memory.new ≡ Some (memory_after (loads_reserved rd at hart.old m) m))) }
    ensures stays { IfOk (outcome result at) (λ stepped. (stepped ≡ Stepped.Went) ⊎ (hart.new ≡ hart.old)) }
    ensures err { OnErr (outcome result at) (hart.new ≡ hart.old) }
    ensures err_memory { IfSome (M.memory memory.old) (λ m. OnErr (outcome result at) (M.memory memory.new ≡ Some m)) }
    ensures counted { AccountsOk (outcome result at) (M.contention memory.old) (M.contention memory.new) }
{
    if at % 4 != 0 {
        return AtomicEnd::LoadMisaligned;
    }
    match memory.load_reserved(at) {
        Access::Done(value) => {
            hart.held = Some(at);
            write(hart, rd, value);
            AtomicEnd::Went
        }
        Access::Denied => AtomicEnd::LoadDenied,
        Access::Busy => AtomicEnd::Busy,
    }
}

/// SC: stores a word if its address is reserved, and says in a register whether it has. The reservation ends.
pub(crate) fn store_conditional<M: Mem>(
    hart: &mut Hart,
    memory: &mut M,
    rd: u8,
    at: u32,
    value: u32,
) -> AtomicEnd
    requires { rd < 32 }
    ensures answer { IfSome (M.memory memory.old) (λ m. IfOk (outcome result at) (λ stepped. stepped ≡ answer_for (stores_conditional rd at value hart.old m))) }
    ensures hart { IfSome (M.memory memory.old) (λ m. OnOk (outcome result at) (hart.new ≡ hart_after (stores_conditional rd at value hart.old m) hart.old)) }
    ensures memory { IfSome (M.memory memory.old) (λ m. OnOk (outcome result at) (M.memory memory.new ≡ Some (memory_after (stores_conditional rd at value hart.old m) m))) }
    ensures stays { IfOk (outcome result at) (λ stepped. (stepped ≡ Stepped.Went) ⊎ (hart.new ≡ hart.old)) }
    ensures err { OnErr (outcome result at) (hart.new ≡ hart.old) }
    ensures err_memory { IfSome (M.memory memory.old) (λ m. OnErr (outcome result at) (M.memory memory.new ≡ Some m)) }
    ensures counted { AccountsSc rd (is_held at hart.old.held) (outcome result at) hart.old hart.new (M.contention memory.old) (M.contention memory.new) }
{
    if at % 4 != 0 {
        return AtomicEnd::StoreMisaligned;
    }
    if hart.held == Some(at) {
        store_held(hart, memory, rd, at, value)
    } else {
        fail_unheld(hart, memory, rd, at)
    }
}

fn store_held<M: Mem>(hart: &mut Hart, memory: &mut M, rd: u8, at: u32, value: u32) -> AtomicEnd
    requires { rd < 32 }
    ensures answer { IfSome (M.memory memory.old) (λ m. IfOk (outcome result at) (λ stepped. stepped ≡ answer_for (stores_held rd at value hart.old m))) }
    ensures hart { IfSome (M.memory memory.old) (λ m. OnOk (outcome result at) (hart.new ≡ hart_after (stores_held rd at value hart.old m) hart.old)) }
    ensures memory { IfSome (M.memory memory.old) (λ m. OnOk (outcome result at) (M.memory memory.new ≡ Some (memory_after (stores_held rd at value hart.old m) m))) }
    ensures stays { IfOk (outcome result at) (λ stepped. (stepped ≡ Stepped.Went) ⊎ (hart.new ≡ hart.old)) }
    ensures err { OnErr (outcome result at) (hart.new ≡ hart.old) }
    ensures err_memory { IfSome (M.memory memory.old) (λ m. OnErr (outcome result at) (M.memory memory.new ≡ Some m)) }
    ensures counted { AccountsSc rd true (outcome result at) hart.old hart.new (M.contention memory.old) (M.contention memory.new) }
{
    match memory.store_conditional(at, value) {
        Ok(Access::Done(stored)) => {
            hart.held = None;
            write(hart, rd, if stored { 0 } else { 1 });
            AtomicEnd::Went
        }
        Ok(Access::Denied) => AtomicEnd::StoreDenied,
        Ok(Access::Busy) => AtomicEnd::Busy,
        Err(OutOfMemory) => AtomicEnd::OutOfMemory,
    }
}

fn fail_unheld<M: Mem>(hart: &mut Hart, memory: &mut M, rd: u8, at: u32) -> AtomicEnd
    requires { rd < 32 }
    ensures answer { IfSome (M.memory memory.old) (λ m. IfOk (outcome result at) (λ stepped. stepped ≡ answer_for (fails_unheld rd at hart.old m))) }
    ensures hart { IfSome (M.memory memory.old) (λ m. OnOk (outcome result at) (hart.new ≡ hart_after (fails_unheld rd at hart.old m) hart.old)) }
    ensures memory { IfSome (M.memory memory.old) (λ m. OnOk (outcome result at) (M.memory memory.new ≡ Some (memory_after (fails_unheld rd at hart.old m) m))) }
    ensures stays { IfOk (outcome result at) (λ stepped. (stepped ≡ Stepped.Went) ⊎ (hart.new ≡ hart.old)) }
    ensures err { OnErr (outcome result at) (hart.new ≡ hart.old) }
    ensures err_memory { IfSome (M.memory memory.old) (λ m. OnErr (outcome result at) (M.memory memory.new ≡ Some m)) }
    ensures counted { AccountsSc rd false (outcome result at) hart.old hart.new (M.contention memory.old) (M.contention memory.new) }
{
    match memory.can_store(at) {
        Access::Done(()) => {
            hart.held = None;
            write(hart, rd, 1);
            AtomicEnd::Went
        }
        Access::Denied => AtomicEnd::StoreDenied,
        Access::Busy => AtomicEnd::Busy,
    }
}

/// An AMO: loads a word into a register, and stores what the operation makes of it and a value.
pub(crate) fn change_word<M: Mem>(
    hart: &mut Hart,
    memory: &mut M,
    op: AmoOp,
    rd: u8,
    at: u32,
    value: u32,
) -> AtomicEnd
    requires { rd < 32 }
    ensures answer { IfSome (M.memory memory.old) (λ m. IfOk (outcome result at) (λ stepped. stepped ≡ answer_for (changes_word op rd at value hart.old m))) }
    ensures hart { IfSome (M.memory memory.old) (λ m. OnOk (outcome result at) (hart.new ≡ hart_after (changes_word op rd at value hart.old m) hart.old)) }
    ensures memory { IfSome (M.memory memory.old) (λ m. OnOk (outcome result at) (M.memory memory.new ≡ Some (memory_after (changes_word op rd at value hart.old m) m))) }
    ensures stays { IfOk (outcome result at) (λ stepped. (stepped ≡ Stepped.Went) ⊎ (hart.new ≡ hart.old)) }
    ensures err { OnErr (outcome result at) (hart.new ≡ hart.old) }
    ensures err_memory { IfSome (M.memory memory.old) (λ m. OnErr (outcome result at) (M.memory memory.new ≡ Some m)) }
    ensures counted { AccountsOk (outcome result at) (M.contention memory.old) (M.contention memory.new) }
{
    if at % 4 != 0 {
        return AtomicEnd::StoreMisaligned;
    }
    match memory.amo(at, op, value) {
        Ok(Access::Done(old)) => {
            write(hart, rd, old);
            AtomicEnd::Went
        }
        Ok(Access::Denied) => AtomicEnd::StoreDenied,
        Ok(Access::Busy) => AtomicEnd::Busy,
        Err(OutOfMemory) => AtomicEnd::OutOfMemory,
    }
}
