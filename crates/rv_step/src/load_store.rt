// Loads and stores (RISC-V Unprivileged ISA 20191213, 2.6).
ghost use Rattle.std.specs.Prelude.{◌≡◌, ◌⊎◌, ◌<◌, IfOk, IfSome, OnErr, OnOk, Ok, Some};
ghost use Rattle.rv_step.specs.Contention.{AccountsOk};
ghost use Rattle.rv_step.specs.Effect.{loads, sign_extended_byte, sign_extended_half, stores};
ghost use Rattle.rv_step.specs.Extension.{extended};
ghost use Rattle.rv_step.specs.Step.{answer_for, hart_after, memory_after};

use crate::jump_branch::write;
use crate::stepped::Stepped;
use crate::trap_cause::{LOAD_DENIED, STORE_DENIED};
use dp_base::{Access, Mem, OutOfMemory, Width};
use guest_state::Hart;

/// What a load makes of the bytes that it has got.
#[derive(Clone, Copy, Debug, PartialEq, Eq)]
pub(crate) enum Extension {
    Zero,
    Sign,
}

#[inline(always)]
fn extended(value: u32, width: Width, extension: Extension) -> u32
    ensures { result ≡ extended extension width value }
{
    match (extension, width) {
        (Extension::Sign, Width::One) => sign_extended_byte(value),
        (Extension::Sign, Width::Two) => sign_extended_half(value),
        _ => value,
    }
}

#[inline(always)]
fn sign_extended_byte(value: u32) -> u32
    ensures { result ≡ sign_extended_byte value }
{
    let byte = value & 0xff;
    if byte < 0x80 {
        byte
    } else {
        byte + 0xffff_ff00
    }
}

#[inline(always)]
fn sign_extended_half(value: u32) -> u32
    ensures { result ≡ sign_extended_half value }
{
    let half = value & 0xffff;
    if half < 0x8000 {
        half
    } else {
        half + 0xffff_0000
    }
}

/// Loads the bytes at an address into a register.
#[inline(always)]
pub(crate) fn load<M: Mem>(
    hart: &mut Hart,
    memory: &mut M,
    rd: u8,
    at: u32,
    width: Width,
    extension: Extension,
) -> Result<Stepped, OutOfMemory>
    requires { rd < 32 }
    ensures answer { IfSome (M.memory memory.old) (λ m. IfOk result (λ stepped. stepped ≡ answer_for (loads width (extended extension width) rd at hart.old m))) }
    ensures hart { IfSome (M.memory memory.old) (λ m. OnOk result (hart.new ≡ hart_after (loads width (extended extension width) rd at hart.old m) hart.old)) }
    ensures memory { IfSome (M.memory memory.old) (λ m. OnOk result (M.memory memory.new ≡ Some (memory_after (loads width (extended extension width) rd at hart.old m) m))) }
    ensures stays { IfOk result (λ stepped. (stepped ≡ Stepped.Went) ⊎ (hart.new ≡ hart.old)) }
    ensures err { OnErr result (hart.new ≡ hart.old) }
    ensures err_memory { IfSome (M.memory memory.old) (λ m. OnErr result (M.memory memory.new ≡ Some m)) }
    ensures counted { AccountsOk result (M.contention memory.old) (M.contention memory.new) }
{
    match memory.load(at, width) {
        Access::Done(value) => Ok(write(hart, rd, extended(value, width, extension))),
        Access::Denied => Ok(Stepped::Trap {
            cause: LOAD_DENIED,
            value: at,
        }),
        Access::Busy => Ok(Stepped::Busy),
    }
}

/// Stores the low bytes of a value at an address.
#[inline(always)]
pub(crate) fn store<M: Mem>(
    hart: &mut Hart,
    memory: &mut M,
    at: u32,
    width: Width,
    value: u32,
) -> Result<Stepped, OutOfMemory>
    ensures answer { IfSome (M.memory memory.old) (λ m. IfOk result (λ stepped. stepped ≡ answer_for (stores width at value hart.old m))) }
    ensures hart { IfSome (M.memory memory.old) (λ m. OnOk result (hart.new ≡ hart_after (stores width at value hart.old m) hart.old)) }
    ensures memory { IfSome (M.memory memory.old) (λ m. OnOk result (M.memory memory.new ≡ Some (memory_after (stores width at value hart.old m) m))) }
    ensures stays { IfOk result (λ stepped. (stepped ≡ Stepped.Went) ⊎ (hart.new ≡ hart.old)) }
    ensures err { OnErr result (hart.new ≡ hart.old) }
    ensures err_memory { IfSome (M.memory memory.old) (λ m. OnErr result (M.memory memory.new ≡ Some m)) }
    ensures counted { AccountsOk result (M.contention memory.old) (M.contention memory.new) }
{
    match memory.store(at, width, value) {
        Ok(Access::Done(())) => {
            hart.pc = hart.pc.wrapping_add(4);
            Ok(Stepped::Went)
        }
        Ok(Access::Denied) => Ok(Stepped::Trap {
            cause: STORE_DENIED,
            value: at,
        }),
        Ok(Access::Busy) => Ok(Stepped::Busy),
        Err(error) => Err(error),
    }
}
