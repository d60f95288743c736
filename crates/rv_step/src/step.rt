// One step of a hart.
ghost use Rattle.std.specs.Prelude.{◌≡◌, ◌⊎◌, ◌<◌, IfOk, IfSome, OnErr, OnOk, Ok, Some};
ghost use Rattle.rv_step.specs.Contention.{AccountsAt, StepAccounts};
ghost use Rattle.rv_step.specs.Decoding.{decoded};
ghost use Rattle.rv_step.specs.Step.{answer_for, effect, hart_after, memory_after, of_instruction};

use crate::decoding::decode;
use crate::execution::execute;
use crate::stepped::Stepped;
use crate::trap_cause::{ILLEGAL_INSTRUCTION, INSTRUCTION_DENIED, INSTRUCTION_MISALIGNED};
use dp_base::{Access, Mem, OutOfMemory};
use guest_state::Hart;

/// Takes one step of a hart. After all but `Went`, and after an `Err`, the hart is unchanged, and so is a memory whose
/// pages are known; over such a memory `Busy` is never returned. Over any memory, by what it counts, `Busy` is returned
/// if an access answered it, and in no other case. An SC whose reservation the memory has lost goes on, and writes 1 to
/// its register.
#[inline(always)]
#[tactic(auto, unfolding(crate::specs::Step::effect, crate::specs::Contention::AccountsAt))]
pub fn exec<M: Mem>(hart: &mut Hart, memory: &mut M) -> Result<Stepped, OutOfMemory>
    ensures answer { IfSome (M.memory memory.old) (λ m. IfOk result (λ stepped. stepped ≡ answer_for (effect hart.old m))) }
    ensures hart { IfSome (M.memory memory.old) (λ m. OnOk result (hart.new ≡ hart_after (effect hart.old m) hart.old)) }
    ensures memory { IfSome (M.memory memory.old) (λ m. OnOk result (M.memory memory.new ≡ Some (memory_after (effect hart.old m) m))) }
    ensures stays { IfOk result (λ stepped. (stepped ≡ Stepped.Went) ⊎ (hart.new ≡ hart.old)) }
    ensures err { OnErr result (hart.new ≡ hart.old) }
    ensures err_memory { IfSome (M.memory memory.old) (λ m. OnErr result (M.memory memory.new ≡ Some m)) }
    ensures counted { StepAccounts result hart.old hart.new (M.contention memory.old) (M.contention memory.new) }
{
    if hart.pc % 4 != 0 {
        return Ok(Stepped::Trap {
            cause: INSTRUCTION_MISALIGNED,
            value: hart.pc,
        });
    }
    match memory.fetch(hart.pc) {
        Access::Done(word) => exec_word(word, hart, memory),
        Access::Denied => Ok(Stepped::Trap {
            cause: INSTRUCTION_DENIED,
            value: hart.pc,
        }),
        Access::Busy => Ok(Stepped::Busy),
    }
}

/// Executes the instruction that a word encodes, as `exec` does once it has fetched the word. Returns a trap if the
/// word is illegal. Whether the word is the one at pc isn't tested.
#[inline(always)]
#[tactic(auto, unfolding(crate::specs::Contention::AccountsAt))]
pub fn exec_word<M: Mem>(word: u32, hart: &mut Hart, memory: &mut M) -> Result<Stepped, OutOfMemory>
    ensures answer { IfSome (M.memory memory.old) (λ m. IfOk result (λ stepped. stepped ≡ answer_for (of_instruction hart.old m word (decoded word)))) }
    ensures hart { IfSome (M.memory memory.old) (λ m. OnOk result (hart.new ≡ hart_after (of_instruction hart.old m word (decoded word)) hart.old)) }
    ensures memory { IfSome (M.memory memory.old) (λ m. OnOk result (M.memory memory.new ≡ Some (memory_after (of_instruction hart.old m word (decoded word)) m))) }
    ensures stays { IfOk result (λ stepped. (stepped ≡ Stepped.Went) ⊎ (hart.new ≡ hart.old)) }
    ensures err { OnErr result (hart.new ≡ hart.old) }
    ensures err_memory { IfSome (M.memory memory.old) (λ m. OnErr result (M.memory memory.new ≡ Some m)) }
    ensures counted { AccountsAt word result hart.old hart.new (M.contention memory.old) (M.contention memory.new) }
{
    match decode(word) {
        Some(instr) => execute(instr, hart, memory),
        None => Ok(Stepped::Trap {
            cause: ILLEGAL_INSTRUCTION,
            value: word,
        }),
    }
}
