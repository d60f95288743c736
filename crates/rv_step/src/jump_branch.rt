// What an instruction does to its hart alone.
ghost use Rattle.std.specs.Prelude.{◌≡◌, ◌⊎◌, ◌<◌, ◌+◌, ◌*◌, ◌/◌};
ghost use Rattle.dp_base.specs.Memory.{Memory};
ghost use Rattle.dp_base.specs.Counts.{Contention};
ghost use Rattle.rv_step.specs.Contention.{Accounts};
ghost use Rattle.rv_step.specs.Effect.{address, branches, jumps};
ghost use Rattle.guest_state.specs.Register.{next, with_register, wrapped};
ghost use Rattle.rv_step.specs.Step.{answer_for, hart_after};

use crate::stepped::Stepped;
use crate::trap_cause::INSTRUCTION_MISALIGNED;
use guest_state::Hart;

/// Writes a register and goes on with the next instruction.
#[inline(always)]
pub(crate) fn write(hart: &mut Hart, rd: u8, value: u32) -> Stepped
    requires { rd < 32 }
    ensures answer { result ≡ Stepped.Went }
    ensures hart { hart.new ≡ next (with_register hart.old rd value) }
{
    hart.set_register(rd, value);
    hart.pc = hart.pc.wrapping_add(4);
    Stepped::Went
}

/// AUIPC: writes the sum of pc and an immediate to a register.
#[inline(always)]
pub(crate) fn add_to_pc(hart: &mut Hart, rd: u8, imm: u32) -> Stepped
    requires { rd < 32 }
    ensures answer { result ≡ Stepped.Went }
    ensures hart { hart.new ≡ next (with_register hart.old rd (wrapped (hart.old.pc + imm))) }
{
    let value = hart.pc.wrapping_add(imm);
    write(hart, rd, value)
}

/// Returns the sum of a register and an immediate.
#[inline(always)]
pub fn address(hart: &Hart, rs1: u8, imm: u32) -> u32
    requires { rs1 < 32 }
    ensures { result ≡ address hart.now rs1 imm }
{
    hart.register(rs1).wrapping_add(imm)
}

/// JALR: jumps to the sum of a register and an immediate, with its lowest bit cleared. The register is read before `rd`
/// is written.
#[inline(always)]
pub(crate) fn jump_register(hart: &mut Hart, rd: u8, rs1: u8, imm: u32) -> Stepped
    requires destination { rd < 32 }
    requires source { rs1 < 32 }
    ensures answer { (m : Memory) → result ≡ answer_for (jumps rd (address hart.old rs1 imm / 2 * 2) hart.old m) }
    ensures hart { (m : Memory) → hart.new ≡ hart_after (jumps rd (address hart.old rs1 imm / 2 * 2) hart.old m) hart.old }
    ensures stays { (result ≡ Stepped.Went) ⊎ (hart.new ≡ hart.old) }
    ensures counted { (counts : Contention) → Accounts result counts counts }
{
    let target = address(hart, rs1, imm) / 2 * 2;
    jump(hart, rd, target)
}

/// Jumps, and writes the next instruction's address to a register.
#[inline(always)]
pub(crate) fn jump(hart: &mut Hart, rd: u8, target: u32) -> Stepped
    requires { rd < 32 }
    ensures answer { (m : Memory) → result ≡ answer_for (jumps rd target hart.old m) }
    ensures hart { (m : Memory) → hart.new ≡ hart_after (jumps rd target hart.old m) hart.old }
    ensures stays { (result ≡ Stepped.Went) ⊎ (hart.new ≡ hart.old) }
    ensures counted { (counts : Contention) → Accounts result counts counts }
{
    if target % 4 != 0 {
        return Stepped::Trap {
            cause: INSTRUCTION_MISALIGNED,
            value: target,
        };
    }
    hart.set_register(rd, hart.pc.wrapping_add(4));
    hart.pc = target;
    Stepped::Went
}

/// Goes on with the next instruction, or at pc plus the immediate if the branch is taken.
#[inline(always)]
pub(crate) fn branch(hart: &mut Hart, taken: bool, imm: u32) -> Stepped
    ensures answer { (m : Memory) → result ≡ answer_for (branches taken imm hart.old m) }
    ensures hart { (m : Memory) → hart.new ≡ hart_after (branches taken imm hart.old m) hart.old }
    ensures stays { (result ≡ Stepped.Went) ⊎ (hart.new ≡ hart.old) }
    ensures counted { (counts : Contention) → Accounts result counts counts }
{
    if taken {
        let target = hart.pc.wrapping_add(imm);
        jump(hart, 0, target)
    } else {
        hart.pc = hart.pc.wrapping_add(4);
        Stepped::Went
    }
}
