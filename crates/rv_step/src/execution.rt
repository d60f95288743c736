// What each instruction does (RISC-V Unprivileged ISA 20191213, chapters 2 and 8), a row for each.
ghost use Rattle.std.specs.Prelude.{◌≡◌, ◌⊎◌, ◌<◌, IfOk, IfSome, OnErr, OnOk, Ok, Some};
ghost use Rattle.rv_step.specs.Contention.{AccountsFor};
ghost use Rattle.rv_step.specs.Execution.{executed};
ghost use Rattle.rv_step.specs.Operands.{AreOperands};
ghost use Rattle.rv_step.specs.Step.{answer_for, hart_after, memory_after};

use crate::atomic::{change_word, load_reserved, store_conditional};
use crate::instr::Instr;
use crate::jump_branch::{add_to_pc, address, branch, jump, jump_register, write};
use crate::load_store::{Extension, load, store};
use crate::shifts::{one_if, shift_amount, shifted_left, shifted_right, shifted_right_arithmetic};
use crate::stepped::Stepped;
use crate::trap_cause::BREAKPOINT;
use dp_base::{AmoOp, Mem, OutOfMemory, Width, is_below_signed};
use guest_state::Hart;

/// Does an instruction. After all but `Went` the hart is unchanged, and so is a memory whose pages are known.
#[inline(always)]
pub(crate) fn execute<M: Mem>(
    instr: Instr,
    hart: &mut Hart,
    memory: &mut M,
) -> Result<Stepped, OutOfMemory>
    requires { AreOperands instr }
    ensures answer { IfSome (M.memory memory.old) (λ m. IfOk result (λ stepped. stepped ≡ answer_for (executed instr hart.old m))) }
    ensures hart { IfSome (M.memory memory.old) (λ m. OnOk result (hart.new ≡ hart_after (executed instr hart.old m) hart.old)) }
    ensures memory { IfSome (M.memory memory.old) (λ m. OnOk result (M.memory memory.new ≡ Some (memory_after (executed instr hart.old m) m))) }
    ensures stays { IfOk result (λ stepped. (stepped ≡ Stepped.Went) ⊎ (hart.new ≡ hart.old)) }
    ensures err { OnErr result (hart.new ≡ hart.old) }
    ensures err_memory { IfSome (M.memory memory.old) (λ m. OnErr result (M.memory memory.new ≡ Some m)) }
    ensures counted { AccountsFor instr result hart.old hart.new (M.contention memory.old) (M.contention memory.new) }
{
    match instr {
        Instr::Lui { rd, imm } => Ok(write(hart, rd, imm)),
        Instr::Auipc { rd, imm } => Ok(add_to_pc(hart, rd, imm)),
        Instr::Jal { rd, imm } => {
            let target = hart.pc.wrapping_add(imm);
            Ok(jump(hart, rd, target))
        }
        Instr::Jalr { rd, rs1, imm } => Ok(jump_register(hart, rd, rs1, imm)),
        Instr::Beq { rs1, rs2, imm } => {
            let (a, b) = (hart.register(rs1), hart.register(rs2));
            Ok(branch(hart, a == b, imm))
        }
        Instr::Bne { rs1, rs2, imm } => {
            let (a, b) = (hart.register(rs1), hart.register(rs2));
            Ok(branch(hart, a != b, imm))
        }
        Instr::Blt { rs1, rs2, imm } => {
            let (a, b) = (hart.register(rs1), hart.register(rs2));
            Ok(branch(hart, is_below_signed(a, b), imm))
        }
        Instr::Bge { rs1, rs2, imm } => {
            let (a, b) = (hart.register(rs1), hart.register(rs2));
            Ok(branch(hart, !is_below_signed(a, b), imm))
        }
        Instr::Bltu { rs1, rs2, imm } => {
            let (a, b) = (hart.register(rs1), hart.register(rs2));
            Ok(branch(hart, a < b, imm))
        }
        Instr::Bgeu { rs1, rs2, imm } => {
            let (a, b) = (hart.register(rs1), hart.register(rs2));
            Ok(branch(hart, a >= b, imm))
        }
        Instr::Lb { rd, rs1, imm } => {
            let at = address(hart, rs1, imm);
            load(hart, memory, rd, at, Width::One, Extension::Sign)
        }
        Instr::Lh { rd, rs1, imm } => {
            let at = address(hart, rs1, imm);
            load(hart, memory, rd, at, Width::Two, Extension::Sign)
        }
        Instr::Lw { rd, rs1, imm } => {
            let at = address(hart, rs1, imm);
            load(hart, memory, rd, at, Width::Four, Extension::Zero)
        }
        Instr::Lbu { rd, rs1, imm } => {
            let at = address(hart, rs1, imm);
            load(hart, memory, rd, at, Width::One, Extension::Zero)
        }
        Instr::Lhu { rd, rs1, imm } => {
            let at = address(hart, rs1, imm);
            load(hart, memory, rd, at, Width::Two, Extension::Zero)
        }
        Instr::Sb { rs1, rs2, imm } => {
            let (at, value) = (address(hart, rs1, imm), hart.register(rs2));
            store(hart, memory, at, Width::One, value)
        }
        Instr::Sh { rs1, rs2, imm } => {
            let (at, value) = (address(hart, rs1, imm), hart.register(rs2));
            store(hart, memory, at, Width::Two, value)
        }
        Instr::Sw { rs1, rs2, imm } => {
            let (at, value) = (address(hart, rs1, imm), hart.register(rs2));
            store(hart, memory, at, Width::Four, value)
        }
        Instr::Addi { rd, rs1, imm } => {
            let a = hart.register(rs1);
            Ok(write(hart, rd, a.wrapping_add(imm)))
        }
        Instr::Slti { rd, rs1, imm } => {
            let a = hart.register(rs1);
            Ok(write(hart, rd, one_if(is_below_signed(a, imm))))
        }
        Instr::Sltiu { rd, rs1, imm } => {
            let a = hart.register(rs1);
            Ok(write(hart, rd, one_if(a < imm)))
        }
        Instr::Xori { rd, rs1, imm } => {
            let a = hart.register(rs1);
            Ok(write(hart, rd, a ^ imm))
        }
        Instr::Ori { rd, rs1, imm } => {
            let a = hart.register(rs1);
            Ok(write(hart, rd, a | imm))
        }
        Instr::Andi { rd, rs1, imm } => {
            let a = hart.register(rs1);
            Ok(write(hart, rd, a & imm))
        }
        Instr::Slli { rd, rs1, imm } => {
            let a = hart.register(rs1);
            Ok(write(hart, rd, shifted_left(a, imm)))
        }
        Instr::Srli { rd, rs1, imm } => {
            let a = hart.register(rs1);
            Ok(write(hart, rd, shifted_right(a, imm)))
        }
        Instr::Srai { rd, rs1, imm } => {
            let a = hart.register(rs1);
            Ok(write(hart, rd, shifted_right_arithmetic(a, imm)))
        }
        Instr::Add { rd, rs1, rs2 } => {
            let (a, b) = (hart.register(rs1), hart.register(rs2));
            Ok(write(hart, rd, a.wrapping_add(b)))
        }
        Instr::Sub { rd, rs1, rs2 } => {
            let (a, b) = (hart.register(rs1), hart.register(rs2));
            Ok(write(hart, rd, a.wrapping_sub(b)))
        }
        Instr::Sll { rd, rs1, rs2 } => {
            let (a, b) = (hart.register(rs1), hart.register(rs2));
            Ok(write(hart, rd, shifted_left(a, shift_amount(b))))
        }
        Instr::Slt { rd, rs1, rs2 } => {
            let (a, b) = (hart.register(rs1), hart.register(rs2));
            Ok(write(hart, rd, one_if(is_below_signed(a, b))))
        }
        Instr::Sltu { rd, rs1, rs2 } => {
            let (a, b) = (hart.register(rs1), hart.register(rs2));
            Ok(write(hart, rd, one_if(a < b)))
        }
        Instr::Xor { rd, rs1, rs2 } => {
            let (a, b) = (hart.register(rs1), hart.register(rs2));
            Ok(write(hart, rd, a ^ b))
        }
        Instr::Srl { rd, rs1, rs2 } => {
            let (a, b) = (hart.register(rs1), hart.register(rs2));
            Ok(write(hart, rd, shifted_right(a, shift_amount(b))))
        }
        Instr::Sra { rd, rs1, rs2 } => {
            let (a, b) = (hart.register(rs1), hart.register(rs2));
            Ok(write(hart, rd, shifted_right_arithmetic(a, shift_amount(b))))
        }
        Instr::Or { rd, rs1, rs2 } => {
            let (a, b) = (hart.register(rs1), hart.register(rs2));
            Ok(write(hart, rd, a | b))
        }
        Instr::And { rd, rs1, rs2 } => {
            let (a, b) = (hart.register(rs1), hart.register(rs2));
            Ok(write(hart, rd, a & b))
        }
        Instr::Fence => {
            hart.pc = hart.pc.wrapping_add(4);
            Ok(Stepped::Went)
        }
        Instr::Ecall => Ok(Stepped::Ecall),
        Instr::Ebreak => Ok(Stepped::Trap {
            cause: BREAKPOINT,
            value: hart.pc,
        }),
        Instr::LrW { rd, rs1 } => {
            let at = hart.register(rs1);
            load_reserved(hart, memory, rd, at).outcome(at)
        }
        Instr::ScW { rd, rs1, rs2 } => {
            let (at, value) = (hart.register(rs1), hart.register(rs2));
            store_conditional(hart, memory, rd, at, value).outcome(at)
        }
        Instr::AmoswapW { rd, rs1, rs2 } => {
            let (at, value) = (hart.register(rs1), hart.register(rs2));
            change_word(hart, memory, AmoOp::Swap, rd, at, value).outcome(at)
        }
        Instr::AmoaddW { rd, rs1, rs2 } => {
            let (at, value) = (hart.register(rs1), hart.register(rs2));
            change_word(hart, memory, AmoOp::Add, rd, at, value).outcome(at)
        }
        Instr::AmoxorW { rd, rs1, rs2 } => {
            let (at, value) = (hart.register(rs1), hart.register(rs2));
            change_word(hart, memory, AmoOp::Xor, rd, at, value).outcome(at)
        }
        Instr::AmoandW { rd, rs1, rs2 } => {
            let (at, value) = (hart.register(rs1), hart.register(rs2));
            change_word(hart, memory, AmoOp::And, rd, at, value).outcome(at)
        }
        Instr::AmoorW { rd, rs1, rs2 } => {
            let (at, value) = (hart.register(rs1), hart.register(rs2));
            change_word(hart, memory, AmoOp::Or, rd, at, value).outcome(at)
        }
        Instr::AmominW { rd, rs1, rs2 } => {
            let (at, value) = (hart.register(rs1), hart.register(rs2));
            change_word(hart, memory, AmoOp::Min, rd, at, value).outcome(at)
        }
        Instr::AmomaxW { rd, rs1, rs2 } => {
            let (at, value) = (hart.register(rs1), hart.register(rs2));
            change_word(hart, memory, AmoOp::Max, rd, at, value).outcome(at)
        }
        Instr::AmominuW { rd, rs1, rs2 } => {
            let (at, value) = (hart.register(rs1), hart.register(rs2));
            change_word(hart, memory, AmoOp::MinU, rd, at, value).outcome(at)
        }
        Instr::AmomaxuW { rd, rs1, rs2 } => {
            let (at, value) = (hart.register(rs1), hart.register(rs2));
            change_word(hart, memory, AmoOp::MaxU, rd, at, value).outcome(at)
        }
    }
}
