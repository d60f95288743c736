// Which word is which instruction (RISC-V Unprivileged ISA 20191213, chapter 24).
ghost use Rattle.std.specs.Prelude.{◌≡◌, ◌<◌, IfSome};
ghost use Rattle.rv_step.specs.Decoding.{amo, branch, decoded, jump_register, load, op, op_imm, op_other, op_plain, shift_right, store, system};
ghost use Rattle.rv_step.specs.Field.{funct3, rd, rs1, rs2};
ghost use Rattle.rv_step.specs.Operands.{AreOperands};

use crate::immediate::{immediate_b, immediate_i, immediate_j, immediate_s, immediate_u};
use crate::instr::Instr;

#[inline(always)]
fn rd(word: u32) -> u8
    ensures field { result ≡ rd word }
    ensures small { result < 32 }
{
    ((word >> 7) & 0x1f) as u8
}

#[inline(always)]
fn rs1(word: u32) -> u8
    ensures field { result ≡ rs1 word }
    ensures small { result < 32 }
{
    ((word >> 15) & 0x1f) as u8
}

#[inline(always)]
fn rs2(word: u32) -> u8
    ensures field { result ≡ rs2 word }
    ensures small { result < 32 }
{
    ((word >> 20) & 0x1f) as u8
}

#[inline(always)]
fn funct3(word: u32) -> u32
    ensures { result ≡ funct3 word }
{
    (word >> 12) & 7
}

/// Returns the instruction that a word encodes, or `None` exactly if it is illegal.
#[inline(always)]
pub fn decode(word: u32) -> Option<Instr>
    ensures instruction { result ≡ decoded word }
    ensures operands { IfSome result AreOperands }
{
    match word & 0x7f {
        0x37 => Some(Instr::Lui {
            rd: rd(word),
            imm: immediate_u(word),
        }),
        0x17 => Some(Instr::Auipc {
            rd: rd(word),
            imm: immediate_u(word),
        }),
        0x6f => Some(Instr::Jal {
            rd: rd(word),
            imm: immediate_j(word),
        }),
        0x67 => jump_register(word),
        0x63 => branch(word),
        0x03 => load(word),
        0x23 => store(word),
        0x13 => op_imm(word),
        0x33 => op(word),
        0x0f if funct3(word) == 0 => Some(Instr::Fence),
        0x73 => system(word),
        0x2f => amo(word),
        _ => None,
    }
}

#[inline(always)]
fn jump_register(word: u32) -> Option<Instr>
    ensures instruction { result ≡ jump_register word }
    ensures operands { IfSome result AreOperands }
{
    if funct3(word) != 0 {
        return None;
    }
    Some(Instr::Jalr {
        rd: rd(word),
        rs1: rs1(word),
        imm: immediate_i(word),
    })
}

#[inline(always)]
fn branch(word: u32) -> Option<Instr>
    ensures instruction { result ≡ branch word }
    ensures operands { IfSome result AreOperands }
{
    let (rs1, rs2, imm) = (rs1(word), rs2(word), immediate_b(word));
    match funct3(word) {
        0 => Some(Instr::Beq { rs1, rs2, imm }),
        1 => Some(Instr::Bne { rs1, rs2, imm }),
        4 => Some(Instr::Blt { rs1, rs2, imm }),
        5 => Some(Instr::Bge { rs1, rs2, imm }),
        6 => Some(Instr::Bltu { rs1, rs2, imm }),
        7 => Some(Instr::Bgeu { rs1, rs2, imm }),
        _ => None,
    }
}

#[inline(always)]
fn load(word: u32) -> Option<Instr>
    ensures instruction { result ≡ load word }
    ensures operands { IfSome result AreOperands }
{
    let (rd, rs1, imm) = (rd(word), rs1(word), immediate_i(word));
    match funct3(word) {
        0 => Some(Instr::Lb { rd, rs1, imm }),
        1 => Some(Instr::Lh { rd, rs1, imm }),
        2 => Some(Instr::Lw { rd, rs1, imm }),
        4 => Some(Instr::Lbu { rd, rs1, imm }),
        5 => Some(Instr::Lhu { rd, rs1, imm }),
        _ => None,
    }
}

#[inline(always)]
fn store(word: u32) -> Option<Instr>
    ensures instruction { result ≡ store word }
    ensures operands { IfSome result AreOperands }
{
    let (rs1, rs2, imm) = (rs1(word), rs2(word), immediate_s(word));
    match funct3(word) {
        0 => Some(Instr::Sb { rs1, rs2, imm }),
        1 => Some(Instr::Sh { rs1, rs2, imm }),
        2 => Some(Instr::Sw { rs1, rs2, imm }),
        _ => None,
    }
}

#[inline(always)]
fn op_imm(word: u32) -> Option<Instr>
    ensures instruction { result ≡ op_imm word }
    ensures operands { IfSome result AreOperands }
{
    let (rd, rs1, imm) = (rd(word), rs1(word), immediate_i(word));
    match funct3(word) {
        0 => Some(Instr::Addi { rd, rs1, imm }),
        1 if word >> 25 == 0 => Some(Instr::Slli {
            rd,
            rs1,
            imm: u32::from(rs2(word)),
        }),
        1 => None,
        2 => Some(Instr::Slti { rd, rs1, imm }),
        3 => Some(Instr::Sltiu { rd, rs1, imm }),
        4 => Some(Instr::Xori { rd, rs1, imm }),
        5 => shift_right(word),
        6 => Some(Instr::Ori { rd, rs1, imm }),
        _ => Some(Instr::Andi { rd, rs1, imm }),
    }
}

#[inline(always)]
fn shift_right(word: u32) -> Option<Instr>
    ensures instruction { result ≡ shift_right word }
    ensures operands { IfSome result AreOperands }
{
    let (rd, rs1, imm) = (rd(word), rs1(word), u32::from(rs2(word)));
    match word >> 25 {
        0 => Some(Instr::Srli { rd, rs1, imm }),
        0x20 => Some(Instr::Srai { rd, rs1, imm }),
        _ => None,
    }
}

#[inline(always)]
fn op(word: u32) -> Option<Instr>
    ensures instruction { result ≡ op word }
    ensures operands { IfSome result AreOperands }
{
    match word >> 25 {
        0 => op_plain(word),
        0x20 => op_other(word),
        _ => None,
    }
}

#[inline(always)]
fn op_plain(word: u32) -> Option<Instr>
    ensures instruction { result ≡ op_plain word }
    ensures operands { IfSome result AreOperands }
{
    let (rd, rs1, rs2) = (rd(word), rs1(word), rs2(word));
    match funct3(word) {
        0 => Some(Instr::Add { rd, rs1, rs2 }),
        1 => Some(Instr::Sll { rd, rs1, rs2 }),
        2 => Some(Instr::Slt { rd, rs1, rs2 }),
        3 => Some(Instr::Sltu { rd, rs1, rs2 }),
        4 => Some(Instr::Xor { rd, rs1, rs2 }),
        5 => Some(Instr::Srl { rd, rs1, rs2 }),
        6 => Some(Instr::Or { rd, rs1, rs2 }),
        _ => Some(Instr::And { rd, rs1, rs2 }),
    }
}

#[inline(always)]
fn op_other(word: u32) -> Option<Instr>
    ensures instruction { result ≡ op_other word }
    ensures operands { IfSome result AreOperands }
{
    let (rd, rs1, rs2) = (rd(word), rs1(word), rs2(word));
    match funct3(word) {
        0 => Some(Instr::Sub { rd, rs1, rs2 }),
        5 => Some(Instr::Sra { rd, rs1, rs2 }),
        _ => None,
    }
}

fn system(word: u32) -> Option<Instr>
    ensures instruction { result ≡ system word }
    ensures operands { IfSome result AreOperands }
{
    match word {
        0x0000_0073 => Some(Instr::Ecall),
        0x0010_0073 => Some(Instr::Ebreak),
        _ => None,
    }
}

fn amo(word: u32) -> Option<Instr>
    ensures instruction { result ≡ amo word }
    ensures operands { IfSome result AreOperands }
{
    if funct3(word) != 2 {
        return None;
    }
    let (rd, rs1, rs2) = (rd(word), rs1(word), rs2(word));
    match word >> 27 {
        0x00 => Some(Instr::AmoaddW { rd, rs1, rs2 }),
        0x01 => Some(Instr::AmoswapW { rd, rs1, rs2 }),
        0x02 if rs2 == 0 => Some(Instr::LrW { rd, rs1 }),
        0x02 => None,
        0x03 => Some(Instr::ScW { rd, rs1, rs2 }),
        0x04 => Some(Instr::AmoxorW { rd, rs1, rs2 }),
        0x08 => Some(Instr::AmoorW { rd, rs1, rs2 }),
        0x0c => Some(Instr::AmoandW { rd, rs1, rs2 }),
        0x10 => Some(Instr::AmominW { rd, rs1, rs2 }),
        0x14 => Some(Instr::AmomaxW { rd, rs1, rs2 }),
        0x18 => Some(Instr::AmominuW { rd, rs1, rs2 }),
        0x1c => Some(Instr::AmomaxuW { rd, rs1, rs2 }),
        _ => None,
    }
}
