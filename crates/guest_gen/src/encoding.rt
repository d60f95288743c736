// The word of an instruction, by its form (RISC-V Unprivileged ISA 20191213, 2.2 and 2.3).
ghost use Rattle.std.specs.Prelude.{◌≡◌, ◌<◌};
ghost use Rattle.guest_gen.specs.Listing.{offset, word_at};
ghost use Rattle.guest_gen.specs.Register.{register_number};
ghost use Rattle.rv_step.specs.Encoding.{form_b, form_i, form_j, form_r, form_s, form_u};

use crate::instruction::Instruction;
use crate::register::Register;

const LOAD: u32 = 0x03;

const OP_IMM: u32 = 0x13;

const STORE: u32 = 0x23;

const AMO: u32 = 0x2f;

const OP: u32 = 0x33;

const LUI: u32 = 0x37;

const BRANCH: u32 = 0x63;

const JALR: u32 = 0x67;

const JAL: u32 = 0x6f;

const ECALL: u32 = 0x73;

// funct7 of the A extension's instructions has funct5 in its highest bits.
const LR: u32 = 4 * 0x02;

const SC: u32 = 4 * 0x03;

/// Returns the word of an instruction that is at an index of the listing.
pub(crate) fn encode(index: u16, instruction: Instruction) -> u32
    ensures { result ≡ word_at index instruction }
{
    match instruction {
        Instruction::Lui(rd, imm) => form_u(LUI, rd, imm),
        Instruction::Jal(rd, target) => form_j(JAL, rd, offset(target, index)),
        Instruction::Jalr(rd, rs1, imm) => form_i(JALR, 0, rd, rs1, imm),
        Instruction::Beq(rs1, rs2, target) => form_b(BRANCH, 0, rs1, rs2, offset(target, index)),
        Instruction::Bne(rs1, rs2, target) => form_b(BRANCH, 1, rs1, rs2, offset(target, index)),
        Instruction::Blt(rs1, rs2, target) => form_b(BRANCH, 4, rs1, rs2, offset(target, index)),
        Instruction::Bge(rs1, rs2, target) => form_b(BRANCH, 5, rs1, rs2, offset(target, index)),
        Instruction::Lw(rd, rs1, imm) => form_i(LOAD, 2, rd, rs1, imm),
        Instruction::Sb(rs1, rs2, imm) => form_s(STORE, 0, rs1, rs2, imm),
        Instruction::Sw(rs1, rs2, imm) => form_s(STORE, 2, rs1, rs2, imm),
        Instruction::Addi(rd, rs1, imm) => form_i(OP_IMM, 0, rd, rs1, imm),
        Instruction::Andi(rd, rs1, imm) => form_i(OP_IMM, 7, rd, rs1, imm),
        Instruction::Srl(rd, rs1, rs2) => form_r(OP, 5, 0, rd, rs1, rs2),
        Instruction::Ecall => ECALL,
        Instruction::LrW(rd, rs1) => form_r(AMO, 2, LR, rd, rs1, Register::Zero),
        Instruction::ScW(rd, rs1, rs2) => form_r(AMO, 2, SC, rd, rs1, rs2),
    }
}

fn offset(target: u16, index: u16) -> u32
    ensures { result ≡ offset target index }
{
    (4 * u32::from(target)).wrapping_sub(4 * u32::from(index))
}

fn form_r(opcode: u32, funct3: u32, funct7: u32, rd: Register, rs1: Register, rs2: Register) -> u32
    requires opcode { opcode < 128 }
    requires funct3 { funct3 < 8 }
    requires funct7 { funct7 < 128 }
    ensures { result ≡ form_r opcode funct3 funct7 (register_number rd) (register_number rs1) (register_number rs2) }
{
    opcode
        + (rd.number() << 7)
        + (funct3 << 12)
        + (rs1.number() << 15)
        + (rs2.number() << 20)
        + (funct7 << 25)
}

fn form_i(opcode: u32, funct3: u32, rd: Register, rs1: Register, imm: u32) -> u32
    requires opcode { opcode < 128 }
    requires funct3 { funct3 < 8 }
    ensures { result ≡ form_i opcode funct3 (register_number rd) (register_number rs1) imm }
{
    opcode + (rd.number() << 7) + (funct3 << 12) + (rs1.number() << 15) + ((imm & 0xfff) << 20)
}

fn form_s(opcode: u32, funct3: u32, rs1: Register, rs2: Register, imm: u32) -> u32
    requires opcode { opcode < 128 }
    requires funct3 { funct3 < 8 }
    ensures { result ≡ form_s opcode funct3 (register_number rs1) (register_number rs2) imm }
{
    opcode
        + ((imm & 0x1f) << 7)
        + (funct3 << 12)
        + (rs1.number() << 15)
        + (rs2.number() << 20)
        + (((imm >> 5) & 0x7f) << 25)
}

fn form_b(opcode: u32, funct3: u32, rs1: Register, rs2: Register, imm: u32) -> u32
    requires opcode { opcode < 128 }
    requires funct3 { funct3 < 8 }
    ensures { result ≡ form_b opcode funct3 (register_number rs1) (register_number rs2) imm }
{
    opcode
        + (((imm >> 11) & 1) << 7)
        + (((imm >> 1) & 0xf) << 8)
        + (funct3 << 12)
        + (rs1.number() << 15)
        + (rs2.number() << 20)
        + (((imm >> 5) & 0x3f) << 25)
        + (((imm >> 12) & 1) << 31)
}

fn form_u(opcode: u32, rd: Register, imm: u32) -> u32
    requires { opcode < 128 }
    ensures { result ≡ form_u opcode (register_number rd) imm }
{
    opcode + (rd.number() << 7) + ((imm >> 12) << 12)
}

fn form_j(opcode: u32, rd: Register, imm: u32) -> u32
    requires { opcode < 128 }
    ensures { result ≡ form_j opcode (register_number rd) imm }
{
    opcode
        + (rd.number() << 7)
        + (((imm >> 12) & 0xff) << 12)
        + (((imm >> 11) & 1) << 20)
        + (((imm >> 1) & 0x3ff) << 21)
        + (((imm >> 20) & 1) << 31)
}
