use crate::register::Register;

/// An instruction of a made guest (RISC-V Unprivileged ISA 20191213, chapter 24), with its operands in the order of
/// `rv_step`'s. Jumps and branches name their target by its index in the listing.
#[derive(Clone, Copy)]
pub(crate) enum Instruction {
    /// rd, and the immediate, of which the lowest 12 bits are 0.
    Lui(Register, u32),
    /// rd, and the target.
    Jal(Register, u16),
    /// rd, rs1 and the immediate.
    Jalr(Register, Register, u32),
    /// rs1, rs2 and the target.
    Beq(Register, Register, u16),
    Bne(Register, Register, u16),
    Blt(Register, Register, u16),
    Bge(Register, Register, u16),
    /// rd, rs1 and the immediate.
    Lw(Register, Register, u32),
    /// rs1 with the address, rs2 with the value, and the immediate.
    Sb(Register, Register, u32),
    Sw(Register, Register, u32),
    /// rd, rs1 and the immediate.
    Addi(Register, Register, u32),
    Andi(Register, Register, u32),
    /// rd, rs1 and rs2.
    Srl(Register, Register, Register),
    Ecall,
    /// rd, and rs1 with the address.
    LrW(Register, Register),
    /// rd, rs1 with the address, and rs2 with the value.
    ScW(Register, Register, Register),
}
