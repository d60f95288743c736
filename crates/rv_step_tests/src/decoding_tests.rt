// Words are from the RISC-V Unprivileged ISA 20191213.
use rv_step::{Instr, decode};

#[test]
fn illegal_words(rt: HostRuntime) {
    let cases = [
        (0x0000_0001, "compressed"),
        (0x0000_0000, "zeros"),
        (0xffff_ffff, "ones"),
        (0x0202_9313, "SLLI with funct7 1"),
        (0x0202_d313, "SRLI with funct7 1"),
        (0x4202_d313, "SRAI with funct7 33"),
        (0x0272_8333, "OP with funct7 1, MUL"),
        (0x4072_9333, "SLL with funct7 32"),
        (0x0002_b303, "LOAD with funct3 3"),
        (0x0002_e303, "LOAD with funct3 6"),
        (0x0002_f303, "LOAD with funct3 7"),
        (0x0072_b023, "STORE with funct3 3"),
        (0x0072_a063, "BRANCH with funct3 2"),
        (0x0072_b063, "BRANCH with funct3 3"),
        (0x0002_9367, "JALR with funct3 1"),
        (0x0072_b32f, "AMO with funct3 3"),
        (0x2872_a32f, "AMO with funct5 5"),
        (0x1012_a32f, "LR.W with rs2 1"),
        (0x3000_1073, "CSRRW"),
        (0x0000_00f3, "ECALL with rd 1"),
        (0x1050_0073, "WFI"),
        (0x0000_100f, "FENCE.I"),
    ];
    for (word, name) in cases {
        assert!(rt; decode(word).is_none(), "{name}");
    }
}

#[test]
fn legal_words(rt: HostRuntime) {
    // all of FENCE's other fields set
    assert!(rt; matches!(decode(0xffff_8f8f), Some(Instr::Fence)));
    // aq and rl set
    assert!(rt; matches!(decode(0x1602_a32f), Some(Instr::LrW { rd: 6, rs1: 5 })));
    assert!(rt;
        matches!(
            decode(0x1e72_a32f),
            Some(Instr::ScW {
                rd: 6,
                rs1: 5,
                rs2: 7
            })
        )
    );
    assert!(rt;
        matches!(
            decode(0xe672_a32f),
            Some(Instr::AmomaxuW {
                rd: 6,
                rs1: 5,
                rs2: 7
            })
        )
    );
    // immediates: the longest shift, and signs that are extended
    assert!(rt;
        matches!(
            decode(0x41f2_d313),
            Some(Instr::Srai {
                rd: 6,
                rs1: 5,
                imm: 31
            })
        )
    );
    assert!(rt;
        matches!(
            decode(0x8002_8313),
            Some(Instr::Addi {
                rd: 6,
                rs1: 5,
                imm: 0xffff_f800
            })
        )
    );
    assert!(rt;
        matches!(
            decode(0x8000_00e3),
            Some(Instr::Beq {
                rs1: 0,
                rs2: 0,
                imm: 0xffff_f800
            })
        )
    );
    assert!(rt;
        matches!(
            decode(0x8000_00ef),
            Some(Instr::Jal {
                rd: 1,
                imm: 0xfff0_0000
            })
        )
    );
}
