// Words of every row, as another assembler writes them, and words of none.

use p9_r3k::{Inst, decode, encode};
use std::test::Fail;

/// A word of each row with its instruction; no two fields of a word are equal.
static ROWS: [(u32, Inst); 54] = [
    (0x0831_7200, Inst::J { index: 0x0031_7200 }),
    (0x0e54_c662, Inst::Jal { index: 0x0254_c662 }),
    (
        0x1067_3782,
        Inst::Beq {
            rs: 3,
            rt: 7,
            imm: 0x3782,
        },
    ),
    (
        0x144e_69d7,
        Inst::Bne {
            rs: 2,
            rt: 14,
            imm: 0x69d7,
        },
    ),
    (
        0x19a0_0659,
        Inst::Blez {
            rs: 13,
            imm: 0x0659,
        },
    ),
    (
        0x1dc0_9e27,
        Inst::Bgtz {
            rs: 14,
            imm: 0x9e27,
        },
    ),
    (0x0480_b018, Inst::Bltz { rs: 4, imm: 0xb018 }),
    (
        0x0661_b4b9,
        Inst::Bgez {
            rs: 19,
            imm: 0xb4b9,
        },
    ),
    (
        0x0570_f403,
        Inst::Bltzal {
            rs: 11,
            imm: 0xf403,
        },
    ),
    (
        0x06f1_63d2,
        Inst::Bgezal {
            rs: 23,
            imm: 0x63d2,
        },
    ),
    (
        0x23b0_f2e6,
        Inst::Addi {
            rs: 29,
            rt: 16,
            imm: 0xf2e6,
        },
    ),
    (
        0x25d1_151e,
        Inst::Addiu {
            rs: 14,
            rt: 17,
            imm: 0x151e,
        },
    ),
    (
        0x2be2_93de,
        Inst::Slti {
            rs: 31,
            rt: 2,
            imm: 0x93de,
        },
    ),
    (
        0x2e14_4a3b,
        Inst::Sltiu {
            rs: 16,
            rt: 20,
            imm: 0x4a3b,
        },
    ),
    (
        0x3209_5939,
        Inst::Andi {
            rs: 16,
            rt: 9,
            imm: 0x5939,
        },
    ),
    (
        0x3675_f215,
        Inst::Ori {
            rs: 19,
            rt: 21,
            imm: 0xf215,
        },
    ),
    (
        0x3996_f631,
        Inst::Xori {
            rs: 12,
            rt: 22,
            imm: 0xf631,
        },
    ),
    (0x3c02_1bef, Inst::Lui { rt: 2, imm: 0x1bef }),
    (
        0x839e_3f8e,
        Inst::Lb {
            rs: 28,
            rt: 30,
            imm: 0x3f8e,
        },
    ),
    (
        0x87a9_ee36,
        Inst::Lh {
            rs: 29,
            rt: 9,
            imm: 0xee36,
        },
    ),
    (
        0x8fb6_30b3,
        Inst::Lw {
            rs: 29,
            rt: 22,
            imm: 0x30b3,
        },
    ),
    (
        0x92c8_8316,
        Inst::Lbu {
            rs: 22,
            rt: 8,
            imm: 0x8316,
        },
    ),
    (
        0x9549_a54b,
        Inst::Lhu {
            rs: 10,
            rt: 9,
            imm: 0xa54b,
        },
    ),
    (
        0xa173_7a00,
        Inst::Sb {
            rs: 11,
            rt: 19,
            imm: 0x7a00,
        },
    ),
    (
        0xa7f9_e472,
        Inst::Sh {
            rs: 31,
            rt: 25,
            imm: 0xe472,
        },
    ),
    (
        0xac55_1866,
        Inst::Sw {
            rs: 2,
            rt: 21,
            imm: 0x1866,
        },
    ),
    (
        0x0014_5900,
        Inst::Sll {
            rt: 20,
            rd: 11,
            sh: 4,
        },
    ),
    (
        0x0005_9842,
        Inst::Srl {
            rt: 5,
            rd: 19,
            sh: 1,
        },
    ),
    (
        0x0014_67c3,
        Inst::Sra {
            rt: 20,
            rd: 12,
            sh: 31,
        },
    ),
    (
        0x0287_e004,
        Inst::Sllv {
            rs: 20,
            rt: 7,
            rd: 28,
        },
    ),
    (
        0x03e9_a806,
        Inst::Srlv {
            rs: 31,
            rt: 9,
            rd: 21,
        },
    ),
    (
        0x0384_8007,
        Inst::Srav {
            rs: 28,
            rt: 4,
            rd: 16,
        },
    ),
    (0x00a0_0008, Inst::Jr { rs: 5 }),
    (0x0200_4809, Inst::Jalr { rs: 16, rd: 9 }),
    (0x00d2_240c, Inst::Syscall { code: 0x0003_4890 }),
    (0x022c_358d, Inst::Break { code: 0x0008_b0d6 }),
    (0x0000_5010, Inst::Mfhi { rd: 10 }),
    (0x0120_0011, Inst::Mthi { rs: 9 }),
    (0x0000_c812, Inst::Mflo { rd: 25 }),
    (0x0160_0013, Inst::Mtlo { rs: 11 }),
    (0x033a_0018, Inst::Mult { rs: 25, rt: 26 }),
    (0x0368_0019, Inst::Multu { rs: 27, rt: 8 }),
    (0x00e8_001a, Inst::Div { rs: 7, rt: 8 }),
    (0x0038_001b, Inst::Divu { rs: 1, rt: 24 }),
    (
        0x00f0_4820,
        Inst::Add {
            rs: 7,
            rt: 16,
            rd: 9,
        },
    ),
    (
        0x01ec_f821,
        Inst::Addu {
            rs: 15,
            rt: 12,
            rd: 31,
        },
    ),
    (
        0x03ec_c022,
        Inst::Sub {
            rs: 31,
            rt: 12,
            rd: 24,
        },
    ),
    (
        0x0204_4023,
        Inst::Subu {
            rs: 16,
            rt: 4,
            rd: 8,
        },
    ),
    (
        0x03b4_8024,
        Inst::And {
            rs: 29,
            rt: 20,
            rd: 16,
        },
    ),
    (
        0x03d0_0825,
        Inst::Or {
            rs: 30,
            rt: 16,
            rd: 1,
        },
    ),
    (
        0x0363_d026,
        Inst::Xor {
            rs: 27,
            rt: 3,
            rd: 26,
        },
    ),
    (
        0x034d_f027,
        Inst::Nor {
            rs: 26,
            rt: 13,
            rd: 30,
        },
    ),
    (
        0x03b0_382a,
        Inst::Slt {
            rs: 29,
            rt: 16,
            rd: 7,
        },
    ),
    (
        0x0175_d02b,
        Inst::Sltu {
            rs: 11,
            rt: 21,
            rd: 26,
        },
    ),
];

/// Words of a row but for one bit of a field that the row doesn't use.
static UNUSED_FIELDS: [u32; 44] = [
    0x1801_0000,
    0x1c01_0000,
    0x3c20_0000,
    0x0020_0000,
    0x0020_0002,
    0x0020_0003,
    0x0000_0044,
    0x0000_0046,
    0x0000_0047,
    0x0001_0008,
    0x0000_0808,
    0x0000_0048,
    0x0001_0009,
    0x0000_0049,
    0x0020_0010,
    0x0001_0010,
    0x0000_0050,
    0x0001_0011,
    0x0000_0811,
    0x0000_0051,
    0x0020_0012,
    0x0001_0012,
    0x0000_0052,
    0x0001_0013,
    0x0000_0813,
    0x0000_0053,
    0x0000_0818,
    0x0000_0058,
    0x0000_0819,
    0x0000_0059,
    0x0000_081a,
    0x0000_005a,
    0x0000_081b,
    0x0000_005b,
    0x0000_0060,
    0x0000_0061,
    0x0000_0062,
    0x0000_0063,
    0x0000_0064,
    0x0000_0065,
    0x0000_0066,
    0x0000_0067,
    0x0000_006a,
    0x0000_006b,
];

/// The numbers of `op`, of `fn` under op 0 and of `rt` under op 1 that no row has.
static NO_OP: [u32; 40] = [
    16, 17, 18, 19, 20, 21, 22, 23, 24, 25, 26, 27, 28, 29, 30, 31, 34, 38, 39, 42, 44, 45, 46, 47,
    48, 49, 50, 51, 52, 53, 54, 55, 56, 57, 58, 59, 60, 61, 62, 63,
];

static NO_FUNCTION: [u32; 36] = [
    1, 5, 10, 11, 14, 15, 20, 21, 22, 23, 28, 29, 30, 31, 40, 41, 44, 45, 46, 47, 48, 49, 50, 51,
    52, 53, 54, 55, 56, 57, 58, 59, 60, 61, 62, 63,
];

static NO_BRANCH: [u32; 28] = [
    2, 3, 4, 5, 6, 7, 8, 9, 10, 11, 12, 13, 14, 15, 18, 19, 20, 21, 22, 23, 24, 25, 26, 27, 28, 29,
    30, 31,
];

#[test]
fn rows_are_read_and_written(rt: HostRuntime) -> Result<(), Fail> {
    for (word, inst) in &ROWS {
        let found = decode(*word).ok_or("no row")?;
        assert_eq!(rt; found, *inst);
        assert_eq!(rt; encode(&found), *word);
    }
    Ok(())
}

#[test]
fn other_words_are_of_no_row(rt: HostRuntime) {
    for word in &UNUSED_FIELDS {
        assert_eq!(rt; decode(*word), None, "at {word:08x}");
    }
    for op in &NO_OP {
        assert_eq!(rt; decode(op.wrapping_mul(0x400_0000)), None, "at op {op}");
    }
    for function in &NO_FUNCTION {
        assert_eq!(rt; decode(*function), None, "at function {function}");
    }
    for branch in &NO_BRANCH {
        assert_eq!(rt;
            decode(branch.wrapping_mul(0x1_0000).wrapping_add(0x400_0000)),
            None,
            "at branch {branch}"
        );
    }
}
