// Words of instructions.

ghost use Rattle.std.specs.Prelude.{◌≡◌, ◌<◌, ◌^◌, IfSome};
ghost use Rattle.p9_r3k.specs.Fields.{op_of, rs_of, rt_of, rd_of, sh_of, fn_of, imm_of, index_of, code_of, r_word, i_word, j_word, c_word};
ghost use Rattle.p9_r3k.specs.Table.{Fits, word_of, decoded, special, regimm};
ghost use Rattle.p9_r3k.specs.declared.inst.Inst.{Inst};

use crate::inst::Inst;

fn op_field(w: u32) -> u32
    ensures { result ≡ op_of w }
{
    w / 0x400_0000
}

fn rs_field(w: u32) -> u32
    ensures { result ≡ rs_of w }
{
    w / 0x20_0000 % 32
}

fn rt_field(w: u32) -> u32
    ensures { result ≡ rt_of w }
{
    w / 0x1_0000 % 32
}

fn rd_field(w: u32) -> u32
    ensures { result ≡ rd_of w }
{
    w / 0x800 % 32
}

fn sh_field(w: u32) -> u32
    ensures { result ≡ sh_of w }
{
    w / 64 % 32
}

fn fn_field(w: u32) -> u32
    ensures { result ≡ fn_of w }
{
    w % 64
}

fn imm_field(w: u32) -> u32
    ensures { result ≡ imm_of w }
{
    w % 0x1_0000
}

fn index_field(w: u32) -> u32
    ensures { result ≡ index_of w }
{
    w % 0x400_0000
}

fn code_field(w: u32) -> u32
    ensures { result ≡ code_of w }
{
    w / 64 % 0x10_0000
}

fn r_type(rs: u32, rt: u32, rd: u32, sh: u32, function: u32) -> u32
    requires rs { rs < 32 }
    requires rt { rt < 32 }
    requires rd { rd < 32 }
    requires sh { sh < 32 }
    requires function { function < 64 }
    ensures { result ≡ r_word rs rt rd sh function }
{
    rs * 0x20_0000 + rt * 0x1_0000 + rd * 0x800 + sh * 64 + function
}

fn i_type(op: u32, rs: u32, rt: u32, imm: u32) -> u32
    requires op { op < 64 }
    requires rs { rs < 32 }
    requires rt { rt < 32 }
    requires imm { imm < 2 ^ 16 }
    ensures { result ≡ i_word op rs rt imm }
{
    op * 0x400_0000 + rs * 0x20_0000 + rt * 0x1_0000 + imm
}

fn j_type(op: u32, index: u32) -> u32
    requires op { op < 64 }
    requires index { index < 2 ^ 26 }
    ensures { result ≡ j_word op index }
{
    op * 0x400_0000 + index
}

fn c_type(code: u32, function: u32) -> u32
    requires code { code < 2 ^ 20 }
    requires function { function < 64 }
    ensures { result ≡ c_word code function }
{
    code * 64 + function
}

/// The word of an instruction.
pub fn encode(i: &Inst) -> u32
    requires { Fits i.now }
    ensures { result ≡ word_of i.now }
{
    match *i {
        Inst::J { index } => j_type(2, index),
        Inst::Jal { index } => j_type(3, index),
        Inst::Beq { rs, rt, imm } => i_type(4, rs, rt, imm),
        Inst::Bne { rs, rt, imm } => i_type(5, rs, rt, imm),
        Inst::Blez { rs, imm } => i_type(6, rs, 0, imm),
        Inst::Bgtz { rs, imm } => i_type(7, rs, 0, imm),
        Inst::Bltz { rs, imm } => i_type(1, rs, 0, imm),
        Inst::Bgez { rs, imm } => i_type(1, rs, 1, imm),
        Inst::Bltzal { rs, imm } => i_type(1, rs, 16, imm),
        Inst::Bgezal { rs, imm } => i_type(1, rs, 17, imm),
        Inst::Addi { rs, rt, imm } => i_type(8, rs, rt, imm),
        Inst::Addiu { rs, rt, imm } => i_type(9, rs, rt, imm),
        Inst::Slti { rs, rt, imm } => i_type(10, rs, rt, imm),
        Inst::Sltiu { rs, rt, imm } => i_type(11, rs, rt, imm),
        Inst::Andi { rs, rt, imm } => i_type(12, rs, rt, imm),
        Inst::Ori { rs, rt, imm } => i_type(13, rs, rt, imm),
        Inst::Xori { rs, rt, imm } => i_type(14, rs, rt, imm),
        Inst::Lui { rt, imm } => i_type(15, 0, rt, imm),
        Inst::Lb { rs, rt, imm } => i_type(32, rs, rt, imm),
        Inst::Lh { rs, rt, imm } => i_type(33, rs, rt, imm),
        Inst::Lw { rs, rt, imm } => i_type(35, rs, rt, imm),
        Inst::Lbu { rs, rt, imm } => i_type(36, rs, rt, imm),
        Inst::Lhu { rs, rt, imm } => i_type(37, rs, rt, imm),
        Inst::Sb { rs, rt, imm } => i_type(40, rs, rt, imm),
        Inst::Sh { rs, rt, imm } => i_type(41, rs, rt, imm),
        Inst::Sw { rs, rt, imm } => i_type(43, rs, rt, imm),
        Inst::Sll { rt, rd, sh } => r_type(0, rt, rd, sh, 0),
        Inst::Srl { rt, rd, sh } => r_type(0, rt, rd, sh, 2),
        Inst::Sra { rt, rd, sh } => r_type(0, rt, rd, sh, 3),
        Inst::Sllv { rs, rt, rd } => r_type(rs, rt, rd, 0, 4),
        Inst::Srlv { rs, rt, rd } => r_type(rs, rt, rd, 0, 6),
        Inst::Srav { rs, rt, rd } => r_type(rs, rt, rd, 0, 7),
        Inst::Jr { rs } => r_type(rs, 0, 0, 0, 8),
        Inst::Jalr { rs, rd } => r_type(rs, 0, rd, 0, 9),
        Inst::Syscall { code } => c_type(code, 12),
        Inst::Break { code } => c_type(code, 13),
        Inst::Mfhi { rd } => r_type(0, 0, rd, 0, 16),
        Inst::Mthi { rs } => r_type(rs, 0, 0, 0, 17),
        Inst::Mflo { rd } => r_type(0, 0, rd, 0, 18),
        Inst::Mtlo { rs } => r_type(rs, 0, 0, 0, 19),
        Inst::Mult { rs, rt } => r_type(rs, rt, 0, 0, 24),
        Inst::Multu { rs, rt } => r_type(rs, rt, 0, 0, 25),
        Inst::Div { rs, rt } => r_type(rs, rt, 0, 0, 26),
        Inst::Divu { rs, rt } => r_type(rs, rt, 0, 0, 27),
        Inst::Add { rs, rt, rd } => r_type(rs, rt, rd, 0, 32),
        Inst::Addu { rs, rt, rd } => r_type(rs, rt, rd, 0, 33),
        Inst::Sub { rs, rt, rd } => r_type(rs, rt, rd, 0, 34),
        Inst::Subu { rs, rt, rd } => r_type(rs, rt, rd, 0, 35),
        Inst::And { rs, rt, rd } => r_type(rs, rt, rd, 0, 36),
        Inst::Or { rs, rt, rd } => r_type(rs, rt, rd, 0, 37),
        Inst::Xor { rs, rt, rd } => r_type(rs, rt, rd, 0, 38),
        Inst::Nor { rs, rt, rd } => r_type(rs, rt, rd, 0, 39),
        Inst::Slt { rs, rt, rd } => r_type(rs, rt, rd, 0, 42),
        Inst::Sltu { rs, rt, rd } => r_type(rs, rt, rd, 0, 43),
    }
}

/// The instruction of a word under op 0.
#[inline(always)]
fn special_row(w: u32) -> Option<Inst>
    requires { op_of w ≡ 0 }
    ensures exact { result ≡ special w }
    ensures found { IfSome result (λ i. Fits i × (word_of i ≡ w)) }
{
    match fn_field(w) {
        0 if rs_field(w) == 0 => Some(Inst::Sll {
            rt: rt_field(w),
            rd: rd_field(w),
            sh: sh_field(w),
        }),
        2 if rs_field(w) == 0 => Some(Inst::Srl {
            rt: rt_field(w),
            rd: rd_field(w),
            sh: sh_field(w),
        }),
        3 if rs_field(w) == 0 => Some(Inst::Sra {
            rt: rt_field(w),
            rd: rd_field(w),
            sh: sh_field(w),
        }),
        4 if sh_field(w) == 0 => Some(Inst::Sllv {
            rs: rs_field(w),
            rt: rt_field(w),
            rd: rd_field(w),
        }),
        6 if sh_field(w) == 0 => Some(Inst::Srlv {
            rs: rs_field(w),
            rt: rt_field(w),
            rd: rd_field(w),
        }),
        7 if sh_field(w) == 0 => Some(Inst::Srav {
            rs: rs_field(w),
            rt: rt_field(w),
            rd: rd_field(w),
        }),
        8 if rt_field(w) == 0 && rd_field(w) == 0 && sh_field(w) == 0 => Some(Inst::Jr {
            rs: rs_field(w),
        }),
        9 if rt_field(w) == 0 && sh_field(w) == 0 => Some(Inst::Jalr {
            rs: rs_field(w),
            rd: rd_field(w),
        }),
        12 => Some(Inst::Syscall {
            code: code_field(w),
        }),
        13 => Some(Inst::Break {
            code: code_field(w),
        }),
        16 if rs_field(w) == 0 && rt_field(w) == 0 && sh_field(w) == 0 => Some(Inst::Mfhi {
            rd: rd_field(w),
        }),
        17 if rt_field(w) == 0 && rd_field(w) == 0 && sh_field(w) == 0 => Some(Inst::Mthi {
            rs: rs_field(w),
        }),
        18 if rs_field(w) == 0 && rt_field(w) == 0 && sh_field(w) == 0 => Some(Inst::Mflo {
            rd: rd_field(w),
        }),
        19 if rt_field(w) == 0 && rd_field(w) == 0 && sh_field(w) == 0 => Some(Inst::Mtlo {
            rs: rs_field(w),
        }),
        24 if rd_field(w) == 0 && sh_field(w) == 0 => Some(Inst::Mult {
            rs: rs_field(w),
            rt: rt_field(w),
        }),
        25 if rd_field(w) == 0 && sh_field(w) == 0 => Some(Inst::Multu {
            rs: rs_field(w),
            rt: rt_field(w),
        }),
        26 if rd_field(w) == 0 && sh_field(w) == 0 => Some(Inst::Div {
            rs: rs_field(w),
            rt: rt_field(w),
        }),
        27 if rd_field(w) == 0 && sh_field(w) == 0 => Some(Inst::Divu {
            rs: rs_field(w),
            rt: rt_field(w),
        }),
        32 if sh_field(w) == 0 => Some(Inst::Add {
            rs: rs_field(w),
            rt: rt_field(w),
            rd: rd_field(w),
        }),
        33 if sh_field(w) == 0 => Some(Inst::Addu {
            rs: rs_field(w),
            rt: rt_field(w),
            rd: rd_field(w),
        }),
        34 if sh_field(w) == 0 => Some(Inst::Sub {
            rs: rs_field(w),
            rt: rt_field(w),
            rd: rd_field(w),
        }),
        35 if sh_field(w) == 0 => Some(Inst::Subu {
            rs: rs_field(w),
            rt: rt_field(w),
            rd: rd_field(w),
        }),
        36 if sh_field(w) == 0 => Some(Inst::And {
            rs: rs_field(w),
            rt: rt_field(w),
            rd: rd_field(w),
        }),
        37 if sh_field(w) == 0 => Some(Inst::Or {
            rs: rs_field(w),
            rt: rt_field(w),
            rd: rd_field(w),
        }),
        38 if sh_field(w) == 0 => Some(Inst::Xor {
            rs: rs_field(w),
            rt: rt_field(w),
            rd: rd_field(w),
        }),
        39 if sh_field(w) == 0 => Some(Inst::Nor {
            rs: rs_field(w),
            rt: rt_field(w),
            rd: rd_field(w),
        }),
        42 if sh_field(w) == 0 => Some(Inst::Slt {
            rs: rs_field(w),
            rt: rt_field(w),
            rd: rd_field(w),
        }),
        43 if sh_field(w) == 0 => Some(Inst::Sltu {
            rs: rs_field(w),
            rt: rt_field(w),
            rd: rd_field(w),
        }),
        _ => None,
    }
}

/// The instruction of a word under op 1.
#[inline(always)]
fn regimm_row(w: u32) -> Option<Inst>
    requires { op_of w ≡ 1 }
    ensures exact { result ≡ regimm w }
    ensures found { IfSome result (λ i. Fits i × (word_of i ≡ w)) }
{
    match rt_field(w) {
        0 => Some(Inst::Bltz {
            rs: rs_field(w),
            imm: imm_field(w),
        }),
        1 => Some(Inst::Bgez {
            rs: rs_field(w),
            imm: imm_field(w),
        }),
        16 => Some(Inst::Bltzal {
            rs: rs_field(w),
            imm: imm_field(w),
        }),
        17 => Some(Inst::Bgezal {
            rs: rs_field(w),
            imm: imm_field(w),
        }),
        _ => None,
    }
}

/// The instruction of a word under any op.
#[tactic(auto, unfolding(crate::specs::Table::decoded))]
#[inline(always)]
fn any_row(w: u32) -> Option<Inst>
    ensures exact { result ≡ decoded w }
    ensures found { IfSome result (λ i. Fits i × (word_of i ≡ w)) }
{
    match op_field(w) {
        0 => special_row(w),
        1 => regimm_row(w),
        2 => Some(Inst::J {
            index: index_field(w),
        }),
        3 => Some(Inst::Jal {
            index: index_field(w),
        }),
        4 => Some(Inst::Beq {
            rs: rs_field(w),
            rt: rt_field(w),
            imm: imm_field(w),
        }),
        5 => Some(Inst::Bne {
            rs: rs_field(w),
            rt: rt_field(w),
            imm: imm_field(w),
        }),
        6 if rt_field(w) == 0 => Some(Inst::Blez {
            rs: rs_field(w),
            imm: imm_field(w),
        }),
        7 if rt_field(w) == 0 => Some(Inst::Bgtz {
            rs: rs_field(w),
            imm: imm_field(w),
        }),
        8 => Some(Inst::Addi {
            rs: rs_field(w),
            rt: rt_field(w),
            imm: imm_field(w),
        }),
        9 => Some(Inst::Addiu {
            rs: rs_field(w),
            rt: rt_field(w),
            imm: imm_field(w),
        }),
        10 => Some(Inst::Slti {
            rs: rs_field(w),
            rt: rt_field(w),
            imm: imm_field(w),
        }),
        11 => Some(Inst::Sltiu {
            rs: rs_field(w),
            rt: rt_field(w),
            imm: imm_field(w),
        }),
        12 => Some(Inst::Andi {
            rs: rs_field(w),
            rt: rt_field(w),
            imm: imm_field(w),
        }),
        13 => Some(Inst::Ori {
            rs: rs_field(w),
            rt: rt_field(w),
            imm: imm_field(w),
        }),
        14 => Some(Inst::Xori {
            rs: rs_field(w),
            rt: rt_field(w),
            imm: imm_field(w),
        }),
        15 if rs_field(w) == 0 => Some(Inst::Lui {
            rt: rt_field(w),
            imm: imm_field(w),
        }),
        32 => Some(Inst::Lb {
            rs: rs_field(w),
            rt: rt_field(w),
            imm: imm_field(w),
        }),
        33 => Some(Inst::Lh {
            rs: rs_field(w),
            rt: rt_field(w),
            imm: imm_field(w),
        }),
        35 => Some(Inst::Lw {
            rs: rs_field(w),
            rt: rt_field(w),
            imm: imm_field(w),
        }),
        36 => Some(Inst::Lbu {
            rs: rs_field(w),
            rt: rt_field(w),
            imm: imm_field(w),
        }),
        37 => Some(Inst::Lhu {
            rs: rs_field(w),
            rt: rt_field(w),
            imm: imm_field(w),
        }),
        40 => Some(Inst::Sb {
            rs: rs_field(w),
            rt: rt_field(w),
            imm: imm_field(w),
        }),
        41 => Some(Inst::Sh {
            rs: rs_field(w),
            rt: rt_field(w),
            imm: imm_field(w),
        }),
        43 => Some(Inst::Sw {
            rs: rs_field(w),
            rt: rt_field(w),
            imm: imm_field(w),
        }),
        _ => None,
    }
}

/// The instruction of a word, or none where the word is of no row.
#[inline(always)]
pub fn decode(w: u32) -> Option<Inst>
    ensures exact { result ≡ decoded w }
    ensures found { IfSome result (λ i. Fits i × (word_of i ≡ w)) }
    ensures again { (i : Inst) → Fits i → w ≡ word_of i → result ≡ Some i }
{
    any_row(w)
}
