// The machine instruction that does the work of each abstract operation.
ghost use Rattle.std.specs.Prelude.{◌≡◌};
ghost use Rattle.p9_lines.specs.Insts.{load_inst, store_inst, access_inst, get_special, set_special, calculation, product, pair_branch, sign_branch, other_pair, other_sign};

use crate::parts::Access;
use p9_abs::{Calculation, PairTest, Product, SignTest, Special, Width};
use p9_r3k::Inst;

fn load_inst(width: Width, to: u8, base: u32, half: u32) -> Inst
    ensures { result ≡ load_inst width to base half }
{
    let rs = base;
    let rt = u32::from(to);
    let imm = half;
    match width {
        Width::Word => Inst::Lw { rs, rt, imm },
        Width::SignedHalf => Inst::Lh { rs, rt, imm },
        Width::UnsignedHalf => Inst::Lhu { rs, rt, imm },
        Width::SignedByte => Inst::Lb { rs, rt, imm },
        Width::UnsignedByte => Inst::Lbu { rs, rt, imm },
    }
}

fn store_inst(width: Width, from: u8, base: u32, half: u32) -> Inst
    ensures { result ≡ store_inst width from base half }
{
    let rs = base;
    let rt = u32::from(from);
    let imm = half;
    match width {
        Width::Word => Inst::Sw { rs, rt, imm },
        Width::SignedHalf | Width::UnsignedHalf => Inst::Sh { rs, rt, imm },
        Width::SignedByte | Width::UnsignedByte => Inst::Sb { rs, rt, imm },
    }
}

impl Access {
    pub(crate) fn inst(self, base: u32, half: u32) -> Inst
        ensures { result ≡ access_inst self base half }
    {
        match self {
            Access::Load(width, to) => load_inst(width, to, base, half),
            Access::Store(width, from) => store_inst(width, from, base, half),
            Access::Address(to) => Inst::Addiu {
                rs: base,
                rt: u32::from(to),
                imm: half,
            },
        }
    }
}

pub(crate) fn get_special(special: Special, to: u8) -> Inst
    ensures { result ≡ get_special special to }
{
    let rd = u32::from(to);
    match special {
        Special::Hi => Inst::Mfhi { rd },
        Special::Lo => Inst::Mflo { rd },
    }
}

pub(crate) fn set_special(from: u8, special: Special) -> Inst
    ensures { result ≡ set_special from special }
{
    let rs = u32::from(from);
    match special {
        Special::Hi => Inst::Mthi { rs },
        Special::Lo => Inst::Mtlo { rs },
    }
}

/// The instruction for `a, b, c`: shifts have their count in `rs`, all others their left side.
pub(crate) fn calculation(by: Calculation, a: u32, b: u32, c: u32) -> Inst
    ensures { result ≡ calculation by a b c }
{
    match by {
        Calculation::Add => Inst::Add {
            rs: b,
            rt: a,
            rd: c,
        },
        Calculation::AddU => Inst::Addu {
            rs: b,
            rt: a,
            rd: c,
        },
        Calculation::Sub => Inst::Sub {
            rs: b,
            rt: a,
            rd: c,
        },
        Calculation::SubU => Inst::Subu {
            rs: b,
            rt: a,
            rd: c,
        },
        Calculation::And => Inst::And {
            rs: b,
            rt: a,
            rd: c,
        },
        Calculation::Or => Inst::Or {
            rs: b,
            rt: a,
            rd: c,
        },
        Calculation::Xor => Inst::Xor {
            rs: b,
            rt: a,
            rd: c,
        },
        Calculation::Nor => Inst::Nor {
            rs: b,
            rt: a,
            rd: c,
        },
        Calculation::Sgt => Inst::Slt {
            rs: b,
            rt: a,
            rd: c,
        },
        Calculation::SgtU => Inst::Sltu {
            rs: b,
            rt: a,
            rd: c,
        },
        Calculation::Sll => Inst::Sllv {
            rs: a,
            rt: b,
            rd: c,
        },
        Calculation::Srl => Inst::Srlv {
            rs: a,
            rt: b,
            rd: c,
        },
        Calculation::Sra => Inst::Srav {
            rs: a,
            rt: b,
            rd: c,
        },
    }
}

pub(crate) fn product(by: Product, a: u8, b: u8) -> Inst
    ensures { result ≡ product by a b }
{
    let rs = u32::from(b);
    let rt = u32::from(a);
    match by {
        Product::Mul => Inst::Mult { rs, rt },
        Product::MulU => Inst::Multu { rs, rt },
        Product::Div => Inst::Div { rs, rt },
        Product::DivU => Inst::Divu { rs, rt },
    }
}

pub(crate) fn pair_branch(test: PairTest, a: u8, b: u8) -> Inst
    ensures { result ≡ pair_branch test a b }
{
    let rs = u32::from(a);
    let rt = u32::from(b);
    match test {
        PairTest::Equal => Inst::Beq { rs, rt, imm: 0 },
        PairTest::Unequal => Inst::Bne { rs, rt, imm: 0 },
    }
}

pub(crate) fn sign_branch(test: SignTest, a: u8) -> Inst
    ensures { result ≡ sign_branch test a }
{
    let rs = u32::from(a);
    match test {
        SignTest::NotNegative => Inst::Bgez { rs, imm: 0 },
        SignTest::Positive => Inst::Bgtz { rs, imm: 0 },
        SignTest::NotPositive => Inst::Blez { rs, imm: 0 },
        SignTest::Negative => Inst::Bltz { rs, imm: 0 },
    }
}

/// The test that holds where the other does not.
pub(crate) fn other_pair(test: PairTest) -> PairTest
    ensures { result ≡ other_pair test }
{
    match test {
        PairTest::Equal => PairTest::Unequal,
        PairTest::Unequal => PairTest::Equal,
    }
}

/// The test that holds where the other does not.
pub(crate) fn other_sign(test: SignTest) -> SignTest
    ensures { result ≡ other_sign test }
{
    match test {
        SignTest::NotNegative => SignTest::Negative,
        SignTest::Positive => SignTest::NotPositive,
        SignTest::NotPositive => SignTest::Positive,
        SignTest::Negative => SignTest::NotNegative,
    }
}
