// The table of abstract instructions: which operands are a form of an operation.
ghost use Rattle.std.specs.Prelude.{◌≡◌, map, [], ◌∷◌};
ghost use Rattle.p9_abs.specs.declared.forms.OperandKind.TheVariants.{Register, Constant};
ghost use Rattle.p9_abs.specs.Forms.{operand_kind, word_move, signed_move, unsigned_move, arithmetic, shift, multiply, pair_branch, sign_branch, jump, call, bare, form_of, decoded};

use crate::instructions::{Abs, Op, Operand};

/// What a memory operand or an address names: a byte of a symbol's, of the arguments from the first
/// one's place on, of the frame by its offset from R29 at entry modulo 2^32, from a register's
/// value on, or of an automatic.
#[derive(Clone, Copy, Debug, PartialEq, Eq)]
pub enum Location {
    Static(u32, u32),
    Argument(u32),
    Frame(u32),
    Based(u8, u32),
    Automatic(u32, u32),
}

/// HI or LO.
#[derive(Clone, Copy, Debug, PartialEq, Eq)]
pub enum Special {
    Hi,
    Lo,
}

/// What the table knows of an operand.
#[derive(Clone, Copy, Debug, PartialEq, Eq)]
pub enum OperandKind {
    Register(u8),
    Constant(u32),
    Address(Location),
    Memory(Location),
    HiLo(Special),
    Target(u32),
    Function(u32),
}

/// What a move takes of a word, and how a register's higher bits are filled from it.
#[derive(Clone, Copy, Debug, PartialEq, Eq)]
pub enum Width {
    Word,
    SignedHalf,
    UnsignedHalf,
    SignedByte,
    UnsignedByte,
}

/// An operation on two words that gives one.
#[derive(Clone, Copy, Debug, PartialEq, Eq)]
pub enum Calculation {
    Add,
    AddU,
    Sub,
    SubU,
    And,
    Or,
    Xor,
    Nor,
    Sgt,
    SgtU,
    Sll,
    Srl,
    Sra,
}

/// An operation on two words that gives HI and LO.
#[derive(Clone, Copy, Debug, PartialEq, Eq)]
pub enum Product {
    Mul,
    MulU,
    Div,
    DivU,
}

/// A test of two words.
#[derive(Clone, Copy, Debug, PartialEq, Eq)]
pub enum PairTest {
    Equal,
    Unequal,
}

/// A test of a word's sign.
#[derive(Clone, Copy, Debug, PartialEq, Eq)]
pub enum SignTest {
    NotNegative,
    Positive,
    NotPositive,
    Negative,
}

/// A form of the table with its operands, sources first.
#[derive(Clone, Copy, Debug, PartialEq, Eq)]
pub enum Form {
    Move(Width, u8, u8),
    SetConstant(u32, u8),
    SetAddress(Location, u8),
    Load(Width, Location, u8),
    Store(Width, u8, Location),
    GetHiLo(Special, u8),
    SetHiLo(u8, Special),
    Calculate(Calculation, u8, u8, u8),
    CalculateConstant(Calculation, u32, u8, u8),
    ShiftConstant(Calculation, u32, u8, u8),
    Multiply(Product, u8, u8),
    BranchPair(PairTest, u8, u8, u32),
    BranchSign(SignTest, u8, u32),
    Jump(u32),
    Call(u32),
    CallRegister(u8),
    Return,
    SystemCall,
}

/// What the table knows of an operand.
pub fn operand_kind(operand: Operand) -> OperandKind
    ensures { result ≡ operand_kind operand }
{
    match operand {
        Operand::Reg(r) => OperandKind::Register(r),
        Operand::Const(c) => OperandKind::Constant(c),
        Operand::AddrSB(symbol, offset) => OperandKind::Address(Location::Static(symbol, offset)),
        Operand::AddrFP(offset) => OperandKind::Address(Location::Argument(offset)),
        Operand::AddrSP(offset) => OperandKind::Address(Location::Frame(offset)),
        Operand::MemSB(symbol, offset) => OperandKind::Memory(Location::Static(symbol, offset)),
        Operand::MemFP(offset) => OperandKind::Memory(Location::Argument(offset)),
        Operand::MemSP(offset) => OperandKind::Memory(Location::Frame(offset)),
        Operand::MemReg(r, offset) => OperandKind::Memory(Location::Based(r, offset)),
        Operand::Label(label) => OperandKind::Target(label),
        Operand::Func(symbol) => OperandKind::Function(symbol),
        Operand::Hi => OperandKind::HiLo(Special::Hi),
        Operand::Lo => OperandKind::HiLo(Special::Lo),
        Operand::Auto(auto, offset) => OperandKind::Memory(Location::Automatic(auto, offset)),
        Operand::AutoAddr(auto, offset) => OperandKind::Address(Location::Automatic(auto, offset)),
    }
}

fn word_move(operands: &[Operand]) -> Option<Form>
    ensures { result ≡ word_move (map operand_kind operands.now) }
{
    match operands {
        [from, to] => match (operand_kind(*from), operand_kind(*to)) {
            (OperandKind::Register(a), OperandKind::Register(b)) => {
                Some(Form::Move(Width::Word, a, b))
            }
            (OperandKind::Register(a), OperandKind::Memory(b)) => {
                Some(Form::Store(Width::Word, a, b))
            }
            (OperandKind::Register(a), OperandKind::HiLo(b)) => Some(Form::SetHiLo(a, b)),
            (OperandKind::Constant(c), OperandKind::Register(b)) => Some(Form::SetConstant(c, b)),
            (OperandKind::Address(a), OperandKind::Register(b)) => Some(Form::SetAddress(a, b)),
            (OperandKind::Memory(a), OperandKind::Register(b)) => {
                Some(Form::Load(Width::Word, a, b))
            }
            (OperandKind::HiLo(a), OperandKind::Register(b)) => Some(Form::GetHiLo(a, b)),
            _ => None,
        },
        _ => None,
    }
}

fn signed_move(width: Width, operands: &[Operand]) -> Option<Form>
    ensures { result ≡ signed_move width (map operand_kind operands.now) }
{
    match operands {
        [from, to] => match (operand_kind(*from), operand_kind(*to)) {
            (OperandKind::Register(a), OperandKind::Register(b)) => Some(Form::Move(width, a, b)),
            (OperandKind::Register(a), OperandKind::Memory(b)) => Some(Form::Store(width, a, b)),
            (OperandKind::Memory(a), OperandKind::Register(b)) => Some(Form::Load(width, a, b)),
            _ => None,
        },
        _ => None,
    }
}

fn unsigned_move(width: Width, operands: &[Operand]) -> Option<Form>
    ensures { result ≡ unsigned_move width (map operand_kind operands.now) }
{
    match operands {
        [from, to] => match (operand_kind(*from), operand_kind(*to)) {
            (OperandKind::Register(a), OperandKind::Register(b)) => Some(Form::Move(width, a, b)),
            (OperandKind::Memory(a), OperandKind::Register(b)) => Some(Form::Load(width, a, b)),
            _ => None,
        },
        _ => None,
    }
}

fn arithmetic(by: Calculation, operands: &[Operand]) -> Option<Form>
    ensures { result ≡ arithmetic by (map operand_kind operands.now) }
{
    match operands {
        [first, second, to] => match (
            operand_kind(*first),
            operand_kind(*second),
            operand_kind(*to),
        ) {
            (OperandKind::Register(a), OperandKind::Register(b), OperandKind::Register(c)) => {
                Some(Form::Calculate(by, a, b, c))
            }
            (OperandKind::Constant(a), OperandKind::Register(b), OperandKind::Register(c)) => {
                Some(Form::CalculateConstant(by, a, b, c))
            }
            _ => None,
        },
        _ => None,
    }
}

fn shift_constant(by: Calculation, count: u32, from: u8, to: u8) -> Option<Form>
    ensures { result ≡ shift by (Constant count ∷ Register from ∷ Register to ∷ []) }
{
    if count < 32 {
        Some(Form::ShiftConstant(by, count, from, to))
    } else {
        None
    }
}

fn shift(by: Calculation, operands: &[Operand]) -> Option<Form>
    ensures { result ≡ shift by (map operand_kind operands.now) }
{
    match operands {
        [first, second, to] => match (
            operand_kind(*first),
            operand_kind(*second),
            operand_kind(*to),
        ) {
            (OperandKind::Register(a), OperandKind::Register(b), OperandKind::Register(c)) => {
                Some(Form::Calculate(by, a, b, c))
            }
            (OperandKind::Constant(a), OperandKind::Register(b), OperandKind::Register(c)) => {
                shift_constant(by, a, b, c)
            }
            _ => None,
        },
        _ => None,
    }
}

fn multiply(by: Product, operands: &[Operand]) -> Option<Form>
    ensures { result ≡ multiply by (map operand_kind operands.now) }
{
    match operands {
        [first, second] => match (operand_kind(*first), operand_kind(*second)) {
            (OperandKind::Register(a), OperandKind::Register(b)) => Some(Form::Multiply(by, a, b)),
            _ => None,
        },
        _ => None,
    }
}

fn pair_branch(test: PairTest, operands: &[Operand]) -> Option<Form>
    ensures { result ≡ pair_branch test (map operand_kind operands.now) }
{
    match operands {
        [first, second, to] => match (
            operand_kind(*first),
            operand_kind(*second),
            operand_kind(*to),
        ) {
            (OperandKind::Register(a), OperandKind::Register(b), OperandKind::Target(l)) => {
                Some(Form::BranchPair(test, a, b, l))
            }
            _ => None,
        },
        _ => None,
    }
}

fn sign_branch(test: SignTest, operands: &[Operand]) -> Option<Form>
    ensures { result ≡ sign_branch test (map operand_kind operands.now) }
{
    match operands {
        [first, to] => match (operand_kind(*first), operand_kind(*to)) {
            (OperandKind::Register(a), OperandKind::Target(l)) => {
                Some(Form::BranchSign(test, a, l))
            }
            _ => None,
        },
        _ => None,
    }
}

fn jump(operands: &[Operand]) -> Option<Form>
    ensures { result ≡ jump (map operand_kind operands.now) }
{
    match operands {
        [to] => match operand_kind(*to) {
            OperandKind::Target(l) => Some(Form::Jump(l)),
            _ => None,
        },
        _ => None,
    }
}

fn call(operands: &[Operand]) -> Option<Form>
    ensures { result ≡ call (map operand_kind operands.now) }
{
    match operands {
        [to] => match operand_kind(*to) {
            OperandKind::Function(symbol) => Some(Form::Call(symbol)),
            OperandKind::Register(a) => Some(Form::CallRegister(a)),
            _ => None,
        },
        _ => None,
    }
}

fn bare(form: Form, operands: &[Operand]) -> Option<Form>
    ensures { result ≡ bare form (map operand_kind operands.now) }
{
    if operands.is_empty() {
        Some(form)
    } else {
        None
    }
}

/// The form that an operation and its operands are, by the table, or none.
pub fn form_of(op: Op, operands: &[Operand]) -> Option<Form>
    ensures { result ≡ form_of op operands.now }
{
    match op {
        Op::MovW => word_move(operands),
        Op::MovH => signed_move(Width::SignedHalf, operands),
        Op::MovHU => unsigned_move(Width::UnsignedHalf, operands),
        Op::MovB => signed_move(Width::SignedByte, operands),
        Op::MovBU => unsigned_move(Width::UnsignedByte, operands),
        Op::Add => arithmetic(Calculation::Add, operands),
        Op::AddU => arithmetic(Calculation::AddU, operands),
        Op::Sub => arithmetic(Calculation::Sub, operands),
        Op::SubU => arithmetic(Calculation::SubU, operands),
        Op::And => arithmetic(Calculation::And, operands),
        Op::Or => arithmetic(Calculation::Or, operands),
        Op::Xor => arithmetic(Calculation::Xor, operands),
        Op::Nor => arithmetic(Calculation::Nor, operands),
        Op::Sgt => arithmetic(Calculation::Sgt, operands),
        Op::SgtU => arithmetic(Calculation::SgtU, operands),
        Op::Sll => shift(Calculation::Sll, operands),
        Op::Srl => shift(Calculation::Srl, operands),
        Op::Sra => shift(Calculation::Sra, operands),
        Op::Mul => multiply(Product::Mul, operands),
        Op::MulU => multiply(Product::MulU, operands),
        Op::Div => multiply(Product::Div, operands),
        Op::DivU => multiply(Product::DivU, operands),
        Op::Beq => pair_branch(PairTest::Equal, operands),
        Op::Bne => pair_branch(PairTest::Unequal, operands),
        Op::Bgez => sign_branch(SignTest::NotNegative, operands),
        Op::Bgtz => sign_branch(SignTest::Positive, operands),
        Op::Blez => sign_branch(SignTest::NotPositive, operands),
        Op::Bltz => sign_branch(SignTest::Negative, operands),
        Op::Jmp => jump(operands),
        Op::Jal => call(operands),
        Op::Ret => bare(Form::Return, operands),
        Op::Syscall => bare(Form::SystemCall, operands),
    }
}

/// The form that the instruction is, or none.
pub fn decoded(a: &Abs) -> Option<Form>
    ensures { result ≡ decoded a.now }
{
    form_of(a.op, &a.operands.list)
}
