// Operations on words, of integers that are 32 bits wide, in constant expressions.
ghost use Rattle.std.specs.Prelude.{◌≡◌, ◌==◌, ◌&&◌, ◌/◌, ◌%◌, ◌<◌};
ghost use Rattle.p9_lang.specs.Types.{type_of};
ghost use Rattle.p9_lang.specs.Constants as constants;
ghost use Rattle.p9_lang.specs.Constants.{divided, shifted, right_shift, value_or_undefined, word_operation, works_unsigned, narrowed, unary_constant};
ghost use Rattle.p9_base.specs.Words.{signed_quotient, signed_remainder, shift_left};
ghost use Rattle.p9_operand.specs.Told.{told_constant};

use crate::integers::is_unsigned;
use crate::operand::Constant;
use p9_base::{
    is_signed_less, low8, low16, sext8, sext16, shift_left, shift_right, shift_right_signed,
    signed_quotient, signed_remainder, word_and, word_complement, word_difference, word_negation,
    word_or, word_product, word_sum, word_xor,
};
use p9_lang::{CBinary, CType, CUnary};

// The least signed number, which isn't divided by -1.
const LEAST: u32 = 0x8000_0000;

fn truth(holds: bool) -> Constant
    ensures { told_constant result ≡ constants.Value (constants.truth holds) }
{
    if holds {
        Constant::Value(1)
    } else {
        Constant::Value(0)
    }
}

// Whether a quotient of signed numbers doesn't fit.
fn overflows(a: u32, b: u32) -> bool
    ensures { result ≡ ((a == constants.least_word) && (b == constants.minus_one)) }
{
    a == LEAST && b == u32::MAX
}

fn quotient(is_unsigned: bool, a: u32, b: u32) -> Constant
    ensures { told_constant result
        ≡ value_or_undefined (divided is_unsigned (a / b) (signed_quotient a b) a b) }
{
    if b == 0 {
        return Constant::Undefined;
    }
    if is_unsigned {
        return Constant::Value(a / b);
    }
    if overflows(a, b) {
        return Constant::Undefined;
    }
    Constant::Value(signed_quotient(a, b))
}

fn remainder(is_unsigned: bool, a: u32, b: u32) -> Constant
    ensures { told_constant result
        ≡ value_or_undefined (divided is_unsigned (a % b) (signed_remainder a b) a b) }
{
    if b == 0 {
        return Constant::Undefined;
    }
    if is_unsigned {
        return Constant::Value(a % b);
    }
    if overflows(a, b) {
        return Constant::Undefined;
    }
    Constant::Value(signed_remainder(a, b))
}

fn left_shift(a: u32, count: u32) -> Constant
    ensures { told_constant result ≡ value_or_undefined (shifted count (shift_left a count)) }
{
    if count < 32 {
        Constant::Value(shift_left(a, count))
    } else {
        Constant::Undefined
    }
}

fn right_shifted(is_unsigned: bool, a: u32, count: u32) -> u32
    requires { count < 32 }
    ensures { result ≡ right_shift is_unsigned a count }
{
    if is_unsigned {
        shift_right(a, count)
    } else {
        shift_right_signed(a, count)
    }
}

fn right_shift(is_unsigned: bool, a: u32, count: u32) -> Constant
    ensures { told_constant result
        ≡ value_or_undefined (shifted count (right_shift is_unsigned a count)) }
{
    if count < 32 {
        Constant::Value(right_shifted(is_unsigned, a, count))
    } else {
        Constant::Undefined
    }
}

fn is_less(is_unsigned: bool, a: u32, b: u32) -> bool
    ensures { result ≡ constants.is_less is_unsigned a b }
{
    if is_unsigned {
        a < b
    } else {
        is_signed_less(a, b)
    }
}

/// What an operator makes of two words, which are unsigned numbers or signed ones.
pub fn word_operation(op: CBinary, is_unsigned: bool, a: u32, b: u32) -> Constant
    ensures { told_constant result ≡ value_or_undefined (word_operation op is_unsigned a b) }
{
    match op {
        CBinary::Mul => Constant::Value(word_product(a, b)),
        CBinary::Div => quotient(is_unsigned, a, b),
        CBinary::Rem => remainder(is_unsigned, a, b),
        CBinary::Add => Constant::Value(word_sum(a, b)),
        CBinary::Sub => Constant::Value(word_difference(a, b)),
        CBinary::Shl => left_shift(a, b),
        CBinary::Shr => right_shift(is_unsigned, a, b),
        CBinary::Lt => truth(is_less(is_unsigned, a, b)),
        CBinary::Gt => truth(is_less(is_unsigned, b, a)),
        CBinary::Le => truth(!is_less(is_unsigned, b, a)),
        CBinary::Ge => truth(!is_less(is_unsigned, a, b)),
        CBinary::Eq => truth(a == b),
        CBinary::Ne => truth(a != b),
        CBinary::And => Constant::Value(word_and(a, b)),
        CBinary::Xor => Constant::Value(word_xor(a, b)),
        CBinary::Or => Constant::Value(word_or(a, b)),
        CBinary::AndAnd => truth(a != 0 && b != 0),
        CBinary::OrOr => truth(a != 0 || b != 0),
    }
}

/// What an operator makes of a word.
pub(crate) fn unary_operation(op: CUnary, word: u32) -> Constant
    ensures { told_constant result ≡ unary_constant op (constants.Value word) }
{
    match op {
        CUnary::Address | CUnary::Deref => Constant::NotConstant,
        CUnary::Plus => Constant::Value(word),
        CUnary::Minus => Constant::Value(word_negation(word)),
        CUnary::Complement => Constant::Value(word_complement(word)),
        CUnary::Not => truth(word == 0),
    }
}

/// Whether an operator works on its operands as unsigned numbers.
pub(crate) fn works_unsigned(op: CBinary, left: &CType, right: &CType) -> bool
    ensures { result ≡ works_unsigned op (type_of left.now) (type_of right.now) }
{
    match op {
        CBinary::Shl | CBinary::Shr => is_unsigned(left),
        CBinary::Mul
        | CBinary::Div
        | CBinary::Rem
        | CBinary::Add
        | CBinary::Sub
        | CBinary::Lt
        | CBinary::Gt
        | CBinary::Le
        | CBinary::Ge
        | CBinary::Eq
        | CBinary::Ne
        | CBinary::And
        | CBinary::Xor
        | CBinary::Or
        | CBinary::AndAnd
        | CBinary::OrOr => is_unsigned(left) || is_unsigned(right),
    }
}

/// A word as the value of an integer type.
#[tactic(auto, using(p9_types::proofs::Shapes::shapes))]
pub fn narrowed(ty: &CType, word: u32) -> u32
    ensures { result ≡ narrowed (type_of ty.now) word }
{
    match ty {
        CType::Char => sext8(word),
        CType::UChar => low8(word),
        CType::Short => sext16(word),
        CType::UShort => low16(word),
        CType::Void
        | CType::Int
        | CType::UInt
        | CType::Long
        | CType::ULong
        | CType::Pointer(_)
        | CType::Array(..)
        | CType::Function(..)
        | CType::Tagged(_) => word,
    }
}
