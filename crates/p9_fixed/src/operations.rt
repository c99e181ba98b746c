// Operations on numbers.
ghost use Rattle.std.specs.Prelude.{◌≡◌};
ghost use Rattle.p9_lang.specs.Types.{type_of};
ghost use Rattle.p9_lang.specs.Constants.{word_operation};
ghost use Rattle.p9_lang.specs.Initialisers.{fixed_result, pointers_unsigned, number_operation, whole_quotient};
ghost use Rattle.p9_fixed.specs.Told.{told_fixed};

use crate::kinds::Fixed;
use p9_lang::{CBinary, CType};
use p9_operand::{Constant, word_operation};
use p9_operators::works_unsigned;
use p9_types::is_pointer;

// An operation on two words.
#[tactic(auto, using(crate::proofs::Results::operation_told))]
fn fixed_words<'a>(op: CBinary, is_unsigned: bool, x: u32, y: u32) -> Fixed<'a>
    ensures { told_fixed result ≡ fixed_result (word_operation op is_unsigned x y) }
{
    match word_operation(op, is_unsigned, x, y) {
        Constant::Value(word) => Fixed::Number(word),
        Constant::NotConstant | Constant::Undefined | Constant::Null => Fixed::NotFixed,
    }
}

// Whether an operator works on its operands as unsigned numbers, where they may be pointers.
fn pointers_unsigned(left: &CType, right: &CType, op: CBinary) -> bool
    ensures { result ≡ pointers_unsigned (type_of left.now) (type_of right.now) op }
{
    works_unsigned(op, left, right) || is_pointer(left) || is_pointer(right)
}

/// An operation on two numbers, by their types.
pub(crate) fn number_operation<'a>(
    op: CBinary,
    left: &CType,
    right: &CType,
    a: Fixed<'a>,
    b: Fixed<'a>,
) -> Fixed<'a>
    ensures { told_fixed result
        ≡ number_operation op (type_of left.now) (type_of right.now) (told_fixed a.entry) (told_fixed b.entry) }
{
    match a {
        Fixed::Number(x) => match b {
            Fixed::Number(y) => fixed_words(op, pointers_unsigned(left, right, op), x, y),
            Fixed::Address { .. } | Fixed::NotFixed => Fixed::NotFixed,
        },
        Fixed::Address { .. } | Fixed::NotFixed => Fixed::NotFixed,
    }
}

/// So many bytes in elements of a size, where they are whole ones.
#[tactic(auto, using(crate::proofs::Results::no_quotient))]
pub(crate) fn whole_quotient<'a>(bytes: u32, size: u32) -> Fixed<'a>
    ensures { told_fixed result ≡ whole_quotient bytes size }
{
    if size == 0 {
        return Fixed::NotFixed;
    }
    if bytes % size == 0 {
        return fixed_words(CBinary::Div, false, bytes, size);
    }
    Fixed::NotFixed
}
