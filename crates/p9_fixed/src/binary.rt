// Operators of two operands.
ghost use Rattle.std.specs.Prelude.{◌≡◌, IfOk};
ghost use Rattle.p9_lang.specs.Types.{type_of, tags_of};
ghost use Rattle.p9_lang.specs.TagRules.{NoneContainsItself};
ghost use Rattle.p9_lang.specs.Initialisers.{fixed_binary};
ghost use Rattle.p9_fixed.specs.Told.{told_fixed};

use crate::choosing::{both_true, one_true};
use crate::kinds::Fixed;
use crate::operations::number_operation;
use crate::pointers::{fixed_difference, fixed_sum};
use p9_base::NoMemory;
use p9_lang::{CBinary, CType, Tags};
use std::alloc::Global;

/// What an operator makes of two operands, by the types of their values.
pub(crate) fn fixed_binary<'a>(
    alloc: Global,
    tags: &Tags,
    op: CBinary,
    left: &CType,
    right: &CType,
    a: Fixed<'a>,
    b: Fixed<'a>,
) -> Result<Fixed<'a>, NoMemory>
    requires { NoneContainsItself (tags_of tags.now.list) }
    ensures { IfOk result (λ f. told_fixed f ≡ fixed_binary (tags_of tags.now.list) op
        (type_of left.now) (type_of right.now) (told_fixed a.entry) (told_fixed b.entry)) }
{
    match op {
        CBinary::Add => {
            let sum = fixed_sum(alloc, tags, left, right, a, b)?;
            Ok(sum)
        }
        CBinary::Sub => {
            let difference = fixed_difference(alloc, tags, left, right, a, b)?;
            Ok(difference)
        }
        CBinary::AndAnd => Ok(both_true(a, b)),
        CBinary::OrOr => Ok(one_true(a, b)),
        CBinary::Mul
        | CBinary::Div
        | CBinary::Rem
        | CBinary::Shl
        | CBinary::Shr
        | CBinary::Lt
        | CBinary::Gt
        | CBinary::Le
        | CBinary::Ge
        | CBinary::Eq
        | CBinary::Ne
        | CBinary::And
        | CBinary::Xor
        | CBinary::Or => Ok(number_operation(op, left, right, a, b)),
    }
}
