// `? :`, by the types of its operands.
ghost use Rattle.std.specs.Prelude.{◌≡◌, ◌&&◌, ◌||◌, IfOk};
ghost use Rattle.p9_lang.specs.Types.{type_of};
ghost use Rattle.p9_lang.specs.Conversions.{is_pointer, is_scalar, is_void, same_type};
ghost use Rattle.p9_lang.specs.Expressions.{value_type, choice_type, choose_verdict};
ghost use Rattle.p9_verdict.specs.Choices.{choice_of_pointers};
ghost use Rattle.p9_operand.specs.Told.{told_operand};
ghost use Rattle.p9_operand.specs.Answers.{TellsType, TellsVerdict};

use crate::binary::meets_any;
use p9_base::NoMemory;
use p9_lang::CType;
use p9_operand::{
    Operand, Rule, RuleFault, Verdict, are_integers, common, copied, is_null_constant, is_scalar,
    value_type,
};
use p9_types::{is_pointer, is_void, same_type};
use std::alloc::Global;

// A pointer beside an equal one or beside null.
fn is_pointer_of_both(
    alloc: Global,
    left: &CType,
    right: &CType,
    zero: bool,
) -> Result<bool, NoMemory>
    ensures { IfOk result (λ both. both
        ≡ (is_pointer (type_of left.now) && (same_type (type_of left.now) (type_of right.now) || zero))) }
{
    let same = same_type(alloc, left, right)?;
    Ok(is_pointer(left) && (same || zero))
}

// The type of two values that aren't both integers and aren't both void.
fn pointers_type(
    alloc: Global,
    left: &CType,
    right: &CType,
    left_zero: bool,
    right_zero: bool,
) -> Result<CType, RuleFault>
    ensures { TellsType result
        (choice_of_pointers (type_of left.now) (type_of right.now) left_zero right_zero) }
{
    if is_pointer_of_both(alloc, left, right, right_zero)? {
        return Ok(copied(alloc, left)?);
    }
    let is_right = is_pointer(right) && left_zero;
    if is_right {
        return Ok(copied(alloc, right)?);
    }
    if meets_any(left, right, right_zero) {
        return Ok(copied(alloc, right)?);
    }
    if meets_any(right, left, left_zero) {
        return Ok(copied(alloc, left)?);
    }
    Err(RuleFault::Rule(Rule::BadOperands))
}

fn are_void(left: &CType, right: &CType) -> bool
    ensures { result ≡ (is_void (type_of left.now) && is_void (type_of right.now)) }
{
    is_void(left) && is_void(right)
}

#[tactic(auto, using(p9_types::proofs::Shapes::shapes))]
fn choice_type(alloc: Global, a: &Operand, b: &Operand) -> Result<CType, RuleFault>
    ensures { TellsType result (choice_type (told_operand a.now) (told_operand b.now)) }
{
    let left = value_type(alloc, &a.ty)?;
    let right = value_type(alloc, &b.ty)?;
    if are_integers(left.get(), right.get()) {
        return Ok(common(&a.ty, &b.ty));
    }
    if are_void(&a.ty, &b.ty) {
        return Ok(CType::Void);
    }
    pointers_type(
        alloc,
        left.get(),
        right.get(),
        is_null_constant(a.constant),
        is_null_constant(b.constant),
    )
}

fn is_test(alloc: Global, test: &Operand) -> Result<bool, NoMemory>
    ensures { IfOk result (λ holds. holds ≡ is_scalar (value_type (told_operand test.now))) }
{
    let ty = value_type(alloc, &test.ty)?;
    Ok(is_scalar(ty.get()))
}

/// What `? :` makes of its test and its two values.
pub(crate) fn choose_verdict(
    alloc: Global,
    test: &Operand,
    a: &Operand,
    b: &Operand,
) -> Result<Verdict, RuleFault>
    ensures { TellsVerdict result
        (choose_verdict (told_operand test.now) (told_operand a.now) (told_operand b.now)) }
{
    match choice_type(alloc, a, b) {
        Ok(ty) => {
            if is_test(alloc, test)? {
                Ok(Verdict {
                    ty,
                    is_lvalue: false,
                })
            } else {
                Err(RuleFault::Rule(Rule::NotScalar))
            }
        }
        Err(fault) => Err(fault),
    }
}
