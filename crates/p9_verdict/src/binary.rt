// Arithmetic and comparison, by the types of values.
ghost use Rattle.std.specs.Prelude.{◌≡◌, ◌&&◌, ◌||◌, IfOk};
ghost use Rattle.p9_lang.specs.Types.{type_of, tags_of};
ghost use Rattle.p9_lang.specs.TagRules.{NoneContainsItself};
ghost use Rattle.p9_lang.specs.Conversions.{is_integer, is_pointer, is_function, points_to, same_type};
ghost use Rattle.p9_lang.specs.Expressions.{asks, is_complete_pointer, is_void_pointer, sum_type, difference_type, are_ordered, integers_type, shift_type, test_type, order_type, equality_type, binary_type};
ghost use Rattle.p9_operand.specs.Told.{told_rule, told_operand};
ghost use Rattle.p9_operand.specs.Answers.{TellsType};

use p9_base::NoMemory;
use p9_lang::{CBinary, CType, Tags};
use p9_operand::{
    Operand, Rule, RuleFault, are_integers, common, copied, is_complete_pointer, is_null_constant,
    is_scalar, points_to_function, points_to_object, points_to_void, promoted, value_type,
};
use p9_types::{is_integer, is_pointer, same_type};
use std::alloc::Global;

/// The type, if this holds, else the rule.
pub(crate) fn asks(holds: bool, rule: Rule, ty: CType) -> Result<CType, RuleFault>
    ensures { TellsType result (asks holds (told_rule rule) (type_of ty)) }
{
    if holds {
        Ok(ty)
    } else {
        Err(RuleFault::Rule(rule))
    }
}

// A pointer to a complete type, and an integer that moves it.
fn is_moved(alloc: Global, pointer: &CType, number: &CType, tags: &Tags) -> Result<bool, NoMemory>
    requires { NoneContainsItself (tags_of tags.now.list) }
    ensures { IfOk result (λ moved. moved
        ≡ (is_complete_pointer (tags_of tags.now.list) (type_of pointer.now) && is_integer (type_of number.now))) }
{
    let complete = is_complete_pointer(alloc, pointer, tags)?;
    Ok(complete && is_integer(number))
}

/// The type of a sum, as of an index.
pub(crate) fn sum_type(
    alloc: Global,
    left: &CType,
    right: &CType,
    tags: &Tags,
) -> Result<CType, RuleFault>
    requires { NoneContainsItself (tags_of tags.now.list) }
    ensures { TellsType result
        (sum_type (tags_of tags.now.list) (type_of left.now) (type_of right.now)) }
{
    if are_integers(left, right) {
        return Ok(common(left, right));
    }
    if is_moved(alloc, left, right, tags)? {
        return Ok(copied(alloc, left)?);
    }
    if is_moved(alloc, right, left, tags)? {
        return Ok(copied(alloc, right)?);
    }
    Err(RuleFault::Rule(Rule::BadOperands))
}

// Equal pointers to complete types.
fn are_apart(alloc: Global, left: &CType, right: &CType, tags: &Tags) -> Result<bool, NoMemory>
    requires { NoneContainsItself (tags_of tags.now.list) }
    ensures { IfOk result (λ apart. apart
        ≡ (is_complete_pointer (tags_of tags.now.list) (type_of left.now)
        && same_type (type_of left.now) (type_of right.now))) }
{
    let complete = is_complete_pointer(alloc, left, tags)?;
    let same = same_type(alloc, left, right)?;
    Ok(complete && same)
}

#[tactic(auto, using(p9_types::proofs::Shapes::shapes))]
fn difference_type(
    alloc: Global,
    left: &CType,
    right: &CType,
    tags: &Tags,
) -> Result<CType, RuleFault>
    requires { NoneContainsItself (tags_of tags.now.list) }
    ensures { TellsType result
        (difference_type (tags_of tags.now.list) (type_of left.now) (type_of right.now)) }
{
    if are_integers(left, right) {
        return Ok(common(left, right));
    }
    if is_moved(alloc, left, right, tags)? {
        return Ok(copied(alloc, left)?);
    }
    if are_apart(alloc, left, right, tags)? {
        return Ok(CType::Long);
    }
    Err(RuleFault::Rule(Rule::BadOperands))
}

// Integers, or equal pointers to objects.
fn are_ordered(alloc: Global, left: &CType, right: &CType) -> Result<bool, NoMemory>
    ensures { IfOk result (λ ordered. ordered ≡ are_ordered (type_of left.now) (type_of right.now)) }
{
    if are_integers(left, right) {
        return Ok(true);
    }
    if !points_to_object(left) {
        return Ok(false);
    }
    same_type(alloc, left, right)
}

/// A pointer beside null or a pointer to void.
pub(crate) fn meets_any(left: &CType, right: &CType, zero: bool) -> bool
    ensures { result
        ≡ (is_pointer (type_of left.now) && (zero || is_void_pointer (type_of right.now))) }
{
    is_pointer(left) && (zero || points_to_void(right))
}

fn are_same_functions(alloc: Global, left: &CType, right: &CType) -> Result<bool, NoMemory>
    ensures { IfOk result (λ same. same
        ≡ (points_to is_function (type_of left.now) && same_type (type_of left.now) (type_of right.now))) }
{
    if !points_to_function(left) {
        return Ok(false);
    }
    same_type(alloc, left, right)
}

fn integers_type(left: &CType, right: &CType) -> Result<CType, RuleFault>
    ensures { TellsType result (integers_type (type_of left.now) (type_of right.now)) }
{
    asks(
        are_integers(left, right),
        Rule::BadOperands,
        common(left, right),
    )
}

fn shift_type(left: &CType, right: &CType) -> Result<CType, RuleFault>
    ensures { TellsType result (shift_type (type_of left.now) (type_of right.now)) }
{
    asks(are_integers(left, right), Rule::BadOperands, promoted(left))
}

#[tactic(auto, using(p9_types::proofs::Shapes::shapes))]
fn test_type(left: &CType, right: &CType) -> Result<CType, RuleFault>
    ensures { TellsType result (test_type (type_of left.now) (type_of right.now)) }
{
    let scalar = is_scalar(left) && is_scalar(right);
    asks(scalar, Rule::NotScalar, CType::Int)
}

#[tactic(auto, using(p9_types::proofs::Shapes::shapes))]
fn order_type(alloc: Global, left: &CType, right: &CType) -> Result<CType, RuleFault>
    ensures { TellsType result (order_type (type_of left.now) (type_of right.now)) }
{
    let ordered = are_ordered(alloc, left, right)?;
    asks(ordered, Rule::BadOperands, CType::Int)
}

// Whether one meets any pointer that the other is, in either order.
fn meet_any(left: &CType, left_zero: bool, right: &CType, right_zero: bool) -> bool
    ensures { result
        ≡ ((is_pointer (type_of left.now) && (right_zero || is_void_pointer (type_of right.now)))
        || (is_pointer (type_of right.now) && (left_zero || is_void_pointer (type_of left.now)))) }
{
    meets_any(left, right, right_zero) || meets_any(right, left, left_zero)
}

#[tactic(auto, using(p9_types::proofs::Shapes::shapes))]
fn equality_type(alloc: Global, a: &Operand, b: &Operand) -> Result<CType, RuleFault>
    ensures { TellsType result (equality_type (told_operand a.now) (told_operand b.now)) }
{
    let left = value_type(alloc, &a.ty)?;
    let right = value_type(alloc, &b.ty)?;
    let ordered = are_ordered(alloc, left.get(), right.get())?;
    let functions = are_same_functions(alloc, left.get(), right.get())?;
    let meet = meet_any(
        left.get(),
        is_null_constant(a.constant),
        right.get(),
        is_null_constant(b.constant),
    );
    asks(ordered || functions || meet, Rule::BadOperands, CType::Int)
}

/// The type of what a binary operator gives.
pub(crate) fn binary_type(
    alloc: Global,
    op: CBinary,
    a: &Operand,
    b: &Operand,
    tags: &Tags,
) -> Result<CType, RuleFault>
    requires { NoneContainsItself (tags_of tags.now.list) }
    ensures { TellsType result
        (binary_type (tags_of tags.now.list) op (told_operand a.now) (told_operand b.now)) }
{
    let left = value_type(alloc, &a.ty)?;
    let right = value_type(alloc, &b.ty)?;
    match op {
        CBinary::Mul | CBinary::Div | CBinary::Rem | CBinary::And | CBinary::Xor | CBinary::Or =>
            integers_type(left.get(), right.get()),
        CBinary::Add => sum_type(alloc, left.get(), right.get(), tags),
        CBinary::Sub => difference_type(alloc, left.get(), right.get(), tags),
        CBinary::Shl | CBinary::Shr => shift_type(left.get(), right.get()),
        CBinary::Lt | CBinary::Gt | CBinary::Le | CBinary::Ge => {
            order_type(alloc, left.get(), right.get())
        }
        CBinary::Eq | CBinary::Ne => equality_type(alloc, a, b),
        CBinary::AndAnd | CBinary::OrOr => test_type(left.get(), right.get()),
    }
}
