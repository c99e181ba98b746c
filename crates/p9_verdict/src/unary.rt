// Unary operators, sizes and casts.
ghost use Rattle.std.specs.Prelude.{◌≡◌, ◌&&◌, ◌||◌, IfOk};
ghost use Rattle.p9_lang.specs.Types.{Int, type_of, tags_of};
ghost use Rattle.p9_lang.specs.TagRules.{NoneContainsItself};
ghost use Rattle.p9_lang.specs.Conversions.{is_integer, is_pointer, is_scalar, is_void};
ghost use Rattle.p9_lang.specs.Expressions.{asks, value_type, is_writable, is_complete_pointer, address_type, integer_type, unary_verdict, step_verdict, size_verdict, are_of_one_kind, cast_verdict};
ghost use Rattle.p9_lang.specs.Rules as rules;
ghost use Rattle.p9_operand.specs.Told.{told_operand};
ghost use Rattle.p9_operand.specs.Answers.{TellsType, TellsVerdict};

use crate::access::{as_object, as_value, target_type};
use crate::binary::asks;
use p9_base::NoMemory;
use p9_lang::{CType, CUnary, Tags};
use p9_operand::{
    Operand, Rule, RuleFault, Verdict, are_integers, copied, is_array, is_complete,
    is_complete_pointer, is_function, is_null_constant, is_scalar, points_to_function, promoted,
    value_type,
};
use p9_types::{is_integer, is_pointer, is_void};
use sqlite_items::Boxed;
use std::alloc::Global;

/// Whether an operand may be written; an array or function may not.
pub(crate) fn is_writable(a: &Operand) -> bool
    ensures { result ≡ is_writable (told_operand a.now) }
{
    a.is_lvalue && !is_array(&a.ty)
}

// Of an lvalue or a function.
#[tactic(auto, using(p9_types::proofs::Shapes::shapes))]
fn address_type(alloc: Global, a: &Operand) -> Result<CType, RuleFault>
    ensures { TellsType result (address_type (told_operand a.now)) }
{
    let target = copied(alloc, &a.ty)?;
    let pointer = CType::Pointer(Boxed::new(alloc, target)?);
    let addressed = a.is_lvalue || is_function(&a.ty);
    asks(addressed, Rule::NotLvalue, pointer)
}

fn integer_type(ty: &CType) -> Result<CType, RuleFault>
    ensures { TellsType result (integer_type (type_of ty.now)) }
{
    asks(is_integer(ty), Rule::BadOperands, promoted(ty))
}

#[tactic(auto, using(p9_types::proofs::Shapes::shapes))]
fn negation_type(ty: &CType) -> Result<CType, RuleFault>
    ensures { TellsType result (asks (is_scalar (type_of ty.now)) rules.NotScalar Int) }
{
    asks(is_scalar(ty), Rule::NotScalar, CType::Int)
}

/// What a unary operator makes of its operand.
pub(crate) fn unary_verdict(
    alloc: Global,
    op: CUnary,
    a: &Operand,
    tags: &Tags,
) -> Result<Verdict, RuleFault>
    requires { NoneContainsItself (tags_of tags.now.list) }
    ensures { TellsVerdict result (unary_verdict (tags_of tags.now.list) op (told_operand a.now)) }
{
    let ty = value_type(alloc, &a.ty)?;
    match op {
        CUnary::Address => as_value(address_type(alloc, a)),
        CUnary::Deref => as_object(target_type(alloc, ty.get(), tags)),
        CUnary::Plus | CUnary::Minus | CUnary::Complement => as_value(integer_type(ty.get())),
        CUnary::Not => as_value(negation_type(ty.get())),
    }
}

// An integer, or a pointer to a complete type.
fn is_stepped(alloc: Global, a: &Operand, tags: &Tags) -> Result<bool, NoMemory>
    requires { NoneContainsItself (tags_of tags.now.list) }
    ensures { IfOk result (λ stepped. stepped
        ≡ (is_integer (value_type (told_operand a.now))
        || is_complete_pointer (tags_of tags.now.list) (value_type (told_operand a.now)))) }
{
    let ty = value_type(alloc, &a.ty)?;
    let complete = is_complete_pointer(alloc, ty.get(), tags)?;
    Ok(is_integer(ty.get()) || complete)
}

/// What `++` or `--` makes of its operand.
pub(crate) fn step_verdict(alloc: Global, a: &Operand, tags: &Tags) -> Result<Verdict, RuleFault>
    requires { NoneContainsItself (tags_of tags.now.list) }
    ensures { TellsVerdict result (step_verdict (tags_of tags.now.list) (told_operand a.now)) }
{
    if !is_writable(a) {
        return Err(RuleFault::Rule(Rule::NotLvalue));
    }
    if !is_stepped(alloc, a, tags)? {
        return Err(RuleFault::Rule(Rule::BadOperands));
    }
    Ok(Verdict {
        ty: copied(alloc, &a.ty)?,
        is_lvalue: false,
    })
}

/// What `sizeof` makes of an operand's or a named type.
#[tactic(auto, using(p9_types::proofs::Shapes::shapes))]
pub(crate) fn size_verdict(alloc: Global, ty: &CType, tags: &Tags) -> Result<Verdict, RuleFault>
    requires { NoneContainsItself (tags_of tags.now.list) }
    ensures { TellsVerdict result (size_verdict (tags_of tags.now.list) (type_of ty.now)) }
{
    if is_function(ty) {
        return Err(RuleFault::Rule(Rule::BadOperands));
    }
    if !is_complete(alloc, ty, tags)? {
        return Err(RuleFault::Rule(Rule::Incomplete));
    }
    Ok(Verdict {
        ty: CType::UInt,
        is_lvalue: false,
    })
}

// Pointers to functions, or pointers to something else.
fn are_of_one_kind(left: &CType, right: &CType) -> bool
    ensures { result ≡ are_of_one_kind (type_of left.now) (type_of right.now) }
{
    if points_to_function(left) {
        points_to_function(right)
    } else {
        is_pointer(left) && is_pointer(right) && !points_to_function(right)
    }
}

// Anything to void; an integer to an integer; a pointer to one of its kind; null to a pointer.
fn may_be_cast(from: &CType, to: &CType, zero: bool) -> bool
    ensures { result ≡ (is_void (type_of to.now)
        || ((is_integer (type_of from.now) && is_integer (type_of to.now))
        || (are_of_one_kind (type_of from.now) (type_of to.now) || (zero && is_pointer (type_of to.now))))) }
{
    if is_void(to) {
        return true;
    }
    if are_integers(from, to) {
        return true;
    }
    are_of_one_kind(from, to) || (zero && is_pointer(to))
}

/// What a cast to a type makes of its operand.
pub(crate) fn cast_verdict(alloc: Global, to: &CType, a: &Operand) -> Result<Verdict, RuleFault>
    ensures { TellsVerdict result (cast_verdict (type_of to.now) (told_operand a.now)) }
{
    let from = value_type(alloc, &a.ty)?;
    if !may_be_cast(from.get(), to, is_null_constant(a.constant)) {
        return Err(RuleFault::Rule(Rule::BadOperands));
    }
    Ok(Verdict {
        ty: copied(alloc, to)?,
        is_lvalue: false,
    })
}
