// What pointers point to, and members.
ghost use Rattle.std.specs.Prelude.{◌≡◌, None, Some, Result, MatchOption, slice_get};
ghost use Rattle.p9_lang.specs.Types.{TypeTree, type_of, tags_of, member_of, members_of};
ghost use Rattle.p9_lang.specs.TagRules.{NoneContainsItself};
ghost use Rattle.p9_lang.specs.Members.{find_member};
ghost use Rattle.p9_lang.specs.Expressions.{value_type, sum_type, target_type, index_verdict, member_verdict, dot_verdict, arrow_verdict, select_verdict, as_value, as_object};
ghost use Rattle.p9_lang.specs.Rules as rules;
ghost use Rattle.p9_types.specs.FoundMembers.{member_in};
ghost use Rattle.p9_operand.specs.Told.{told_operand};
ghost use Rattle.p9_operand.specs.Answers.{TellsType, TellsVerdict};

use crate::binary::{asks, sum_type};
use p9_lang::{CType, Ident, Member, Tags};
use p9_operand::{Operand, Rule, RuleFault, Verdict, copied, is_complete, is_function, value_type};
use p9_types::{Found, find_member, is_void, number_of, tag_at, target_of};
use std::alloc::Global;

/// A value of this type, which is no lvalue.
pub(crate) fn as_value(ty: Result<CType, RuleFault>) -> Result<Verdict, RuleFault>
    ensures { (answer : Result TypeTree rules.Rule) → TellsType ty answer
        → TellsVerdict result (as_value answer) }
{
    match ty {
        Ok(ty) => Ok(Verdict {
            ty,
            is_lvalue: false,
        }),
        Err(fault) => Err(fault),
    }
}

/// What stands for an object of this type; a function is no lvalue.
pub(crate) fn as_object(ty: Result<CType, RuleFault>) -> Result<Verdict, RuleFault>
    ensures { (answer : Result TypeTree rules.Rule) → TellsType ty answer
        → TellsVerdict result (as_object answer) }
{
    match ty {
        Ok(ty) => {
            let is_lvalue = !is_function(&ty);
            Ok(Verdict { ty, is_lvalue })
        }
        Err(fault) => Err(fault),
    }
}

/// What a pointer points to: not void; a complete type or a function.
pub(crate) fn target_type(alloc: Global, ty: &CType, tags: &Tags) -> Result<CType, RuleFault>
    requires { NoneContainsItself (tags_of tags.now.list) }
    ensures { TellsType result (target_type (tags_of tags.now.list) (type_of ty.now)) }
{
    let Some(target) = target_of(ty) else {
        return Err(RuleFault::Rule(Rule::BadOperands));
    };
    if is_void(target) {
        return Err(RuleFault::Rule(Rule::BadOperands));
    }
    let complete = is_complete(alloc, target, tags)?;
    let copy = copied(alloc, target)?;
    asks(complete || is_function(target), Rule::Incomplete, copy)
}

// What an array and an index together point to.
fn element_type(alloc: Global, a: &Operand, i: &Operand, tags: &Tags) -> Result<CType, RuleFault>
    requires { NoneContainsItself (tags_of tags.now.list) }
    ensures { TellsType result (rules.and_then
        (sum_type (tags_of tags.now.list) (value_type (told_operand a.now)) (value_type (told_operand i.now)))
        (target_type (tags_of tags.now.list))) }
{
    let left = value_type(alloc, &a.ty)?;
    let right = value_type(alloc, &i.ty)?;
    match sum_type(alloc, left.get(), right.get(), tags) {
        Ok(ty) => target_type(alloc, &ty, tags),
        Err(fault) => Err(fault),
    }
}

/// What `a[i]` makes of its operands.
pub(crate) fn index_verdict(
    alloc: Global,
    a: &Operand,
    i: &Operand,
    tags: &Tags,
) -> Result<Verdict, RuleFault>
    requires { NoneContainsItself (tags_of tags.now.list) }
    ensures { TellsVerdict result
        (index_verdict (tags_of tags.now.list) (told_operand a.now) (told_operand i.now)) }
{
    as_object(element_type(alloc, a, i, tags))
}

// The member with a number in the body of the structure or union with a number.
fn member_at(tags: &Tags, tag: u32, number: u32) -> Option<&Member>
    ensures { MatchOption result (member_in (slice_get (tags_of tags.now.list) tag) number ≡ None) (λ m.
        member_in (slice_get (tags_of tags.now.list) tag) number ≡ Some (member_of m.now)) }
{
    let tag = tag_at(tags.list.as_slice(), tag)?;
    match &tag.members {
        Some(members) => member_in_body(members.as_slice(), number),
        None => None,
    }
}

fn member_in_body(members: &[Member], number: u32) -> Option<&Member>
    ensures { MatchOption result (slice_get (members_of members.now) number ≡ None) (λ m.
        slice_get (members_of members.now) number ≡ Some (member_of m.now)) }
{
    members.get(number as usize)
}

// The member of a structure or union with this name.
fn member_verdict(
    alloc: Global,
    name: &Ident,
    is_lvalue: bool,
    tag: u32,
    tags: &Tags,
) -> Result<Verdict, RuleFault>
    requires { NoneContainsItself (tags_of tags.now.list) }
    ensures { TellsVerdict result
        (member_verdict name.now is_lvalue (find_member (tags_of tags.now.list) tag name.now)) }
{
    match find_member(alloc, tags, tag, name)? {
        Found::At { tag, member, .. } => match member_at(tags, tag, member) {
            Some(member) => Ok(Verdict {
                ty: copied(alloc, &member.ty)?,
                is_lvalue,
            }),
            None => unreachable!(),
        },
        Found::Missing => Err(RuleFault::Rule(Rule::NoMember(name.copied(alloc)?))),
        Found::Ambiguous => Err(RuleFault::Rule(Rule::Ambiguous(name.copied(alloc)?))),
        Found::Incomplete => Err(RuleFault::Rule(Rule::Incomplete)),
    }
}

fn dot_verdict(
    alloc: Global,
    name: &Ident,
    is_lvalue: bool,
    ty: &CType,
    tags: &Tags,
) -> Result<Verdict, RuleFault>
    requires { NoneContainsItself (tags_of tags.now.list) }
    ensures { TellsVerdict result
        (dot_verdict (tags_of tags.now.list) name.now is_lvalue (type_of ty.now)) }
{
    match number_of(ty) {
        Some(tag) => member_verdict(alloc, name, is_lvalue, tag, tags),
        None => Err(RuleFault::Rule(Rule::BadOperands)),
    }
}

fn arrow_verdict(alloc: Global, name: &Ident, ty: &CType, tags: &Tags) -> Result<Verdict, RuleFault>
    requires { NoneContainsItself (tags_of tags.now.list) }
    ensures { TellsVerdict result
        (arrow_verdict (tags_of tags.now.list) name.now (type_of ty.now)) }
{
    match target_of(ty) {
        Some(target) => dot_verdict(alloc, name, true, target, tags),
        None => Err(RuleFault::Rule(Rule::BadOperands)),
    }
}

/// What `a.x` or `a->x` makes of its operand.
pub(crate) fn select_verdict(
    alloc: Global,
    arrow: bool,
    name: &Ident,
    a: &Operand,
    tags: &Tags,
) -> Result<Verdict, RuleFault>
    requires { NoneContainsItself (tags_of tags.now.list) }
    ensures { TellsVerdict result
        (select_verdict (tags_of tags.now.list) arrow name.now (told_operand a.now)) }
{
    if arrow {
        let pointer = value_type(alloc, &a.ty)?;
        return arrow_verdict(alloc, name, pointer.get(), tags);
    }
    dot_verdict(alloc, name, a.is_lvalue, &a.ty, tags)
}
