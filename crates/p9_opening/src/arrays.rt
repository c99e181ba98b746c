// Entries of arrays' lists.
ghost use Rattle.std.specs.Prelude.{◌≡◌, if◌then◌else◌, suc, IfOk};
ghost use Rattle.std.specs.Option.{option_copied};
ghost use Rattle.p9_lang.specs.Types.{TypeTree, Array, type_of, tags_of};
ghost use Rattle.p9_lang.specs.Types as types;
ghost use Rattle.p9_lang.specs.Layout.{is_within_limit};
ghost use Rattle.p9_lang.specs.TagRules.{NoneContainsItself};
ghost use Rattle.p9_lang.specs.Entries as specs;
ghost use Rattle.p9_lang.specs.Parts.{Fills, Outside};
ghost use Rattle.p9_operand.specs.Least.{least};
ghost use Rattle.p9_operand.specs.Told.{told_least, told_constant};
ghost use Rattle.p9_declare.specs.Told.{type_in};
ghost use Rattle.p9_parts.specs.Told.{parts_of};
ghost use Rattle.p9_opening.specs.Filling.{filled};

use p9_base::NoMemory;
use p9_lang::{CType, EntryBy, Tags};
use p9_operand::{Constant, Rule, breaks_if, copied, is_within_limit};
use p9_parts::{Part, first_constant};
use sqlite_items::Boxed;
use std::alloc::Global;

// A count of elements that is within the limit exactly where that with one element more is.
#[tactic(auto, using(crate::proofs::Filling::longer_past))]
fn one_more(position: u32) -> u32
    ensures { (tags : types.Tags) (element : TypeTree)
        → is_within_limit tags (Array element result) ≡ is_within_limit tags (Array element (suc position)) }
{
    match position.checked_add(1) {
        Some(count) => count,
        None => position,
    }
}

#[tactic(auto, using(p9_types::proofs::Shapes::type_of_array))]
fn array_of(alloc: Global, element: &CType, count: u32) -> Result<CType, NoMemory>
    ensures { IfOk result (λ t. type_of t ≡ Array (type_of element.now) count) }
{
    let element = copied(alloc, element)?;
    Ok(CType::Array(Boxed::new(alloc, element)?, count))
}

// Whether an array may be so long that it has this position.
fn may_reach(alloc: Global, tags: &Tags, element: &CType, position: u32) -> Result<bool, NoMemory>
    requires { NoneContainsItself (tags_of tags.now.list) }
    ensures { IfOk result (λ may. may
        ≡ is_within_limit (tags_of tags.now.list) (Array (type_of element.now) (suc position))) }
{
    let array = array_of(alloc, element, one_more(position))?;
    let within = is_within_limit(alloc, &array, tags)?;
    Ok(within)
}

// Whether an array has this position; one without a length yet may get it.
#[tactic(auto, using(crate::proofs::Filling::element_within))]
fn has_element(
    alloc: Global,
    tags: &Tags,
    element: &CType,
    count: u32,
    position: u32,
) -> Result<bool, NoMemory>
    requires { NoneContainsItself (tags_of tags.now.list) }
    ensures { IfOk result (λ has. specs.element_role (tags_of tags.now.list) (type_of element.now) count position
        ≡ (if has then Fills (type_of element.now) else Outside)) }
{
    if count > 0 {
        return Ok(position < count);
    }
    let may = may_reach(alloc, tags, element, position)?;
    Ok(may)
}

fn element_filled<'a>(
    alloc: Global,
    tags: &Tags,
    element: &'a CType,
    count: u32,
    position: u32,
) -> Result<Option<&'a CType>, NoMemory>
    requires { NoneContainsItself (tags_of tags.now.list) }
    ensures { IfOk result (λ ty. filled (type_in (option_copied ty))
        ≡ specs.element_role (tags_of tags.now.list) (type_of element.now) count position) }
{
    let has = has_element(alloc, tags, element, count, position)?;
    if has { Ok(Some(element)) } else { Ok(None) }
}

fn index_filled<'a>(
    alloc: Global,
    tags: &Tags,
    element: &'a CType,
    count: u32,
    index: Constant,
) -> Result<Option<&'a CType>, NoMemory>
    requires { NoneContainsItself (tags_of tags.now.list) }
    ensures { IfOk result (λ ty. filled (type_in (option_copied ty))
        ≡ specs.index_role (tags_of tags.now.list) (type_of element.now) count (told_constant index)) }
{
    match index {
        Constant::Value(position) => {
            let filled = element_filled(alloc, tags, element, count, position)?;
            Ok(filled)
        }
        Constant::NotConstant | Constant::Undefined | Constant::Null => Ok(Some(element)),
    }
}

/// The type of what an entry of an array's list fills, if there is a place for it.
pub(crate) fn array_filled<'a>(
    alloc: Global,
    tags: &Tags,
    element: &'a CType,
    count: u32,
    next: u32,
    by: &EntryBy,
    before: &[Part],
) -> Result<Option<&'a CType>, NoMemory>
    requires { NoneContainsItself (tags_of tags.now.list) }
    ensures { IfOk result (λ ty. filled (type_in (option_copied ty))
        ≡ specs.array_role (tags_of tags.now.list) (type_of element.now) count next by.now (parts_of before.now)) }
{
    match by {
        EntryBy::Nothing => {
            let filled = element_filled(alloc, tags, element, count, next)?;
            Ok(filled)
        }
        EntryBy::Index => {
            let filled = index_filled(alloc, tags, element, count, first_constant(before))?;
            Ok(filled)
        }
        EntryBy::Member(_) => Ok(None),
    }
}

#[tactic(auto, using(crate::proofs::Filling::no_rule_within))]
fn too_many_rules(
    alloc: Global,
    tags: &Tags,
    element: &CType,
    count: u32,
    position: u32,
) -> Result<Option<Rule>, NoMemory>
    requires { NoneContainsItself (tags_of tags.now.list) }
    ensures { IfOk result (λ rule. told_least rule
        ≡ least (specs.too_many_rules (tags_of tags.now.list) (type_of element.now) count position)) }
{
    if count > 0 {
        return Ok(None);
    }
    let may = may_reach(alloc, tags, element, position)?;
    Ok(breaks_if(!may, Rule::TooManyItems))
}

fn index_rules(
    alloc: Global,
    tags: &Tags,
    element: &CType,
    count: u32,
    index: Constant,
) -> Result<Option<Rule>, NoMemory>
    requires { NoneContainsItself (tags_of tags.now.list) }
    ensures { IfOk result (λ rule. told_least rule
        ≡ least (specs.index_rules (tags_of tags.now.list) (type_of element.now) count (told_constant index))) }
{
    match index {
        Constant::Value(position) => {
            let rule = too_many_rules(alloc, tags, element, count, position)?;
            Ok(rule)
        }
        Constant::NotConstant | Constant::Undefined | Constant::Null => Ok(Some(Rule::BadConstant)),
    }
}

/// The rule that an entry of an array's list breaks.
pub(crate) fn array_entry_rules(
    alloc: Global,
    tags: &Tags,
    element: &CType,
    count: u32,
    next: u32,
    by: &EntryBy,
    parts: &[Part],
) -> Result<Option<Rule>, NoMemory>
    requires { NoneContainsItself (tags_of tags.now.list) }
    ensures { IfOk result (λ rule. told_least rule
        ≡ least (specs.array_entry_rules (tags_of tags.now.list) (type_of element.now) count next by.now (parts_of parts.now))) }
{
    match by {
        EntryBy::Nothing => {
            let rule = too_many_rules(alloc, tags, element, count, next)?;
            Ok(rule)
        }
        EntryBy::Index => {
            let rule = index_rules(alloc, tags, element, count, first_constant(parts))?;
            Ok(rule)
        }
        EntryBy::Member(_) => Ok(Some(Rule::BadOperands)),
    }
}
