// The entries of an initialiser's list.
ghost use Rattle.std.specs.Prelude.{◌≡◌, ℕ, List, Some, IfOk};
ghost use Rattle.std.specs.Option.{option_copied};
ghost use Rattle.p9_lang.specs.declared.tree.EntryBy.TheVariants as entry;
ghost use Rattle.p9_lang.specs.Types.{type_of, tags_of};
ghost use Rattle.p9_lang.specs.TagRules.{NoneContainsItself};
ghost use Rattle.p9_lang.specs.Parts as told;
ghost use Rattle.p9_lang.specs.Parts.{EntryOf};
ghost use Rattle.p9_lang.specs.Entries as specs;
ghost use Rattle.p9_operand.specs.Least.{least};
ghost use Rattle.p9_operand.specs.Told.{told_least, told_constant};
ghost use Rattle.p9_declare.specs.Told.{type_in};
ghost use Rattle.p9_scopes.specs.State.{known_of};
ghost use Rattle.p9_parts.specs.Told.{role_of, parts_of};
ghost use Rattle.p9_opening.specs.Filling.{filled};

use crate::arrays::{array_entry_rules, array_filled};
use crate::members::member_named;
use crate::structures::{structure_entry_rules, structure_filled};
use p9_base::NoMemory;
use p9_lang::{CType, EntryBy, Ident, Tags};
use p9_operand::{Constant, Rule, copied};
use p9_parts::{Part, Role, first_constant};
use p9_scopes::Known;
use p9_types::number_of;
use std::alloc::Global;

/// Whether the next part is the index of an entry.
pub fn is_index_next(by: &EntryBy, before: &[Part]) -> bool
    ensures { result ≡ specs.is_index_next by.now (parts_of before.now) }
{
    match by {
        EntryBy::Index => before.is_empty(),
        EntryBy::Nothing | EntryBy::Member(_) => false,
    }
}

/// The type of what an entry of a list of this type fills, if there is a place for it.
#[tactic(auto, using(p9_types::proofs::Shapes::shapes))]
pub fn filled<'a>(
    alloc: Global,
    tags: &'a Tags,
    list: &'a CType,
    next: u32,
    by: &EntryBy,
    before: &[Part],
) -> Result<Option<&'a CType>, NoMemory>
    requires { NoneContainsItself (tags_of tags.now.list) }
    ensures { IfOk result (λ ty. filled (type_in (option_copied ty))
        ≡ specs.entry_role (tags_of tags.now.list) (EntryOf (Some (type_of list.now)) next) by.now (parts_of before.now)) }
{
    match list {
        CType::Array(element, count) => {
            let ty = array_filled(alloc, tags, element.get(), *count, next, by, before)?;
            Ok(ty)
        }
        CType::Tagged(tag) => {
            let ty = structure_filled(tags, *tag, next, by)?;
            Ok(ty)
        }
        CType::Void
        | CType::Char
        | CType::UChar
        | CType::Short
        | CType::UShort
        | CType::Int
        | CType::UInt
        | CType::Long
        | CType::ULong
        | CType::Pointer(_)
        | CType::Function(..) => Ok(None),
    }
}

fn filling(alloc: Global, ty: Option<&CType>) -> Result<Role, NoMemory>
    ensures { IfOk result (λ r. (names : List (List ℕ)) → role_of names r ≡ filled (type_in (option_copied ty.entry))) }
{
    match ty {
        Some(ty) => Ok(Role::Fills(copied(alloc, ty)?)),
        None => Ok(Role::Outside),
    }
}

/// What an entry fills, by the role of the entry.
pub fn entry_role(
    known: &Known,
    alloc: Global,
    role: &Role,
    by: &EntryBy,
    before: &[Part],
) -> Result<Role, NoMemory>
    ensures { IfOk result (λ r. (names : List (List ℕ))
        → role_of names r ≡ specs.entry_role (known_of known.now).tags (role_of names role.now) by.now (parts_of before.now)) }
{
    match role {
        Role::EntryOf {
            list: Some(list),
            next,
        } => {
            let ty = filled(alloc, known.tags(), list, *next, by, before)?;
            let role = filling(alloc, ty)?;
            Ok(role)
        }
        Role::EntryOf {
            list: None,
            next: _,
        }
        | Role::Plain
        | Role::Whole
        | Role::Declares { .. }
        | Role::ParameterOf { .. }
        | Role::InBraces
        | Role::Fills(_)
        | Role::Assigns(_)
        | Role::Outside => Ok(Role::Outside),
    }
}

fn constant_or_zero(constant: Constant) -> u32
    ensures { result ≡ specs.constant_or_zero (told_constant constant) }
{
    match constant {
        Constant::Value(word) => word,
        Constant::NotConstant | Constant::Undefined | Constant::Null => 0,
    }
}

// The position that an entry with a name goes to; without a member of this name it is the first.
#[tactic(auto, using(crate::proofs::Filling::number_by_place, crate::proofs::Filling::position_elsewhere))]
fn named_position(tags: &Tags, list: &CType, next: u32, name: &Ident) -> Result<u32, NoMemory>
    ensures { IfOk result (λ position. (parts : List told.Part)
        → position ≡ specs.entry_position (tags_of tags.now.list) (Some (type_of list.now)) next (entry.Member name.now) parts) }
{
    let Some(tag) = number_of(list) else {
        return Ok(next);
    };
    match member_named(tags, tag, name)? {
        Some(place) => Ok(place.number),
        None => Ok(0),
    }
}

/// The position that an entry of a list of this type goes to.
pub fn listed_position(
    tags: &Tags,
    list: Option<&CType>,
    next: u32,
    by: &EntryBy,
    parts: &[Part],
) -> Result<u32, NoMemory>
    ensures { IfOk result (λ position.
        position ≡ specs.entry_position (tags_of tags.now.list) (type_in (option_copied list.entry)) next by.now (parts_of parts.now)) }
{
    match by {
        EntryBy::Nothing => Ok(next),
        EntryBy::Index => Ok(constant_or_zero(first_constant(parts))),
        EntryBy::Member(name) => match list {
            Some(list) => {
                let position = named_position(tags, list, next, name)?;
                Ok(position)
            }
            None => Ok(next),
        },
    }
}

/// The position that an entry goes to.
pub fn entry_position(
    known: &Known,
    list: Option<&CType>,
    next: u32,
    by: &EntryBy,
    parts: &[Part],
) -> Result<u32, NoMemory>
    ensures { IfOk result (λ position.
        position ≡ specs.entry_position (known_of known.now).tags (type_in (option_copied list.entry)) next by.now (parts_of parts.now)) }
{
    let position = listed_position(known.tags(), list, next, by, parts)?;
    Ok(position)
}

fn scalar_entry_rules(by: &EntryBy) -> Option<Rule>
    ensures { told_least result ≡ least (specs.scalar_entry_rules by.now) }
{
    match by {
        EntryBy::Nothing => None,
        EntryBy::Index | EntryBy::Member(_) => Some(Rule::BadOperands),
    }
}

#[tactic(auto, using(p9_types::proofs::Shapes::shapes))]
fn listed_rule(
    alloc: Global,
    tags: &Tags,
    list: &CType,
    next: u32,
    by: &EntryBy,
    parts: &[Part],
) -> Result<Option<Rule>, NoMemory>
    requires { NoneContainsItself (tags_of tags.now.list) }
    ensures { IfOk result (λ rule. told_least rule
        ≡ least (specs.entry_rules (tags_of tags.now.list) (Some (type_of list.now)) next by.now (parts_of parts.now))) }
{
    match list {
        CType::Array(element, count) => {
            let rule = array_entry_rules(alloc, tags, element.get(), *count, next, by, parts)?;
            Ok(rule)
        }
        CType::Tagged(tag) => {
            let rule = structure_entry_rules(alloc, tags, *tag, next, by)?;
            Ok(rule)
        }
        CType::Void
        | CType::Char
        | CType::UChar
        | CType::Short
        | CType::UShort
        | CType::Int
        | CType::UInt
        | CType::Long
        | CType::ULong
        | CType::Pointer(_)
        | CType::Function(..) => Ok(scalar_entry_rules(by)),
    }
}

/// The least rule that an entry breaks.
pub fn entry_rule(
    known: &Known,
    alloc: Global,
    list: Option<&CType>,
    next: u32,
    by: &EntryBy,
    parts: &[Part],
) -> Result<Option<Rule>, NoMemory>
    ensures { IfOk result (λ rule.
        told_least rule ≡ least (specs.entry_rules (known_of known.now).tags (type_in (option_copied list.entry)) next by.now (parts_of parts.now))) }
{
    match list {
        Some(list) => {
            let rule = listed_rule(alloc, known.tags(), list, next, by, parts)?;
            Ok(rule)
        }
        None => Ok(None),
    }
}
