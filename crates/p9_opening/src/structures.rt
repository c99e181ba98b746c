// Entries of structures' and unions' lists.
ghost use Rattle.std.specs.Prelude.{◌≡◌, IfOk, slice_get};
ghost use Rattle.std.specs.Option.{option_copied};
ghost use Rattle.p9_lang.specs.Types.{tags_of};
ghost use Rattle.p9_lang.specs.Members.{direct_member};
ghost use Rattle.p9_lang.specs.Entries as specs;
ghost use Rattle.p9_operand.specs.Least.{least};
ghost use Rattle.p9_operand.specs.Told.{told_least};
ghost use Rattle.p9_declare.specs.Told.{type_in};
ghost use Rattle.p9_opening.specs.Filling.{filled, is_spent};

use crate::members::{member_at, member_named, type_at};
use p9_base::NoMemory;
use p9_lang::{CType, EntryBy, Ident, Tags};
use p9_operand::Rule;
use p9_types::tag_at;
use std::alloc::Global;

fn is_union(tags: &Tags, tag: u32) -> bool
    ensures { result ≡ specs.is_union_tag (slice_get (tags_of tags.now.list) tag) }
{
    match tag_at(tags.list.as_slice(), tag) {
        Some(tag) => tag.is_union,
        None => false,
    }
}

// Whether an entry stands behind the one entry of a union.
#[tactic(auto, using(crate::proofs::Filling::not_spent, crate::proofs::Filling::spent_behind))]
fn is_spent(tags: &Tags, tag: u32, next: u32) -> bool
    ensures { result ≡ is_spent (tags_of tags.now.list) tag next }
{
    if next == 0 {
        return false;
    }
    is_union(tags, tag)
}

/// The type of what an entry of a structure's or union's list fills, if there is a place for it.
#[tactic(auto, using(crate::proofs::Filling::spent_role, crate::proofs::Filling::open_member))]
pub(crate) fn structure_filled<'a>(
    tags: &'a Tags,
    tag: u32,
    next: u32,
    by: &EntryBy,
) -> Result<Option<&'a CType>, NoMemory>
    ensures { IfOk result (λ ty. filled (type_in (option_copied ty))
        ≡ specs.structure_role (tags_of tags.now.list) tag next by.now) }
{
    if is_spent(tags, tag, next) {
        return Ok(None);
    }
    match by {
        EntryBy::Nothing => Ok(type_at(member_at(tags, tag, next))),
        EntryBy::Index => Ok(None),
        EntryBy::Member(name) => Ok(type_at(member_named(tags, tag, name)?)),
    }
}

#[tactic(auto, using(crate::proofs::Filling::missing_by_place))]
fn named_rules(alloc: Global, tags: &Tags, tag: u32, name: &Ident) -> Result<Option<Rule>, NoMemory>
    ensures { IfOk result (λ rule. told_least rule
        ≡ least (specs.member_found_rules name.now (direct_member (tags_of tags.now.list) tag name.now))) }
{
    match member_named(tags, tag, name)? {
        Some(_) => Ok(None),
        None => Ok(Some(Rule::NoMember(name.copied(alloc)?))),
    }
}

/// The rule that an entry of a structure's or union's list breaks.
#[tactic(auto, using(crate::proofs::Filling::spent_rules, crate::proofs::Filling::open_rules))]
pub(crate) fn structure_entry_rules(
    alloc: Global,
    tags: &Tags,
    tag: u32,
    next: u32,
    by: &EntryBy,
) -> Result<Option<Rule>, NoMemory>
    ensures { IfOk result (λ rule. told_least rule
        ≡ least (specs.structure_entry_rules (tags_of tags.now.list) tag next by.now)) }
{
    if is_spent(tags, tag, next) {
        return Ok(None);
    }
    match by {
        EntryBy::Nothing => Ok(None),
        EntryBy::Index => Ok(Some(Rule::BadOperands)),
        EntryBy::Member(name) => {
            let rule = named_rules(alloc, tags, tag, name)?;
            Ok(rule)
        }
    }
}
