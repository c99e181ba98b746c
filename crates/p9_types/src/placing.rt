// Where the members of a structure or union stand.
ghost use Rattle.std.specs.Prelude.{◌≡◌, ◌+◌, map, OnOk, IfOk};
ghost use Rattle.p9_lang.specs.Types.{members_of, tags_of};
ghost use Rattle.p9_lang.specs.TagRules.{NoneContainsItself};
ghost use Rattle.p9_lang.specs.Layout.{nothing_yet};
ghost use Rattle.p9_lang.specs.Members.{placed, placed_from};
ghost use Rattle.p9_types.specs.Told.{IsSound};
ghost use Rattle.p9_types.specs.Offsets.{cut_placed};
ghost use Rattle.p9_types.specs.Standings.{all_placed};

use crate::capped::{Capped, capped_number};
use crate::known::KnownTags;
use crate::reaching::{extent_within, tag_at};
use p9_base::NoMemory;
use p9_lang::{Member, Tag};
use std::alloc::Global;

/// A member with its offset in its structure, told as sizes are, and its number in the body.
#[derive(Clone, Copy)]
pub(crate) struct Placing<'a> {
    pub(crate) member: &'a Member,
    pub(crate) offset: u32,
    pub(crate) number: u32,
}

// The next member's number. There is no room for numbers of more than 32 bits.
fn following(number: u32) -> Result<u32, NoMemory>
    ensures { IfOk result (λ n. n ≡ number + 1) }
{
    number.checked_add(1).ok_or(NoMemory)
}

fn placed_in_body<'a>(
    alloc: Global,
    known: &mut KnownTags,
    is_union: bool,
    members: &'a [Member],
    tags: &[Tag],
) -> Result<Vec<Placing<'a>>, NoMemory>
    requires ends { NoneContainsItself (tags_of tags.now) }
    requires sound { IsSound (tags_of tags.now) known.old.map.entries }
    ensures sound { OnOk result (IsSound (tags_of tags.now) known.new.map.entries) }
    ensures placed { IfOk result (λ placings. all_placed placings.items
        ≡ map cut_placed (placed_from (tags_of tags.now) is_union nothing_yet 0 (members_of members.now))) }
{
    let mut placings = Vec::new(alloc);
    let mut so_far = Capped::nothing();
    let mut number: u32 = 0;
    let mut rest = members;
    'members: while let [member, after @ ..] = rest {
        let extent = extent_within(alloc, known, &member.ty, tags)?.unwrap_or(Capped::nothing());
        placings.push(Placing {
            member,
            offset: capped_number(u64::from(so_far.offset_of(is_union, extent))),
            number,
        })?;
        so_far = so_far.with_member(is_union, extent);
        number = following(number)?;
        rest = after;
    }
    Ok(placings)
}

/// The members of a structure or union; none where it has no body.
pub(crate) fn placed_members<'a>(
    alloc: Global,
    known: &mut KnownTags,
    number: u32,
    tags: &'a [Tag],
) -> Result<Vec<Placing<'a>>, NoMemory>
    requires ends { NoneContainsItself (tags_of tags.now) }
    requires sound { IsSound (tags_of tags.now) known.old.map.entries }
    ensures sound { OnOk result (IsSound (tags_of tags.now) known.new.map.entries) }
    ensures placed { IfOk result (λ placings. all_placed placings.items
        ≡ map cut_placed (placed (tags_of tags.now) number)) }
{
    let Some(tag) = tag_at(tags, number) else {
        return Ok(Vec::new(alloc));
    };
    let Some(members) = &tag.members else {
        return Ok(Vec::new(alloc));
    };
    placed_in_body(alloc, known, tag.is_union, members.as_slice(), tags)
}
