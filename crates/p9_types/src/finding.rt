// Members by their names.
ghost use Rattle.std.specs.Prelude.{◌≡◌, ◌∷◌, [], OnOk, IfOk, slice_get, length};
ghost use Rattle.std.specs.List.{flat_map};
ghost use Rattle.p9_lang.specs.Names.{same_name};
ghost use Rattle.p9_lang.specs.Types.{tags_of};
ghost use Rattle.p9_lang.specs.TagRules.{NoneContainsItself};
ghost use Rattle.p9_lang.specs.Members.{find_member, sought, whole};
ghost use Rattle.p9_types.specs.Told.{IsSound};
ghost use Rattle.p9_types.specs.Levels.{tally};
ghost use Rattle.p9_types.specs.Standings.{placing_of, all_placed, part_of, copies_of, spread};
ghost use Rattle.p9_types.specs.FoundMembers.{TellsMember};
ghost use Rattle.p9_types.specs.Sightings.{told_sought, named_among, named_places, has_body, without_type};

use crate::descending::descend;
use crate::known::KnownTags;
use crate::level::{MetTags, Standing};
use crate::offsets::{kept_offset, moved};
use crate::placing::{Placing, placed_members};
use crate::reaching::tag_at;
use crate::sought::Sought;
use p9_base::NoMemory;
use p9_lang::{Ident, Tag, Tags};
use std::alloc::Global;

/// What there is of a name in a structure or union. A member stands at `offset` in it, or beyond the
/// limit of all sizes, and is the one with the number `member` in the body of the structure or union
/// `tag`.
#[derive(Clone, Copy, PartialEq, Eq, Debug)]
pub enum Found {
    At {
        offset: Option<u32>,
        tag: u32,
        member: u32,
    },
    Missing,
    Ambiguous,
    Incomplete,
}

// A member's offset in the whole, the structure or union whose body has it, and its number there.
#[derive(Clone, Copy)]
pub(crate) struct MemberPlace {
    pub(crate) offset: Option<u32>,
    pub(crate) tag: u32,
    pub(crate) member: u32,
}

fn same_name(left: &Ident, right: &Ident) -> bool
    ensures { result ≡ same_name left.now right.now }
{
    left.list.as_slice() == right.list.as_slice()
}

fn named_here(placing: Placing, standing: Standing, name: &Ident) -> Sought<MemberPlace>
    ensures { told_sought result ≡ tally (named_among name.now (part_of standing) (placing_of placing.entry ∷ [])) }
{
    if same_name(name, &placing.member.name) {
        Sought::One(MemberPlace {
            offset: kept_offset(moved(standing.offset, placing.offset)),
            tag: standing.tag,
            member: placing.number,
        })
    } else {
        Sought::Nowhere
    }
}

fn named_among(placings: &[Placing], standing: Standing, name: &Ident) -> Sought<MemberPlace>
    ensures { told_sought result ≡ tally (named_among name.now (part_of standing) (all_placed placings.now)) }
{
    let mut found = Sought::Nowhere;
    let mut rest = placings;
    'placings: while let [placing, after @ ..] = rest {
        found = found.and(named_here(*placing, standing, name));
        rest = after;
    }
    found
}

// The members of a structure or union that have the name, as often as it stands there.
fn search_standing(
    alloc: Global,
    known: &mut KnownTags,
    standing: Standing,
    name: &Ident,
    tags: &[Tag],
) -> Result<Sought<MemberPlace>, NoMemory>
    requires ends { NoneContainsItself (tags_of tags.now) }
    requires sound { IsSound (tags_of tags.now) known.old.map.entries }
    ensures sound { OnOk result (IsSound (tags_of tags.now) known.new.map.entries) }
    ensures found { IfOk result (λ found. told_sought found
        ≡ tally (flat_map (named_places (tags_of tags.now) name.now) (copies_of standing))) }
{
    let placings = placed_members(alloc, known, standing.tag, tags)?;
    let found = named_among(placings.as_slice(), standing, name);
    Ok(found.repeated(standing.several))
}

fn search_level(
    alloc: Global,
    known: &mut KnownTags,
    level: &[Standing],
    name: &Ident,
    tags: &[Tag],
) -> Result<Sought<MemberPlace>, NoMemory>
    requires ends { NoneContainsItself (tags_of tags.now) }
    requires sound { IsSound (tags_of tags.now) known.old.map.entries }
    ensures sound { OnOk result (IsSound (tags_of tags.now) known.new.map.entries) }
    ensures found { IfOk result (λ found. told_sought found
        ≡ tally (flat_map (named_places (tags_of tags.now) name.now) (spread level.now))) }
{
    let mut found = Sought::Nowhere;
    let mut rest = level;
    'standings: while let [standing, after @ ..] = rest {
        let here = search_standing(alloc, known, *standing, name, tags)?;
        found = found.and(here);
        rest = after;
    }
    Ok(found)
}

fn has_body(tags: &[Tag], number: u32) -> bool
    ensures { result ≡ has_body (slice_get (tags_of tags.now) number) }
{
    match tag_at(tags, number) {
        Some(tag) => tag.members.is_some(),
        None => false,
    }
}

// The member, level by level.
fn find_by_levels(
    alloc: Global,
    tags: &[Tag],
    tag: u32,
    name: &Ident,
) -> Result<Sought<MemberPlace>, NoMemory>
    requires { NoneContainsItself (tags_of tags.now) }
    ensures { IfOk result (λ found. told_sought found ≡ sought (length (tags_of tags.now)) (tags_of tags.now)
        (named_places (tags_of tags.now) name.now) (whole tag ∷ [])) }
{
    let mut known = KnownTags::new(alloc);
    let mut met = MetTags::new(alloc);
    let mut level = Vec::new(alloc);
    level.push(Standing {
        tag,
        offset: 0,
        several: false,
    })?;
    let mut depth = tags.len();
    'levels: while depth > 0 {
        if level.is_empty() {
            return Ok(Sought::Nowhere);
        }
        let found = search_level(alloc, &mut known, level.as_slice(), name, tags)?;
        match found {
            Sought::Nowhere => {}
            Sought::One(_) | Sought::Several => return Ok(found),
        }
        level = descend(alloc, &mut known, &mut met, level.as_slice(), tags)?;
        depth -= 1;
    }
    Ok(Sought::Nowhere)
}

/// The member of a structure or union with this name: its own, or else that of its unnamed
/// substructures at the least level that has one.
pub fn find_member(alloc: Global, tags: &Tags, tag: u32, name: &Ident) -> Result<Found, NoMemory>
    requires { NoneContainsItself (tags_of tags.now.list) }
    ensures found { IfOk result (λ found.
        found ≡ without_type (find_member (tags_of tags.now.list) tag name.now)) }
    ensures member { IfOk result (TellsMember (tags_of tags.now.list) tag name.now) }
{
    let list = tags.list.as_slice();
    if !has_body(list, tag) {
        return Ok(Found::Incomplete);
    }
    match find_by_levels(alloc, list, tag, name)? {
        Sought::Nowhere => Ok(Found::Missing),
        Sought::One(place) => Ok(Found::At {
            offset: place.offset,
            tag: place.tag,
            member: place.member,
        }),
        Sought::Several => Ok(Found::Ambiguous),
    }
}
