// Members of a structure or union, by their numbers and names.
ghost use Rattle.std.specs.Prelude.{◌≡◌, ◌+◌, Some, None, IfOk, MatchOption, slice_get};
ghost use Rattle.std.specs.Option.{option_map, option_copied};
ghost use Rattle.p9_lang.specs.Names.{same_name};
ghost use Rattle.p9_lang.specs.Types.{member_of, members_of, tags_of};
ghost use Rattle.p9_lang.specs.Members.{placed, direct_member};
ghost use Rattle.p9_declare.specs.Told.{type_in};
ghost use Rattle.p9_opening.specs.Filling.{told_place, placing, placed_type, tag_members, first_named, numbered};

use p9_base::NoMemory;
use p9_lang::{CType, Ident, Member, Tags};
use p9_types::tag_at;

/// A member's type, and its number in the body.
#[derive(Clone, Copy)]
pub(crate) struct Place<'a> {
    pub(crate) ty: &'a CType,
    pub(crate) number: u32,
}

// The next member's number. There is no room for numbers of more than 32 bits.
fn following(number: u32) -> Result<u32, NoMemory>
    ensures { IfOk result (λ n. n ≡ number + 1) }
{
    number.checked_add(1).ok_or(NoMemory)
}

fn same_name(left: &Ident, right: &Ident) -> bool
    ensures { result ≡ same_name left.now right.now }
{
    left.list.as_slice() == right.list.as_slice()
}

fn body_of(tags: &Tags, tag: u32) -> &[Member]
    ensures { members_of result.now ≡ tag_members (slice_get (tags_of tags.now.list) tag) }
{
    let Some(tag) = tag_at(tags.list.as_slice(), tag) else {
        return &[];
    };
    match &tag.members {
        Some(members) => members.as_slice(),
        None => &[],
    }
}

fn looked_up(members: &[Member], number: u32) -> Option<&Member>
    ensures { MatchOption result (slice_get (members_of members.now) number ≡ None) (λ member.
        slice_get (members_of members.now) number ≡ Some (member_of member.now)) }
{
    members.get(number as usize)
}

fn numbered(members: &[Member], number: u32) -> Option<Place<'_>>
    ensures { option_map told_place result ≡ numbered number (slice_get (members_of members.now) number) }
{
    match looked_up(members, number) {
        Some(member) => Some(Place {
            ty: &member.ty,
            number,
        }),
        None => None,
    }
}

fn first_named<'a>(members: &'a [Member], name: &Ident) -> Result<Option<Place<'a>>, NoMemory>
    ensures { IfOk result (λ place. option_map told_place place ≡ first_named name.now 0 (members_of members.now)) }
{
    let mut number: u32 = 0;
    let mut rest = members;
    'members: while let [member, after @ ..] = rest {
        if same_name(name, &member.name) {
            return Ok(Some(Place {
                ty: &member.ty,
                number,
            }));
        }
        number = following(number)?;
        rest = after;
    }
    Ok(None)
}

/// The member with a number.
#[tactic(auto, using(crate::proofs::Placings::placed_by_number))]
pub(crate) fn member_at(tags: &Tags, tag: u32, number: u32) -> Option<Place<'_>>
    ensures { option_map told_place result ≡ placing (slice_get (placed (tags_of tags.now.list) tag) number) }
{
    numbered(body_of(tags, tag), number)
}

/// The member with a name; an unnamed substructure is not looked into.
#[tactic(auto, using(crate::proofs::Placings::placed_by_name))]
pub(crate) fn member_named<'a>(
    tags: &'a Tags,
    tag: u32,
    name: &Ident,
) -> Result<Option<Place<'a>>, NoMemory>
    ensures { IfOk result (λ place. option_map told_place place ≡ placing (slice_get (direct_member (tags_of tags.now.list) tag name.now) 0)) }
{
    first_named(body_of(tags, tag), name)
}

/// The type of a member that there is.
pub(crate) fn type_at(place: Option<Place<'_>>) -> Option<&CType>
    ensures { type_in (option_copied result) ≡ placed_type (option_map told_place place.entry) }
{
    match place {
        Some(place) => Some(place.ty),
        None => None,
    }
}
