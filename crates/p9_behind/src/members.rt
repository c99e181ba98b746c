// Members: behind the last part in braces the structure is complete.
ghost use Rattle.std.specs.Prelude.{◌≡◌, [], ◌∷◌, ◌++◌, ◌==◌, suc, IfOk, OnOk};
ghost use Rattle.p9_lang.specs.Types.{members_of};
ghost use Rattle.p9_lang.specs.Parts as parts;
ghost use Rattle.p9_lang.specs.Declaring as specs;
ghost use Rattle.p9_scopes.specs.State.{known_of};
ghost use Rattle.p9_parts.specs.Told.{parts_of, frame_of};

use p9_base::NoMemory;
use p9_lang::Member;
use p9_operand::copied;
use p9_parts::{Frame, Part, Parts};
use p9_scopes::Known;
use sqlite_items::Items;
use std::alloc::Global;

fn copied_member(alloc: Global, member: &Member) -> Result<Member, NoMemory>
    ensures { IfOk result (λ copy. copy ≡ member.now) }
{
    Ok(Member {
        name: member.name.copied(alloc)?,
        ty: copied(alloc, &member.ty)?,
    })
}

// Members, and copies of others behind them.
fn with_copies(
    alloc: Global,
    members: Items<Member>,
    others: &[Member],
) -> Result<Items<Member>, NoMemory>
    ensures { IfOk result (λ all. all ≡ members ++ others.now) }
{
    let mut all = members;
    let mut rest = others;
    'members: while let [member, after @ ..] = rest {
        all.push(copied_member(alloc, member)?)?;
        rest = after;
    }
    Ok(all)
}

// Members, and those of a part behind them.
#[tactic(auto, using(crate::proofs::Joining::members_with))]
fn with_part(alloc: Global, members: Items<Member>, part: &Part) -> Result<Items<Member>, NoMemory>
    ensures { IfOk result (λ all. members_of all ≡ members_of members ++ parts.members_in (parts_of (part.now ∷ []))) }
{
    match part {
        Part::Members(others) => {
            let all = with_copies(alloc, members, others.as_slice())?;
            Ok(all)
        }
        Part::Value(_)
        | Part::Declarator(_)
        | Part::Object { .. }
        | Part::Enumerator { .. }
        | Part::Parameter(_)
        | Part::NamedType(_)
        | Part::Braced(_)
        | Part::Filled(_)
        | Part::CaseLabel(_)
        | Part::DefaultLabel
        | Part::Statement => Ok(members),
    }
}

// The members that parts have.
#[tactic(auto, using(crate::proofs::Joining::members_on))]
fn members_in(alloc: Global, before: &[Part]) -> Result<Items<Member>, NoMemory>
    ensures { IfOk result (λ all. members_of all ≡ parts.members_in (parts_of before.now)) }
{
    let mut all = Items::new(alloc);
    let mut rest = before;
    'parts: while let [part, after @ ..] = rest {
        all = with_part(alloc, all, part)?;
        rest = after;
    }
    Ok(all)
}

// Whether a part behind so many is the last of so many in braces.
#[tactic(auto, using(std::proofs::lemmas::Bool::Decides::nat_tests))]
fn is_last(before: usize, braces: u32) -> bool
    ensures { result ≡ (suc before == braces) }
{
    match braces.checked_sub(1) {
        Some(others) => before as u64 == u64::from(others),
        None => false,
    }
}

/// Behind the last part in the braces of a structure this has its members.
#[tactic(auto, using(crate::proofs::Joining::members_append, crate::proofs::Bodies::body_goes_on, crate::proofs::Bodies::body_ends))]
pub(crate) fn with_members(
    known: &mut Known,
    alloc: Global,
    frame: &Frame,
    before: &Parts,
    members: &[Member],
) -> Result<(), NoMemory>
    ensures { OnOk result (known_of known.new
        ≡ specs.with_members (frame_of [] frame.now) (parts_of before.now) (parts.Members (members_of members.now)) (known_of known.old)) }
{
    let Some(number) = frame.tag else {
        return Ok(());
    };
    if !is_last(before.len(), frame.braces) {
        return Ok(());
    }
    let others = members_in(alloc, before.as_slice())?;
    let all = with_copies(alloc, others, members)?;
    known.complete_tag(alloc, number, all)
}
