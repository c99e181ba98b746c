// The members that a declaration of members has.
ghost use Rattle.std.specs.Prelude.{◌≡◌, ◌∷◌, ◌++◌, [], IfOk};
ghost use Rattle.std.specs.Option.{option_map, option_copied};
ghost use Rattle.p9_lang.specs.Types.{TypeTree, type_of, members_of};
ghost use Rattle.p9_lang.specs.Declarators as declarators;
ghost use Rattle.p9_lang.specs.Parts as specs;
ghost use Rattle.p9_declare.specs.Told.{steps_of};
ghost use Rattle.p9_parts.specs.Told.{part_of, parts_of};

use crate::steps::reversed;
use p9_base::NoMemory;
use p9_declare::{Step, name_of};
use p9_lang::{CType, Ident, Member};
use p9_operand::copied;
use p9_parts::{Part, Parts};
use sqlite_items::Items;
use std::alloc::Global;

/// The type of an object that is declared, or another if none is.
pub(crate) fn object_type(
    alloc: Global,
    object: Option<&Part>,
    otherwise: CType,
) -> Result<CType, NoMemory>
    ensures { IfOk result (λ t. type_of t ≡ specs.object_type (option_map part_of (option_copied object.entry)) (type_of otherwise)) }
{
    match object {
        Some(
            Part::Object {
                ty,
                steps: _,
                last: _,
                initialiser: _,
            },
        ) => copied(alloc, ty),
        Some(
            Part::Value(_)
            | Part::Declarator(_)
            | Part::Members(_)
            | Part::Enumerator { .. }
            | Part::Parameter(_)
            | Part::NamedType(_)
            | Part::Braced(_)
            | Part::Filled(_)
            | Part::CaseLabel(_)
            | Part::DefaultLabel
            | Part::Statement,
        )
        | None => Ok(otherwise),
    }
}

fn no_name(alloc: Global) -> Ident
    ensures { result ≡ [] }
{
    Ident {
        list: Vec::new(alloc),
    }
}

fn declared_name(alloc: Global, steps: &[Step]) -> Result<Ident, NoMemory>
    ensures { IfOk result (λ name. name ≡ specs.name_in (declarators.name_of (steps_of steps.now))) }
{
    match name_of(steps) {
        Some(node) => Ok(node.name.copied(alloc)?),
        None => Ok(no_name(alloc)),
    }
}

#[tactic(auto, using(crate::proofs::Listing::members_end))]
fn with_member(members: Items<Member>, name: Ident, ty: CType) -> Result<Items<Member>, NoMemory>
    ensures { IfOk result (λ more. members_of more ≡ members_of members ++ record { name = name; type = type_of ty } ∷ []) }
{
    let mut members = members;
    members.push(Member { name, ty })?;
    Ok(members)
}

// One member more, if the part is one.
fn with_declared(
    alloc: Global,
    members: Items<Member>,
    part: Part,
) -> Result<Items<Member>, NoMemory>
    ensures { IfOk result (λ more. (base : TypeTree) → members_of more ≡ members_of members ++ specs.declared_members base (part_of part ∷ [])) }
{
    match part {
        Part::Object {
            ty,
            steps,
            last: _,
            initialiser: _,
        } => {
            let name = declared_name(alloc, steps.as_slice())?;
            with_member(members, name, ty)
        }
        Part::Value(_)
        | Part::Declarator(_)
        | Part::Members(_)
        | Part::Enumerator { .. }
        | Part::Parameter(_)
        | Part::NamedType(_)
        | Part::Braced(_)
        | Part::Filled(_)
        | Part::CaseLabel(_)
        | Part::DefaultLabel
        | Part::Statement => Ok(members),
    }
}

/// The members that these parts declare.
#[tactic(auto, using(crate::proofs::Listing::members_step))]
pub(crate) fn declared_members(alloc: Global, parts: Parts) -> Result<Items<Member>, NoMemory>
    ensures { IfOk result (λ members. (base : TypeTree) → members_of members ≡ specs.declared_members base (parts_of parts)) }
{
    let mut members = Items::new(alloc);
    let mut left = reversed(parts);
    'parts: while let Some(part) = left.pop() {
        members = with_declared(alloc, members, part)?;
    }
    Ok(members)
}

/// These members, or an unnamed one where there are none.
pub(crate) fn or_unnamed(
    alloc: Global,
    base: CType,
    members: Items<Member>,
) -> Result<Items<Member>, NoMemory>
    ensures { IfOk result (λ all. members_of all ≡ specs.or_unnamed (type_of base) (members_of members)) }
{
    if members.is_empty() {
        with_member(Items::new(alloc), no_name(alloc), base)
    } else {
        Ok(members)
    }
}
