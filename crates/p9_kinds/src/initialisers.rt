// Lists in braces and their entries.
ghost use Rattle.std.specs.Prelude.{◌≡◌, ℕ, suc, List, IfOk};
ghost use Rattle.std.specs.Option.{option_copied};
ghost use Rattle.p9_lang.specs.Types.{Array, type_of};
ghost use Rattle.p9_lang.specs.Entries.{filled_type, entry_position};
ghost use Rattle.p9_lang.specs.Parts as parts;
ghost use Rattle.p9_lang.specs.Typing as specs;
ghost use Rattle.p9_scopes.specs.State.{known_of};
ghost use Rattle.p9_declare.specs.Judging.{Judges};
ghost use Rattle.p9_declare.specs.Told.{type_in};
ghost use Rattle.p9_parts.specs.Told.{part_of, parts_of, role_of};

use crate::nodes::{added, has};
use p9_base::NoMemory;
use p9_declare::TypingFault;
use p9_lang::{Bind, CType, EntryBy};
use p9_opening::{entry_position, entry_role, entry_rule};
use p9_operand::{Rule, copied};
use p9_parts::{Part, Role};
use p9_scopes::Known;
use p9_types::array_elements;
use sqlite_items::Boxed;
use std::alloc::Global;

// An array of these elements.
#[tactic(auto, using(p9_types::proofs::Shapes::shapes))]
fn array_of(alloc: Global, element: &CType, count: u32) -> Result<CType, NoMemory>
    ensures { IfOk result (λ ty. type_of ty ≡ Array (type_of element.now) count) }
{
    let element = copied(alloc, element)?;
    Ok(CType::Array(Boxed::new(alloc, element)?, count))
}

// The type of a list in braces for an object of this type: the list gives a length to an array
// without one.
#[tactic(auto, using(crate::proofs::Braces::sized_by_list, crate::proofs::Braces::sized_already, crate::proofs::Braces::no_array))]
fn braced_type(alloc: Global, ty: &CType, count: u32) -> Result<CType, NoMemory>
    ensures { IfOk result (λ made. type_of made ≡ specs.list_type (parts.Fills (type_of ty.now)) count) }
{
    match array_elements(ty) {
        Some(elements) => {
            if elements.count == 0 {
                array_of(alloc, elements.ty, count)
            } else {
                copied(alloc, ty)
            }
        }
        None => copied(alloc, ty),
    }
}

#[tactic(auto, using(p9_types::proofs::Shapes::type_of_void))]
fn list_type(alloc: Global, role: &Role, count: u32) -> Result<CType, NoMemory>
    ensures { IfOk result (λ ty. (names : List (List ℕ)) → type_of ty ≡ specs.list_type (role_of names role.now) count) }
{
    match role {
        Role::Fills(ty) => braced_type(alloc, ty, count),
        Role::Plain
        | Role::Whole
        | Role::Declares { .. }
        | Role::ParameterOf { .. }
        | Role::InBraces
        | Role::EntryOf { .. }
        | Role::Assigns(_)
        | Role::Outside => Ok(CType::Void),
    }
}

/// A list in braces, which goes to so many positions.
pub(crate) fn judged_list(
    known: &mut Known,
    alloc: Global,
    role: &Role,
    count: u32,
) -> Result<Part, TypingFault>
    ensures { (names : List (List ℕ)) → Judges part_of result (known_of known.new)
        (specs.judged_list (role_of names role.now) count (known_of known.old)) }
{
    let ty = list_type(alloc, role, count)?;
    added(known, ty, Bind::Nothing, Part::Braced(count))
}

#[tactic(auto, using(p9_types::proofs::Shapes::type_of_void))]
fn filled_type(role: Role) -> CType
    ensures { (names : List (List ℕ)) → type_of result ≡ filled_type (role_of names role) }
{
    match role {
        Role::Fills(ty) => ty,
        Role::Plain
        | Role::Whole
        | Role::Declares { .. }
        | Role::ParameterOf { .. }
        | Role::InBraces
        | Role::EntryOf { .. }
        | Role::Assigns(_)
        | Role::Outside => CType::Void,
    }
}

// The position behind an entry.
fn position_behind(
    known: &Known,
    alloc: Global,
    list: Option<&CType>,
    next: u32,
    by: &EntryBy,
    parts: &[Part],
) -> Result<u32, NoMemory>
    ensures { IfOk result (λ behind. behind
        ≡ suc (entry_position (known_of known.now).tags (type_in (option_copied list.entry)) next by.now (parts_of parts.now))) }
{
    let position = entry_position(known, list, next, by, parts)?;
    match position.checked_add(1) {
        Some(behind) => Ok(behind),
        None => Err(NoMemory),
    }
}

/// An entry of a list.
pub(crate) fn judged_entry(
    known: &mut Known,
    alloc: Global,
    by: &EntryBy,
    role: &Role,
    parts: &[Part],
) -> Result<Part, TypingFault>
    ensures { (names : List (List ℕ)) → Judges part_of result (known_of known.new)
        (specs.judged_entry by.now (role_of names role.now) (parts_of parts.now) (known_of known.old)) }
{
    match role {
        Role::EntryOf { list, next } => {
            let rule = entry_rule(known, alloc, list.as_ref(), *next, by, parts)?;
            let filled = entry_role(known, alloc, role, by, parts)?;
            let behind = position_behind(known, alloc, list.as_ref(), *next, by, parts)?;
            has(
                known,
                rule,
                filled_type(filled),
                Bind::Nothing,
                Part::Filled(behind),
            )
        }
        Role::Plain
        | Role::Whole
        | Role::Declares { .. }
        | Role::ParameterOf { .. }
        | Role::InBraces
        | Role::Fills(_)
        | Role::Assigns(_)
        | Role::Outside => Err(TypingFault::Broken {
            node: known.next_node(),
            rule: Rule::Malformed,
        }),
    }
}
