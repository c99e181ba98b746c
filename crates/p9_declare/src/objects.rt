// Objects, functions and names of types that are declared.
ghost use Rattle.std.specs.Prelude.{◌≡◌, ◌+◌, if◌then◌else◌, slice_get, unwrap_or, IfOk, OnOk};
ghost use Rattle.p9_lang.specs.Types.{type_of, meant, Nothing};
ghost use Rattle.p9_lang.specs.Scopes.{innermost, in_level};
ghost use Rattle.p9_lang.specs.Declarators as specs;
ghost use Rattle.p9_lang.specs.Parts.{Object};
ghost use Rattle.p9_lang.specs.Declaring.{last_node, takes_automatic, initialiser_role, declared_meaning, declare_as, declare_object};
ghost use Rattle.p9_scopes.specs.Seen.{declared_of};
ghost use Rattle.p9_scopes.specs.State.{known_of};
ghost use Rattle.p9_declare.specs.Closing.{closed_with};
ghost use Rattle.p9_declare.specs.Judging.{Judges};
ghost use Rattle.p9_declare.specs.Told.{told_by, told_declaring, told_name, steps_of};

use crate::closing::{close, last_node};
use crate::fault::{TypingFault, also_broken};
use crate::rules::naming_rules;
use crate::shaping::LengthBy;
use crate::steps::{NameNode, Step, name_of};
use crate::storage::Declaring;
use p9_base::NoMemory;
use p9_lang::{Bind, CType};
use p9_operand::{Rule, copied};
use p9_scopes::{Declared, Known};
use std::alloc::Global;

// Another meaning like it.
pub(crate) fn copied_meaning(alloc: Global, means: &Bind) -> Result<Bind, NoMemory>
    ensures { IfOk result (λ copy. copy ≡ means.now) }
{
    match means {
        Bind::Nothing => Ok(Bind::Nothing),
        Bind::Outer(name) => Ok(Bind::Outer(name.copied(alloc)?)),
        Bind::Static(number) => Ok(Bind::Static(*number)),
        Bind::Auto(number) => Ok(Bind::Auto(*number)),
        Bind::EnumValue(value) => Ok(Bind::EnumValue(*value)),
        Bind::TypeName(ty) => Ok(Bind::TypeName(copied(alloc, ty)?)),
    }
}

// What a node means so far.
fn meaning_at(alloc: Global, known: &Known, node: usize) -> Result<Bind, NoMemory>
    ensures { IfOk result (λ means. meant means ≡ unwrap_or (slice_get (known_of known.now).means node) Nothing) }
{
    match known.meaning(node) {
        Some(means) => copied_meaning(alloc, means),
        None => Ok(Bind::Nothing),
    }
}

// What a declared name stands for.
fn declared_meaning(
    alloc: Global,
    known: &Known,
    declaring: Declaring,
    name: NameNode,
    ty: &CType,
) -> Result<Bind, NoMemory>
    ensures { IfOk result (λ means. meant means
        ≡ declared_meaning (told_declaring declaring) (told_name name.entry) (type_of ty.now) (known_of known.now)) }
{
    if declaring.storage.is_typedef() {
        return Ok(Bind::TypeName(copied(alloc, ty)?));
    }
    if declaring.is_at_file {
        return Ok(Bind::Outer(name.name.copied(alloc)?));
    }
    if declaring.storage.is_static() {
        return meaning_at(alloc, known, name.number);
    }
    Ok(Bind::Auto(known.next_auto()))
}

fn declared_as(
    alloc: Global,
    declaring: Declaring,
    name: NameNode,
    ty: &CType,
    means: &Bind,
) -> Result<Declared, NoMemory>
    ensures { IfOk result (λ d. declared_of d ≡ record {
      name = name.entry.name.now;
      type = type_of ty.now;
      means = meant means.now;
      is_static = specs.is_static (told_declaring declaring).storage;
      is_filled = specs.is_filled (told_declaring declaring);
    }) }
{
    Ok(Declared {
        name: name.name.copied(alloc)?,
        ty: copied(alloc, ty)?,
        means: copied_meaning(alloc, means)?,
        is_static: declaring.storage.is_static(),
        is_filled: declaring.is_filled(),
    })
}

// One automatic more, where one is declared.
fn count_automatic(known: &mut Known, declaring: Declaring) -> Result<(), NoMemory>
    ensures { OnOk result (known_of known.new ≡ record (known_of known.old) {
      autos = if takes_automatic (told_declaring declaring) then (known_of known.old).autos + 1 else (known_of known.old).autos;
    }) }
{
    if declaring.takes_automatic() {
        let _number = known.take_auto()?;
    }
    Ok(())
}

// A name is declared with this type.
fn declare_as(
    known: &mut Known,
    alloc: Global,
    declaring: Declaring,
    name: NameNode,
    ty: &CType,
) -> Result<(), NoMemory>
    ensures { OnOk result (known_of known.new
        ≡ declare_as (told_declaring declaring) (told_name name.entry) (type_of ty.now) (known_of known.old)) }
{
    let means = declared_meaning(alloc, known, declaring, name, ty)?;
    let declared = declared_as(alloc, declaring, name, ty, &means)?;
    known.set_meaning(name.number, means);
    count_automatic(known, declaring)?;
    known.declare(alloc, declared)
}

// The type of a declarator, unless it or its name breaks a rule.
fn close_object(
    known: &mut Known,
    alloc: Global,
    declaring: Declaring,
    by: LengthBy,
    base: &CType,
    steps: &[Step],
    name: NameNode,
) -> Result<CType, TypingFault>
    ensures { Judges type_of result (known_of known.new)
        (closed_with (last_node (known_of known.old))
        (specs.naming_rules (known_of known.old).tags (told_declaring declaring) name.entry.name.now (in_level name.entry.name.now (innermost (known_of known.old).names)))
        (told_by by) (type_of base.now) (steps_of steps.now) (known_of known.old)) }
{
    let last = last_node(known);
    let untyped = naming_rules(alloc, known, declaring, name.name, None)?;
    match close(known, alloc, by, base, steps) {
        Ok(ty) => {
            let typed = naming_rules(alloc, known, declaring, name.name, Some(&ty))?;
            match typed {
                Some(rule) => Err(TypingFault::Broken { node: last, rule }),
                None => Ok(ty),
            }
        }
        Err(fault) => Err(also_broken(fault, last, untyped)),
    }
}

/// A name of an object, a function or a type is declared. The answer is its type.
#[tactic(auto, using(crate::proofs::Declared::object_nameless))]
pub fn declare_object(
    known: &mut Known,
    alloc: Global,
    declaring: Declaring,
    by: LengthBy,
    base: &CType,
    steps: &[Step],
) -> Result<CType, TypingFault>
    ensures { Judges
        (λ ty. Object (type_of ty) (steps_of steps.now) (last_node (known_of known.old)) (initialiser_role (told_declaring declaring) (type_of ty)))
        result (known_of known.new)
        (declare_object (told_declaring declaring) (told_by by) (type_of base.now) (steps_of steps.now) (specs.name_of (steps_of steps.now)) (known_of known.old)) }
{
    let Some(name) = name_of(steps) else {
        return Err(TypingFault::Broken {
            node: last_node(known),
            rule: Rule::Malformed,
        });
    };
    match close_object(known, alloc, declaring, by, base, steps, name) {
        Ok(ty) => {
            declare_as(known, alloc, declaring, name, &ty)?;
            Ok(ty)
        }
        Err(fault) => Err(fault),
    }
}
