// Objects whose initialisers give their lengths.
ghost use Rattle.std.specs.Prelude.{◌≡◌, IfOk, map, Some};
ghost use Rattle.std.specs.Option.{option_map, option_copied};
ghost use Rattle.p9_lang.specs.Types.{type_of};
ghost use Rattle.p9_lang.specs.Scopes.{innermost};
ghost use Rattle.p9_lang.specs.Declarators as specs;
ghost use Rattle.p9_lang.specs.Parts.{name_in};
ghost use Rattle.p9_lang.specs.Declaring.{length_rules, declared_before, with_given_length};
ghost use Rattle.p9_operand.specs.Least.{least};
ghost use Rattle.p9_operand.specs.Told.{told_least};
ghost use Rattle.p9_scopes.specs.Seen.{declared_in};
ghost use Rattle.p9_scopes.specs.State.{known_of};
ghost use Rattle.p9_declare.specs.Closing.{closed_with, with_given};
ghost use Rattle.p9_declare.specs.Judging.{Judges, Leaves};
ghost use Rattle.p9_declare.specs.Told.{steps_of};

use crate::closing::close_given;
use crate::fault::TypingFault;
use crate::rules::redeclared_if;
use crate::steps::{Step, name_of};
use p9_base::NoMemory;
use p9_lang::{CType, Ident};
use p9_operand::Rule;
use p9_scopes::Known;
use p9_types::same_type;
use std::alloc::Global;

// The rule that the declaration before has the same type.
fn length_rules(
    alloc: Global,
    known: &Known,
    name: &Ident,
    ty: &CType,
) -> Result<Option<Rule>, NoMemory>
    ensures { IfOk result (λ rule. told_least rule
        ≡ least (length_rules name.now (declared_before name.now (innermost (known_of known.now).names)) (Some (type_of ty.now)))) }
{
    match known.find_before(name) {
        Some(old) => {
            let is_same = same_type(alloc, &old.ty, ty)?;
            redeclared_if(alloc, !is_same, name)
        }
        None => Ok(None),
    }
}

fn close_again(
    known: &mut Known,
    alloc: Global,
    base: &CType,
    steps: &[Step],
    last: usize,
    count: u32,
    name: &Ident,
) -> Result<CType, TypingFault>
    ensures { Judges type_of result (known_of known.new)
        (closed_with last (length_rules name.now (declared_before name.now (innermost (known_of known.old).names)))
        specs.ByNothing (type_of base.now) (map (specs.with_length count) (steps_of steps.now)) (known_of known.old)) }
{
    match close_given(known, alloc, count, base, steps) {
        Ok(ty) => {
            let rule = length_rules(alloc, known, name, &ty)?;
            match rule {
                Some(rule) => Err(TypingFault::Broken { node: last, rule }),
                None => Ok(ty),
            }
        }
        Err(fault) => Err(fault),
    }
}

#[tactic(auto, using(crate::proofs::Declared::length_given))]
fn with_named_length(
    known: &mut Known,
    alloc: Global,
    base: &CType,
    steps: &[Step],
    last: usize,
    count: u32,
    name: &Ident,
) -> Result<(), TypingFault>
    ensures { Leaves result (known_of known.new)
        (with_given_length (type_of base.now) (steps_of steps.now) last count name.now (known_of known.old)) }
{
    match close_again(known, alloc, base, steps, last, count, name) {
        Ok(ty) => {
            known.retype(alloc, name, ty)?;
            Ok(())
        }
        Err(fault) => Err(fault),
    }
}

/// An object without a length, whose last node is `last`, has this one.
pub fn with_given_length(
    known: &mut Known,
    alloc: Global,
    base: &CType,
    steps: &[Step],
    last: usize,
    count: u32,
) -> Result<(), TypingFault>
    ensures { Leaves result (known_of known.new)
        (with_given_length (type_of base.now) (steps_of steps.now) last count (name_in (specs.name_of (steps_of steps.now))) (known_of known.old)) }
{
    let nameless = Ident {
        list: Vec::new(alloc),
    };
    let name = match name_of(steps) {
        Some(node) => node.name,
        None => &nameless,
    };
    with_named_length(known, alloc, base, steps, last, count, name)
}
