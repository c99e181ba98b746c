// Parameters that are declared.
ghost use Rattle.std.specs.Prelude.{◌≡◌, IfOk, OnOk};
ghost use Rattle.p9_lang.specs.Types.{TypeTree, type_of, meant};
ghost use Rattle.p9_lang.specs.Scopes.{innermost, in_level};
ghost use Rattle.p9_lang.specs.Declarators as specs;
ghost use Rattle.p9_lang.specs.Parts.{Object, Plain};
ghost use Rattle.p9_lang.specs.Declaring.{last_node, parameter_rules};
ghost use Rattle.p9_operand.specs.Least.{least};
ghost use Rattle.p9_operand.specs.Told.{told_least};
ghost use Rattle.p9_scopes.specs.State.{known_of};
ghost use Rattle.p9_declare.specs.Closing.{closed_with};
ghost use Rattle.p9_declare.specs.Judging.{Judges};
ghost use Rattle.p9_declare.specs.Operations.{automatic, with_parameter, parameter_declared};
ghost use Rattle.p9_declare.specs.Told.{told_name, steps_of};

use crate::closing::{close, last_node};
use crate::fault::{TypingFault, also_broken};
use crate::rules::redeclared_if;
use crate::shaping::{LengthBy, adjusted};
use crate::steps::{NameNode, Step, name_of};
use p9_base::NoMemory;
use p9_lang::{Bind, CType, Ident};
use p9_operand::{Rule, copied};
use p9_scopes::{Declared, Known};
use std::alloc::Global;

/// The rule that a name at the innermost level isn't declared again.
pub(crate) fn new_name_rules(
    alloc: Global,
    known: &Known,
    name: &Ident,
) -> Result<Option<Rule>, NoMemory>
    ensures { IfOk result (λ rule. told_least rule
        ≡ least (parameter_rules name.now (in_level name.now (innermost (known_of known.now).names)))) }
{
    let is_declared = known.find_innermost(name).is_some();
    redeclared_if(alloc, is_declared, name)
}

fn close_parameter(
    known: &mut Known,
    alloc: Global,
    base: &CType,
    steps: &[Step],
    name: &Ident,
) -> Result<CType, TypingFault>
    ensures { Judges type_of result (known_of known.new)
        (closed_with (last_node (known_of known.old)) (λ type. parameter_rules name.now (in_level name.now (innermost (known_of known.old).names)))
        specs.ByCaller (type_of base.now) (steps_of steps.now) (known_of known.old)) }
{
    let last = last_node(known);
    let untyped = new_name_rules(alloc, known, name)?;
    match close(known, alloc, LengthBy::ByCaller, base, steps) {
        Ok(ty) => match untyped {
            Some(rule) => Err(TypingFault::Broken { node: last, rule }),
            None => Ok(ty),
        },
        Err(fault) => Err(also_broken(fault, last, untyped)),
    }
}

fn automatic(number: Option<u32>) -> Bind
    ensures { meant result ≡ automatic number }
{
    match number {
        Some(number) => Bind::Auto(number),
        None => Bind::Nothing,
    }
}

// A parameter of this type has a name.
fn name_parameter(
    known: &mut Known,
    alloc: Global,
    number: Option<u32>,
    name: NameNode,
    ty: &CType,
) -> Result<(), NoMemory>
    ensures { OnOk result ((type : TypeTree) → specs.adjusted type ≡ type_of ty.now → known_of known.new
        ≡ with_parameter (automatic number) (told_name name.entry) type (known_of known.old)) }
{
    let declared = Declared {
        name: name.name.copied(alloc)?,
        ty: copied(alloc, ty)?,
        means: automatic(number),
        is_static: false,
        is_filled: false,
    };
    known.set_type(name.number, copied(alloc, ty)?);
    known.set_meaning(name.number, automatic(number));
    known.declare(alloc, declared)
}

/// A parameter is declared, with a name or without; it is an automatic of this number if it has one.
/// The answer is its type, where an array or a function is a pointer.
#[tactic(auto, using(crate::proofs::Declared::parameter_unnamed, crate::proofs::Declared::parameter_unnamed_broken, crate::proofs::Declared::parameter_named, crate::proofs::Declared::parameter_broken))]
pub fn declare_parameter(
    known: &mut Known,
    alloc: Global,
    base: &CType,
    number: Option<u32>,
    steps: &[Step],
) -> Result<CType, TypingFault>
    ensures { Judges (λ ty. Object (type_of ty) (steps_of steps.now) (last_node (known_of known.old)) Plain) result (known_of known.new)
        (parameter_declared (type_of base.now) (automatic number) (steps_of steps.now) (specs.name_of (steps_of steps.now)) (known_of known.old)) }
{
    let Some(name) = name_of(steps) else {
        return match close(known, alloc, LengthBy::ByCaller, base, steps) {
            Ok(ty) => Ok(adjusted(alloc, &ty)?),
            Err(fault) => Err(fault),
        };
    };
    match close_parameter(known, alloc, base, steps, name.name) {
        Ok(ty) => {
            let ty = adjusted(alloc, &ty)?;
            name_parameter(known, alloc, number, name, &ty)?;
            Ok(ty)
        }
        Err(fault) => Err(fault),
    }
}
