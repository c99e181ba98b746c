// What is known as a function's body begins.
ghost use Rattle.std.specs.Prelude.{◌≡◌, length, IfOk, OnOk};
ghost use Rattle.p9_lang.specs.Types.{type_of, types_of, type_row, row_types};
ghost use Rattle.p9_lang.specs.Declaring.{names_of_list, open_body, parameter_count};
ghost use Rattle.p9_lang.specs.Declarators.{own_list};
ghost use Rattle.p9_scopes.specs.Seen.{level_of};
ghost use Rattle.p9_scopes.specs.State.{known_of};
ghost use Rattle.p9_declare.specs.Told.{steps_of};

use crate::objects::copied_meaning;
use crate::steps::{Step, own_list};
use p9_base::NoMemory;
use p9_lang::CType;
use p9_operand::copied;
use p9_scopes::{Declared, Known, NameLevel};
use p9_types::signature_of;
use std::alloc::Global;

fn copied_declared(alloc: Global, declared: &Declared) -> Result<Declared, NoMemory>
    ensures { IfOk result (λ copy. copy ≡ declared.now) }
{
    Ok(Declared {
        name: declared.name.copied(alloc)?,
        ty: copied(alloc, &declared.ty)?,
        means: copied_meaning(alloc, &declared.means)?,
        is_static: declared.is_static,
        is_filled: declared.is_filled,
    })
}

fn copied_level(alloc: Global, level: &NameLevel) -> Result<NameLevel, NoMemory>
    ensures { IfOk result (λ copy. copy ≡ level.now) }
{
    let mut copy = NameLevel::new(alloc);
    let mut rest = level.as_slice();
    'names: while let [declared, after @ ..] = rest {
        copy = copy.declared(alloc, copied_declared(alloc, declared)?)?;
        rest = after;
    }
    Ok(copy)
}

#[tactic(auto, using(crate::proofs::Types::row_length))]
fn count_of(parameters: &[CType]) -> Result<u32, NoMemory>
    ensures { IfOk result (λ count. count ≡ length (row_types (type_row (types_of parameters.now)))) }
{
    match u32::try_from(parameters.len()) {
        Ok(count) => Ok(count),
        Err(_) => Err(NoMemory),
    }
}

fn parameter_count(ty: &CType) -> Result<u32, NoMemory>
    ensures { IfOk result (λ count. count ≡ parameter_count (type_of ty.now)) }
{
    match signature_of(ty) {
        Some((_, parameters)) => count_of(parameters),
        None => Ok(0),
    }
}

fn body_level(alloc: Global, steps: &[Step]) -> Result<NameLevel, NoMemory>
    ensures { IfOk result (λ level. level_of level ≡ names_of_list (own_list (steps_of steps.now))) }
{
    match own_list(steps) {
        Some(level) => copied_level(alloc, level),
        None => Ok(NameLevel::new(alloc)),
    }
}

/// The body of a function of this type begins: the names of its own parameters go on round it, and
/// its automatics are counted behind them.
pub fn open_body(
    known: &mut Known,
    alloc: Global,
    ty: &CType,
    steps: &[Step],
) -> Result<(), NoMemory>
    ensures { OnOk result (known_of known.new
        ≡ open_body (steps_of steps.now) (record (known_of known.old) { autos = parameter_count (type_of ty.now) })) }
{
    let count = parameter_count(ty)?;
    let level = body_level(alloc, steps)?;
    known.set_autos(count);
    known.open_level(level)
}
