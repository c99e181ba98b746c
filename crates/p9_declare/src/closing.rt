// Declarators that are whole: the types of their nodes.
ghost use Rattle.std.specs.Prelude.{◌≡◌, List, map, OnOk};
ghost use Rattle.p9_lang.specs.Types.{type_of};
ghost use Rattle.p9_lang.specs.Parts.{Object, Plain};
ghost use Rattle.p9_lang.specs.Declarators as specs;
ghost use Rattle.p9_lang.specs.Declaring as declaring;
ghost use Rattle.p9_lang.specs.Declaring.{last_node};
ghost use Rattle.p9_scopes.specs.State.{known_of};
ghost use Rattle.p9_declare.specs.Judging.{Judges};
ghost use Rattle.p9_declare.specs.Closing.{with_given, step_closed, closed_over};
ghost use Rattle.p9_declare.specs.Operations.{type_closed};
ghost use Rattle.p9_declare.specs.Told.{told_by, told_step, steps_of};

use crate::fault::TypingFault;
use crate::shaping::{LengthBy, shaped_with};
use crate::steps::{Step, make_no_type};
use p9_base::NoMemory;
use p9_lang::CType;
use p9_operand::{RuleFault, copied};
use p9_scopes::Known;
use std::alloc::Global;

/// The number of the last node.
pub fn last_node(known: &Known) -> usize
    ensures { result ≡ last_node (known_of known.now) }
{
    match known.next_node().checked_sub(1) {
        Some(last) => last,
        None => 0,
    }
}

// What gives a length to a declarator's brackets without one, and the length if it is known.
#[derive(Clone, Copy)]
struct Lengths {
    by: LengthBy,
    given: Option<u32>,
}

// A step of a declarator, whose type becomes that of its node.
#[tactic(auto, using(crate::proofs::Inwards::step_ok, crate::proofs::Inwards::step_broken))]
fn close_step(
    known: &mut Known,
    alloc: Global,
    lengths: Lengths,
    is_outermost: bool,
    step: &Step,
    ty: &CType,
) -> Result<CType, TypingFault>
    ensures { Judges type_of result (known_of known.new)
        (step_closed (told_by lengths.by) is_outermost (with_given lengths.given (told_step step.now)) (type_of ty.now) (known_of known.old)) }
{
    let made = shaped_with(
        alloc,
        known.tags(),
        lengths.by,
        lengths.given,
        is_outermost,
        step,
        ty,
    );
    match made {
        Ok(made) => {
            known.set_type(step.number, copied(alloc, &made)?);
            Ok(made)
        }
        Err(RuleFault::Rule(rule)) => Err(TypingFault::Broken {
            node: step.number,
            rule,
        }),
        Err(RuleFault::Memory) => Err(TypingFault::Memory),
    }
}

// The type of a whole declarator, and those of its steps' nodes.
fn close_steps(
    known: &mut Known,
    alloc: Global,
    lengths: Lengths,
    base: &CType,
    steps: &[Step],
) -> Result<CType, TypingFault>
    ensures { Judges type_of result (known_of known.new)
        (closed_over (told_by lengths.by) (type_of base.now) (map (with_given lengths.given) (steps_of steps.now)) (known_of known.old)) }
{
    let mut ty = copied(alloc, base)?;
    let mut rest = steps;
    'steps: while let Some((step, before)) = rest.split_last() {
        match close_step(known, alloc, lengths, make_no_type(before), step, &ty) {
            Ok(made) => ty = made,
            Err(fault) => return Err(fault),
        }
        rest = before;
    }
    Ok(ty)
}

/// The type of a whole declarator, and those of its steps' nodes.
#[tactic(auto, using(crate::proofs::Outermost::map_given_none))]
pub(crate) fn close(
    known: &mut Known,
    alloc: Global,
    by: LengthBy,
    base: &CType,
    steps: &[Step],
) -> Result<CType, TypingFault>
    ensures { Judges type_of result (known_of known.new)
        (closed_over (told_by by) (type_of base.now) (steps_of steps.now) (known_of known.old)) }
{
    close_steps(known, alloc, Lengths { by, given: None }, base, steps)
}

/// The same, where an initialiser has given a length to brackets without one.
#[tactic(auto, using(crate::proofs::Outermost::map_given_some))]
pub(crate) fn close_given(
    known: &mut Known,
    alloc: Global,
    count: u32,
    base: &CType,
    steps: &[Step],
) -> Result<CType, TypingFault>
    ensures { Judges type_of result (known_of known.new)
        (closed_over specs.ByNothing (type_of base.now) (map (specs.with_length count) (steps_of steps.now)) (known_of known.old)) }
{
    let lengths = Lengths {
        by: LengthBy::ByNothing,
        given: Some(count),
    };
    close_steps(known, alloc, lengths, base, steps)
}

/// The type that a declarator without a name makes, in a cast or `sizeof`.
#[tactic(auto, using(crate::proofs::Declared::closed_type, crate::proofs::Declared::broken_type))]
pub fn close_type(
    known: &mut Known,
    alloc: Global,
    base: &CType,
    steps: &[Step],
) -> Result<CType, TypingFault>
    ensures { Judges (λ ty. Object (type_of ty) (steps_of steps.now) (last_node (known_of known.old)) Plain) result (known_of known.new)
        (type_closed (λ t. t) specs.ByNothing (type_of base.now) (steps_of steps.now) (known_of known.old)) }
{
    close(known, alloc, LengthBy::ByNothing, base, steps)
}
