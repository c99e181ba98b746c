// Steps of declarators.
ghost use Rattle.std.specs.Prelude.{◌≡◌, ℕ, [], ◌∷◌, ◌++◌, List, reverse, IfOk};
ghost use Rattle.p9_lang.specs.Types.{types_of};
ghost use Rattle.p9_lang.specs.Scopes.{next_node};
ghost use Rattle.p9_lang.specs.Declarators.{Names};
ghost use Rattle.p9_lang.specs.Parts as part_specs;
ghost use Rattle.p9_lang.specs.Typing as specs;
ghost use Rattle.p9_operand.specs.Told.{told_constant};
ghost use Rattle.p9_scopes.specs.State.{known_of};
ghost use Rattle.p9_declare.specs.Judging.{Judges};
ghost use Rattle.p9_declare.specs.Told.{told_shape, steps_of};
ghost use Rattle.p9_parts.specs.Told.{role_of, part_of, parts_of};
ghost use Rattle.p9_kinds.specs.Alone.{sized_alone};

use crate::controls::sound;
use crate::nodes::added;
use p9_base::NoMemory;
use p9_declare::{Shape, Step, TypingFault};
use p9_lang::{Bind, CType, Ident};
use p9_operand::{Constant, Rule};
use p9_parts::{Part, Parts, Role};
use p9_scopes::Known;
use sqlite_items::Items;
use std::alloc::Global;

/// The parts, the last one first.
pub(crate) fn reversed(parts: Parts) -> Vec<Part>
    ensures { parts ≡ reverse result.items }
{
    let mut list = parts.into_list();
    list.reverse();
    list
}

fn is_block_static(role: &Role) -> bool
    ensures { (names : List (List ℕ)) → result ≡ specs.is_block_static (role_of names role.now) }
{
    match role {
        Role::Declares {
            is_block_static,
            heads_body: _,
        } => *is_block_static,
        Role::Plain
        | Role::Whole
        | Role::ParameterOf { .. }
        | Role::InBraces
        | Role::EntryOf { .. }
        | Role::Fills(_)
        | Role::Assigns(_)
        | Role::Outside => false,
    }
}

// The steps with one more, of the next node.
fn with_step(known: &Known, steps: Vec<Step>, shape: Shape) -> Result<Vec<Step>, NoMemory>
    ensures { IfOk result (λ more. steps_of more.items
        ≡ steps_of steps.items ++ specs.step_at (known_of known.now) (told_shape shape) ∷ []) }
{
    let mut steps = steps;
    steps.push(Step {
        number: known.next_node(),
        shape,
    })?;
    Ok(steps)
}

fn name_step(known: &Known, alloc: Global, name: &Ident) -> Result<Vec<Step>, NoMemory>
    ensures { IfOk result (λ steps. steps_of steps.items
        ≡ specs.step_at (known_of known.now) (Names name.now) ∷ []) }
{
    let name = name.copied(alloc)?;
    with_step(known, Vec::new(alloc), Shape::Names(name))
}

/// A declared name; a block static takes its number here.
pub(crate) fn judged_decl_name(
    known: &mut Known,
    alloc: Global,
    name: &Ident,
    role: &Role,
) -> Result<Part, TypingFault>
    ensures { (names : List (List ℕ)) → Judges part_of result (known_of known.new)
        (specs.judged_decl_name name.now (role_of names role.now) (known_of known.old)) }
{
    let steps = name_step(known, alloc, name)?;
    if is_block_static(role) {
        let number = known.take_static()?;
        return added(
            known,
            CType::Void,
            Bind::Static(number),
            Part::Declarator(steps),
        );
    }
    sound(known, Part::Declarator(steps))
}

/// A step behind these.
pub(crate) fn stepped(
    known: &mut Known,
    steps: Vec<Step>,
    shape: Shape,
) -> Result<Part, TypingFault>
    ensures { Judges part_of result (known_of known.new)
        (specs.stepped (steps_of steps.items) (told_shape shape) (known_of known.old)) }
{
    let steps = with_step(known, steps, shape)?;
    sound(known, Part::Declarator(steps))
}

// The steps that a part is, where it is a declarator.
fn steps_in(alloc: Global, part: Part) -> Vec<Step>
    ensures { steps_of result.items ≡ part_specs.inner_steps (part_of part ∷ []) }
{
    match part {
        Part::Declarator(steps) => steps,
        Part::Value(_)
        | Part::Object { .. }
        | Part::Members(_)
        | Part::Enumerator { .. }
        | Part::Parameter(_)
        | Part::NamedType(_)
        | Part::Braced(_)
        | Part::Filled(_)
        | Part::CaseLabel(_)
        | Part::DefaultLabel
        | Part::Statement => Vec::new(alloc),
    }
}

/// The steps within a declarator, where it has some.
pub(crate) fn taken_steps(alloc: Global, parts: Parts) -> Vec<Step>
    ensures { steps_of result.items ≡ part_specs.inner_steps (parts_of parts) }
{
    let mut left = reversed(parts);
    match left.pop() {
        Some(part) => steps_in(alloc, part),
        None => Vec::new(alloc),
    }
}

/// `*` or parentheses, round the steps of the first part.
pub(crate) fn judged_step(
    known: &mut Known,
    alloc: Global,
    parts: Parts,
    shape: Shape,
) -> Result<Part, TypingFault>
    ensures { Judges part_of result (known_of known.new)
        (specs.stepped (part_specs.inner_steps (parts_of parts)) (told_shape shape) (known_of known.old)) }
{
    stepped(known, taken_steps(alloc, parts), shape)
}

// The tree isn't one of the grammar.
pub(crate) fn malformed(known: &Known) -> TypingFault
    ensures { result ≡ TypingFault.Broken (next_node (known_of known.now)) Rule.Malformed }
{
    TypingFault::Broken {
        node: known.next_node(),
        rule: Rule::Malformed,
    }
}

// Brackets with a length, behind which stand these parts, the last one first.
fn judged_sized(
    known: &mut Known,
    steps: Vec<Step>,
    length: Constant,
    left: Vec<Part>,
) -> Result<Part, TypingFault>
    ensures { Judges part_of result (known_of known.new)
        (sized_alone (steps_of steps.items) (told_constant length) (parts_of (reverse left.items)) (known_of known.old)) }
{
    if left.is_empty() {
        stepped(known, steps, Shape::Sized(length))
    } else {
        Err(malformed(known))
    }
}

// Brackets round these steps, behind which stand these parts, the last one first.
fn judged_around(known: &mut Known, steps: Vec<Step>, left: Vec<Part>) -> Result<Part, TypingFault>
    ensures { Judges part_of result (known_of known.new)
        (specs.judged_brackets (part_specs.Declarator (steps_of steps.items) ∷ parts_of (reverse left.items)) (known_of known.old)) }
{
    let mut left = left;
    match left.pop() {
        None => stepped(known, steps, Shape::Unsized),
        Some(Part::Value(operand)) => judged_sized(known, steps, operand.constant, left),
        Some(
            Part::Declarator(_)
            | Part::Object { .. }
            | Part::Members(_)
            | Part::Enumerator { .. }
            | Part::Parameter(_)
            | Part::NamedType(_)
            | Part::Braced(_)
            | Part::Filled(_)
            | Part::CaseLabel(_)
            | Part::DefaultLabel
            | Part::Statement,
        ) => Err(malformed(known)),
    }
}

/// Brackets, round a declarator's steps or alone, with a length or without.
pub(crate) fn judged_brackets(
    known: &mut Known,
    alloc: Global,
    parts: Parts,
) -> Result<Part, TypingFault>
    ensures { Judges part_of result (known_of known.new) (specs.judged_brackets (parts_of parts) (known_of known.old)) }
{
    let mut left = reversed(parts);
    match left.pop() {
        None => stepped(known, Vec::new(alloc), Shape::Unsized),
        Some(Part::Value(operand)) => {
            judged_sized(known, Vec::new(alloc), operand.constant, left)
        }
        Some(Part::Declarator(steps)) => judged_around(known, steps, left),
        Some(
            Part::Object { .. }
            | Part::Members(_)
            | Part::Enumerator { .. }
            | Part::Parameter(_)
            | Part::NamedType(_)
            | Part::Braced(_)
            | Part::Filled(_)
            | Part::CaseLabel(_)
            | Part::DefaultLabel
            | Part::Statement,
        ) => Err(malformed(known)),
    }
}

// What a parameter list has so far.
struct Listed {
    steps: Vec<Step>,
    parameters: Items<CType>,
}

// One parameter more, if the part is one.
#[tactic(auto, using(p9_scopes::proofs::NodeLists::types_end))]
fn with_parameter(parameters: Items<CType>, part: Part) -> Result<Items<CType>, NoMemory>
    ensures { IfOk result (λ more. types_of more ≡ types_of parameters ++ part_specs.parameter_types (part_of part ∷ [])) }
{
    let mut parameters = parameters;
    match part {
        Part::Parameter(ty) => {
            parameters.push(ty)?;
            Ok(parameters)
        }
        Part::Value(_)
        | Part::Declarator(_)
        | Part::Object { .. }
        | Part::Members(_)
        | Part::Enumerator { .. }
        | Part::NamedType(_)
        | Part::Braced(_)
        | Part::Filled(_)
        | Part::CaseLabel(_)
        | Part::DefaultLabel
        | Part::Statement => Ok(parameters),
    }
}

// These parameters and those behind them, the last one first.
#[tactic(auto, using(crate::proofs::Listing::parameters_step))]
fn with_parameters(parameters: Items<CType>, left: Vec<Part>) -> Result<Items<CType>, NoMemory>
    ensures { IfOk result (λ all. types_of all ≡ types_of parameters ++ part_specs.parameter_types (parts_of (reverse left.items))) }
{
    let mut parameters = parameters;
    let mut left = left;
    'parts: while let Some(part) = left.pop() {
        parameters = with_parameter(parameters, part)?;
    }
    Ok(parameters)
}

fn first_listed(alloc: Global, part: Part) -> Result<Listed, NoMemory>
    ensures steps { IfOk result (λ listed. steps_of listed.steps.items ≡ part_specs.inner_steps (part_of part ∷ [])) }
    ensures parameters { IfOk result (λ listed. types_of listed.parameters ≡ part_specs.parameter_types (part_of part ∷ [])) }
{
    match part {
        Part::Declarator(steps) => Ok(Listed {
            steps,
            parameters: Items::new(alloc),
        }),
        Part::Parameter(_)
        | Part::Value(_)
        | Part::Object { .. }
        | Part::Members(_)
        | Part::Enumerator { .. }
        | Part::NamedType(_)
        | Part::Braced(_)
        | Part::Filled(_)
        | Part::CaseLabel(_)
        | Part::DefaultLabel
        | Part::Statement => Ok(Listed {
            steps: Vec::new(alloc),
            parameters: with_parameter(Items::new(alloc), part)?,
        }),
    }
}

// The steps within a parameter list and its parameters.
fn parameter_list(alloc: Global, parts: Parts) -> Result<Listed, NoMemory>
    ensures steps { IfOk result (λ listed. steps_of listed.steps.items ≡ part_specs.inner_steps (parts_of parts)) }
    ensures parameters { IfOk result (λ listed. types_of listed.parameters ≡ part_specs.parameter_types (parts_of parts)) }
{
    let mut left = reversed(parts);
    match left.pop() {
        Some(part) => {
            let Listed { steps, parameters } = first_listed(alloc, part)?;
            let parameters = with_parameters(parameters, left)?;
            Ok(Listed { steps, parameters })
        }
        None => Ok(Listed {
            steps: Vec::new(alloc),
            parameters: Items::new(alloc),
        }),
    }
}

/// A parameter list, whose names leave the scope with it.
pub(crate) fn judged_params(
    known: &mut Known,
    alloc: Global,
    parts: Parts,
) -> Result<Part, TypingFault>
    ensures { Judges part_of result (known_of known.new) (specs.judged_params (parts_of parts) (known_of known.old)) }
{
    let Listed { steps, parameters } = parameter_list(alloc, parts)?;
    let level = known.close_level(alloc);
    stepped(known, steps, Shape::Takes { parameters, level })
}
