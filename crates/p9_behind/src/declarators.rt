// Declarators, where they are whole.
ghost use Rattle.std.specs.Prelude.{◌≡◌, ℕ, List, [], ◌++◌, IfOk};
ghost use Rattle.p9_lang.specs.Names.{is_among};
ghost use Rattle.p9_lang.specs.Types.{TypeTree, type_of};
ghost use Rattle.p9_lang.specs.Trees.{row_of};
ghost use Rattle.p9_lang.specs.Rules.{and_then};
ghost use Rattle.p9_lang.specs.Declarators as declarators;
ghost use Rattle.p9_lang.specs.Parts.{name_in, object_names};
ghost use Rattle.p9_lang.specs.Declaring as specs;
ghost use Rattle.p9_scopes.specs.State.{known_of};
ghost use Rattle.p9_declare.specs.Judging.{Judges};
ghost use Rattle.p9_declare.specs.Operations.{automatic};
ghost use Rattle.p9_declare.specs.Told.{told_by, told_declaring, steps_of};
ghost use Rattle.p9_parts.specs.Told.{role_of, initialiser_of, part_of, parts_of, frame_of};
ghost use Rattle.p9_behind.specs.Following.{told_follows};

use crate::following::{Follows, what_follows};
use p9_base::NoMemory;
use p9_declare::{
    Declaring, LengthBy, Step, TypingFault, close_type, declare_member, declare_object,
    declare_parameter, last_node, name_of, open_body,
};
use p9_lang::{Ident, Kind, Node};
use p9_parts::{Frame, Initialiser, Part, Parts, Role};
use p9_scopes::{Known, Names};
use std::alloc::Global;

fn object_declaring(known: &Known, frame: &Frame, follows: Follows) -> Declaring
    ensures { told_declaring result
        ≡ specs.object_declaring (frame_of [] frame.now) (told_follows follows) (known_of known.now) }
{
    Declaring {
        storage: frame.storage,
        is_at_file: known.is_file_level(),
        has_initialiser: follows.has_initialiser(),
        has_body: false,
    }
}

fn function_declaring(frame: &Frame) -> Declaring
    ensures { told_declaring result ≡ specs.function_declaring (frame_of [] frame.now) }
{
    Declaring {
        storage: frame.storage,
        is_at_file: true,
        has_initialiser: false,
        has_body: true,
    }
}

// What an initialiser would do to what is declared.
fn initialiser(declaring: Declaring) -> Initialiser
    ensures { (type : TypeTree) → initialiser_of result type ≡ specs.initialiser_role (told_declaring declaring) type }
{
    if declaring.takes_automatic() {
        Initialiser::Assigned
    } else {
        Initialiser::First
    }
}

fn object_declared(
    known: &mut Known,
    alloc: Global,
    declaring: Declaring,
    by: LengthBy,
    frame: &Frame,
    steps: Vec<Step>,
) -> Result<Part, TypingFault>
    ensures { Judges part_of result (known_of known.new)
        (specs.declare_object (told_declaring declaring) (told_by by) (type_of frame.now.base) (steps_of steps.items) (declarators.name_of (steps_of steps.items)) (known_of known.old)) }
{
    let last = last_node(known);
    match declare_object(known, alloc, declaring, by, &frame.base, steps.as_slice()) {
        Ok(ty) => Ok(Part::Object {
            ty,
            steps,
            last,
            initialiser: initialiser(declaring),
        }),
        Err(fault) => Err(fault),
    }
}

// A function, whose body begins behind its declarator.
fn function_declared(
    known: &mut Known,
    alloc: Global,
    frame: &Frame,
    steps: Vec<Step>,
) -> Result<Part, TypingFault>
    ensures { Judges part_of result (known_of known.new)
        (and_then
        (specs.declare_object (specs.function_declaring (frame_of [] frame.now)) declarators.ByNothing (type_of frame.now.base) (steps_of steps.items) (declarators.name_of (steps_of steps.items)) (known_of known.old))
        (specs.with_body_open (steps_of steps.items))) }
{
    let declaring = function_declaring(frame);
    let last = last_node(known);
    let by = LengthBy::ByNothing;
    match declare_object(known, alloc, declaring, by, &frame.base, steps.as_slice()) {
        Ok(ty) => {
            open_body(known, alloc, &ty, steps.as_slice())?;
            Ok(Part::Object {
                ty,
                steps,
                last,
                initialiser: initialiser(declaring),
            })
        }
        Err(fault) => Err(fault),
    }
}

// Whether a name stands in the braces that a node's role speaks of.
fn is_in_braces(alloc: Global, role: &Role, names: &Names, name: &Ident) -> Result<bool, NoMemory>
    ensures { IfOk result (λ has. has ≡ is_among (specs.names_in_braces (role_of names.now role.now)) name.now) }
{
    match role {
        Role::InBraces => {
            let has = names.has(alloc, name)?;
            Ok(has)
        }
        Role::Plain
        | Role::Whole
        | Role::Declares { .. }
        | Role::ParameterOf { .. }
        | Role::EntryOf { .. }
        | Role::Fills(_)
        | Role::Assigns(_)
        | Role::Outside => Ok(false),
    }
}

// Whether the name that a member's steps declare is one of its body's already.
#[tactic(auto, using(crate::proofs::Joining::among_either))]
fn is_taken(
    alloc: Global,
    frame: &Frame,
    names: &Names,
    before: &Parts,
    steps: &[Step],
) -> Result<bool, NoMemory>
    ensures { IfOk result (λ taken. taken
        ≡ is_among (specs.names_in_braces (role_of names.now frame.now.context.role) ++ object_names (parts_of before.now))
        (name_in (declarators.name_of (steps_of steps.now)))) }
{
    let nameless = Ident {
        list: Vec::new(alloc),
    };
    let name = match name_of(steps) {
        Some(node) => node.name,
        None => &nameless,
    };
    let in_body = is_in_braces(alloc, &frame.context.role, names, name)?;
    let in_declaration = before.has_object(alloc, name)?;
    Ok(in_body || in_declaration)
}

#[tactic(auto, using(crate::proofs::Carrying::judges_same, p9_declare::proofs::Operations::member_declared_in))]
fn member_declared(
    known: &mut Known,
    alloc: Global,
    frame: &Frame,
    names: &Names,
    before: &Parts,
    steps: Vec<Step>,
) -> Result<Part, TypingFault>
    ensures { Judges part_of result (known_of known.new)
        (specs.declare_member (frame_of names.now frame.now) (parts_of before.now) (steps_of steps.items) (declarators.name_of (steps_of steps.items)) (known_of known.old)) }
{
    let last = last_node(known);
    let taken = is_taken(alloc, frame, names, before, steps.as_slice())?;
    match declare_member(known, alloc, &frame.base, taken, steps.as_slice()) {
        Ok(ty) => Ok(Part::Object {
            ty,
            steps,
            last,
            initialiser: Initialiser::Nothing,
        }),
        Err(fault) => Err(fault),
    }
}

// The number of a parameter that is an automatic.
fn own_number(role: &Role) -> Option<u32>
    ensures { (names : List (List ℕ)) → automatic result ≡ specs.parameter_meaning (role_of names role.now) }
{
    match role {
        Role::ParameterOf {
            is_own: true,
            number,
        } => Some(*number),
        Role::ParameterOf { is_own: false, .. }
        | Role::Plain
        | Role::Whole
        | Role::Declares { .. }
        | Role::InBraces
        | Role::EntryOf { .. }
        | Role::Fills(_)
        | Role::Assigns(_)
        | Role::Outside => None,
    }
}

#[tactic(auto, using(crate::proofs::Carrying::judges_same, p9_declare::proofs::Operations::parameter_declared_in))]
fn parameter_declared(
    known: &mut Known,
    alloc: Global,
    frame: &Frame,
    steps: Vec<Step>,
) -> Result<Part, TypingFault>
    ensures { (names : List (List ℕ)) → Judges part_of result (known_of known.new)
        (specs.declare_parameter (frame_of names frame.now) (steps_of steps.items) (declarators.name_of (steps_of steps.items)) (known_of known.old)) }
{
    let last = last_node(known);
    let number = own_number(&frame.context.role);
    match declare_parameter(known, alloc, &frame.base, number, steps.as_slice()) {
        Ok(ty) => Ok(Part::Object {
            ty,
            steps,
            last,
            initialiser: Initialiser::Nothing,
        }),
        Err(fault) => Err(fault),
    }
}

fn type_closed(
    known: &mut Known,
    alloc: Global,
    frame: &Frame,
    steps: Vec<Step>,
) -> Result<Part, TypingFault>
    ensures { Judges part_of result (known_of known.new)
        (specs.close_type (frame_of [] frame.now) (steps_of steps.items) (known_of known.old)) }
{
    let last = last_node(known);
    match close_type(known, alloc, &frame.base, steps.as_slice()) {
        Ok(ty) => Ok(Part::Object {
            ty,
            steps,
            last,
            initialiser: Initialiser::Nothing,
        }),
        Err(fault) => Err(fault),
    }
}

/// A declarator that is whole; within another declarator it goes on.
pub(crate) fn declared(
    known: &mut Known,
    alloc: Global,
    kind: &Kind,
    frame: &Frame,
    names: &Names,
    before: &Parts,
    steps: Vec<Step>,
    rest: &[Node],
) -> Result<Part, TypingFault>
    ensures { Judges part_of result (known_of known.new)
        (specs.declared kind.now (frame_of names.now frame.now) (parts_of before.now) (steps_of steps.items) (row_of rest.now) (known_of known.old)) }
{
    match kind {
        Kind::Declaration { .. } => {
            let follows = what_follows(rest);
            let declaring = object_declaring(known, frame, follows);
            object_declared(known, alloc, declaring, follows.length_by(), frame, steps)
        }
        Kind::Function { .. } => function_declared(known, alloc, frame, steps),
        Kind::Member { .. } => member_declared(known, alloc, frame, names, before, steps),
        Kind::Param { .. } => parameter_declared(known, alloc, frame, steps),
        Kind::NamedType { .. } => type_closed(known, alloc, frame, steps),
        _ => Ok(Part::Declarator(steps)),
    }
}
