// What a node asks of a part.
ghost use Rattle.std.specs.Prelude.{◌≡◌, ℕ, List, length, nat_lt, if◌then◌else◌, IfOk};
ghost use Rattle.p9_lang.specs.Opening as specs;
ghost use Rattle.p9_lang.specs.Parts as parts;
ghost use Rattle.p9_declare.specs.Told.{type_in};
ghost use Rattle.p9_scopes.specs.State.{known_of};
ghost use Rattle.p9_parts.specs.Told.{context_of, role_of, frame_of, parts_of};
ghost use Rattle.p9_opening.specs.Lending.{has_spec, braced_names, lent_names, listed_type};

use crate::contexts::{
    body_context, brace_context, in_role, loop_context, object_role, same_context, switch_context,
};
use crate::entries::{entry_role, is_index_next};
use p9_base::NoMemory;
use p9_declare::make_no_type;
use p9_lang::{CType, EntryBy, Kind};
use p9_operand::copied;
use p9_parts::{Context, Frame, Parts, Role, inner_steps};
use p9_scopes::{Known, Names};
use std::alloc::Global;

/// Whether a node of this kind is a part of a declarator.
pub fn is_declarator(kind: &Kind) -> bool
    ensures { result ≡ parts.is_declarator kind.now }
{
    match kind {
        Kind::DeclName(_)
        | Kind::Star { .. }
        | Kind::Brackets { .. }
        | Kind::Params { .. }
        | Kind::DeclParens => true,
        _ => false,
    }
}

/// Whether a node of this kind has a spec, whose braces are parts of the node.
pub fn has_spec(kind: &Kind) -> bool
    ensures { result ≡ has_spec kind.now }
{
    match kind {
        Kind::Declaration { .. }
        | Kind::Function { .. }
        | Kind::Member { .. }
        | Kind::Param { .. }
        | Kind::NamedType { .. } => true,
        _ => false,
    }
}

/// Whether the next part stands in the braces of the node's spec.
pub fn is_in_braces(frame: &Frame, before: &Parts) -> bool
    ensures { result ≡ nat_lt (length (parts_of before.now)) frame.now.braces }
{
    (before.len() as u64) < (frame.braces as u64)
}

/// The names that the role of the next part may speak of; a node's own are given.
pub fn lent<'a>(kind: &Kind, frame: &Frame, before: &'a Parts, names: &'a Names) -> &'a Names
    ensures { result.now ≡ lent_names kind.now (frame_of names.now frame.now) (parts_of before.now) names.now }
{
    let is_lent = has_spec(kind) && is_in_braces(frame, before);
    if is_lent {
        before.member_names()
    } else {
        names
    }
}

// A part of a declaration: in its braces, a declarator, or an initialiser.
fn declaration_context(
    alloc: Global,
    known: &Known,
    frame: &Frame,
    before: &Parts,
    part: &Kind,
) -> Result<Context, NoMemory>
    ensures { IfOk result (λ c. (names : List (List ℕ))
        → context_of (braced_names (frame_of names frame.now) (parts_of before.now) names) c
        ≡ specs.declaration_context (frame_of names frame.now) (parts_of before.now) part.now (known_of known.now)) }
{
    if is_in_braces(frame, before) {
        let context = brace_context(alloc, frame)?;
        return Ok(context);
    }
    if is_declarator(part) {
        let is_block_static = frame.storage.is_static() && !known.is_file_level();
        let role = Role::Declares {
            is_block_static,
            heads_body: false,
        };
        let context = in_role(alloc, &frame.context, role)?;
        return Ok(context);
    }
    let role = object_role(alloc, before.last_object())?;
    let context = in_role(alloc, &frame.context, role)?;
    Ok(context)
}

// A part of a function: in its braces, its declarator, or its body.
fn function_context(
    alloc: Global,
    frame: &Frame,
    before: &Parts,
    part: &Kind,
) -> Result<Context, NoMemory>
    ensures { IfOk result (λ c. (names : List (List ℕ))
        → context_of (braced_names (frame_of names frame.now) (parts_of before.now) names) c
        ≡ specs.function_context (frame_of names frame.now) (parts_of before.now) part.now) }
{
    if is_in_braces(frame, before) {
        let context = brace_context(alloc, frame)?;
        return Ok(context);
    }
    if is_declarator(part) {
        let role = Role::Declares {
            is_block_static: false,
            heads_body: true,
        };
        let context = in_role(alloc, &frame.context, role)?;
        return Ok(context);
    }
    let context = body_context(alloc, before.last_object())?;
    Ok(context)
}

// A part of a member, a parameter or a named type.
fn spec_context(alloc: Global, frame: &Frame, before: &Parts) -> Result<Context, NoMemory>
    ensures { IfOk result (λ c. (names : List (List ℕ))
        → context_of (braced_names (frame_of names frame.now) (parts_of before.now) names) c
        ≡ specs.spec_context (frame_of names frame.now) (parts_of before.now)) }
{
    if is_in_braces(frame, before) {
        let context = brace_context(alloc, frame)?;
        return Ok(context);
    }
    let context = in_role(alloc, &frame.context, Role::Plain)?;
    Ok(context)
}

fn heads_body(role: &Role) -> bool
    ensures { (names : List (List ℕ)) → result ≡ specs.heads_body (role_of names role.now) }
{
    match role {
        Role::Declares {
            is_block_static: _,
            heads_body,
        } => *heads_body,
        Role::Plain
        | Role::Whole
        | Role::ParameterOf { .. }
        | Role::InBraces
        | Role::EntryOf { .. }
        | Role::Fills(_)
        | Role::Assigns(_)
        | Role::Outside => false,
    }
}

fn parameter_role(frame: &Frame, before: &Parts) -> Role
    ensures { (names inner : List (List ℕ)) → role_of inner result
        ≡ specs.parameter_role (frame_of names frame.now) (parts_of before.now) }
{
    let is_own = heads_body(&frame.context.role) && make_no_type(inner_steps(before.as_slice()));
    Role::ParameterOf {
        is_own,
        number: before.parameter_count(),
    }
}

// A part of a parameter list: the declarator within, or a parameter.
fn parameter_context(
    alloc: Global,
    frame: &Frame,
    before: &Parts,
    part: &Kind,
) -> Result<Context, NoMemory>
    ensures { IfOk result (λ c. (names : List (List ℕ)) → context_of names c
        ≡ (if parts.is_declarator part.now then (frame_of names frame.now).context
        else parts.in_role (specs.parameter_role (frame_of names frame.now) (parts_of before.now)) (frame_of names frame.now).context)) }
{
    if is_declarator(part) {
        let context = same_context(alloc, &frame.context)?;
        return Ok(context);
    }
    let context = in_role(alloc, &frame.context, parameter_role(frame, before))?;
    Ok(context)
}

// A part of another declarator: the declarator within, or a length.
fn step_context(alloc: Global, frame: &Frame, part: &Kind) -> Result<Context, NoMemory>
    ensures { IfOk result (λ c. (names : List (List ℕ)) → context_of names c ≡ specs.step_context (frame_of names frame.now) part.now) }
{
    if is_declarator(part) {
        let context = same_context(alloc, &frame.context)?;
        return Ok(context);
    }
    let context = in_role(alloc, &frame.context, Role::Plain)?;
    Ok(context)
}

fn listed(alloc: Global, role: &Role) -> Result<Option<CType>, NoMemory>
    ensures { IfOk result (λ ty. (names : List (List ℕ)) → type_in ty ≡ listed_type (role_of names role.now)) }
{
    match role {
        Role::Fills(ty) => Ok(Some(copied(alloc, ty)?)),
        Role::Plain
        | Role::Whole
        | Role::Declares { .. }
        | Role::ParameterOf { .. }
        | Role::InBraces
        | Role::EntryOf { .. }
        | Role::Assigns(_)
        | Role::Outside => Ok(None),
    }
}

// An entry of a list in braces.
#[tactic(auto, using(crate::proofs::Listed::list_by_type))]
fn list_context(alloc: Global, frame: &Frame, before: &Parts) -> Result<Context, NoMemory>
    ensures { IfOk result (λ c. (names : List (List ℕ))
        → context_of names c ≡ specs.list_context (frame_of names frame.now) (parts_of before.now)) }
{
    let role = Role::EntryOf {
        list: listed(alloc, &frame.context.role)?,
        next: before.next_position(),
    };
    let context = in_role(alloc, &frame.context, role)?;
    Ok(context)
}

// A part of an entry: its index, or its initialiser.
fn entry_context(
    alloc: Global,
    known: &Known,
    frame: &Frame,
    by: &EntryBy,
    before: &Parts,
) -> Result<Context, NoMemory>
    ensures { IfOk result (λ c. (names : List (List ℕ)) → context_of names c
        ≡ specs.entry_context (known_of known.now).tags (frame_of names frame.now) by.now (parts_of before.now)) }
{
    if is_index_next(by, before.as_slice()) {
        let context = in_role(alloc, &frame.context, Role::Plain)?;
        return Ok(context);
    }
    let role = entry_role(known, alloc, &frame.context.role, by, before.as_slice())?;
    let context = in_role(alloc, &frame.context, role)?;
    Ok(context)
}

/// Where the next part stands, a node of this kind.
pub fn asked(
    alloc: Global,
    known: &Known,
    kind: &Kind,
    frame: &Frame,
    before: &Parts,
    part: &Kind,
) -> Result<Context, NoMemory>
    ensures { IfOk result (λ c. (names : List (List ℕ))
        → context_of (lent_names kind.now (frame_of names frame.now) (parts_of before.now) names) c
        ≡ specs.context kind.now (frame_of names frame.now) (parts_of before.now) part.now (known_of known.now)) }
{
    match kind {
        Kind::Declaration { .. } => declaration_context(alloc, known, frame, before, part),
        Kind::Function { .. } => function_context(alloc, frame, before, part),
        Kind::Member { .. } | Kind::Param { .. } | Kind::NamedType { .. } => {
            let context = spec_context(alloc, frame, before)?;
            Ok(context)
        }
        Kind::Star { .. } | Kind::DeclParens | Kind::Brackets { .. } => {
            let context = step_context(alloc, frame, part)?;
            Ok(context)
        }
        Kind::Params { .. } => parameter_context(alloc, frame, before, part),
        Kind::InitList { .. } => list_context(alloc, frame, before),
        Kind::Entry { by, equals: _ } => entry_context(alloc, known, frame, by, before),
        Kind::Expression => in_role(alloc, &frame.context, Role::Whole),
        Kind::While | Kind::Do | Kind::For { .. } => {
            let context = loop_context(alloc, frame)?;
            Ok(context)
        }
        Kind::Switch => switch_context(alloc, frame),
        _ => in_role(alloc, &frame.context, Role::Plain),
    }
}
