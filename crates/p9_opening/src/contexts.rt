// Where parts stand, by where their node stands.
ghost use Rattle.std.specs.Prelude.{◌≡◌, ℕ, List, true, IfOk};
ghost use Rattle.std.specs.Option.{option_copied, option_map};
ghost use Rattle.p9_lang.specs.Types.{Void, type_of};
ghost use Rattle.p9_lang.specs.Parts as parts;
ghost use Rattle.p9_lang.specs.Parts.{in_role, object_role};
ghost use Rattle.p9_lang.specs.Opening as specs;
ghost use Rattle.p9_declare.specs.Told.{type_in};
ghost use Rattle.p9_parts.specs.Told.{context_of, role_of, frame_of, part_of, initialiser_of};

use p9_base::NoMemory;
use p9_lang::CType;
use p9_operand::copied;
use p9_parts::{Context, Frame, Initialiser, Part, Role};
use std::alloc::Global;

fn copied_result(alloc: Global, ty: &Option<CType>) -> Result<Option<CType>, NoMemory>
    ensures { IfOk result (λ t. type_in t ≡ type_in ty.now) }
{
    match ty {
        Some(ty) => Ok(Some(copied(alloc, ty)?)),
        None => Ok(None),
    }
}

fn copied_role(alloc: Global, role: &Role) -> Result<Role, NoMemory>
    ensures { IfOk result (λ r. (names : List (List ℕ)) → role_of names r ≡ role_of names role.now) }
{
    match role {
        Role::Plain => Ok(Role::Plain),
        Role::Whole => Ok(Role::Whole),
        Role::Declares {
            is_block_static,
            heads_body,
        } => Ok(Role::Declares {
            is_block_static: *is_block_static,
            heads_body: *heads_body,
        }),
        Role::ParameterOf { is_own, number } => Ok(Role::ParameterOf {
            is_own: *is_own,
            number: *number,
        }),
        Role::InBraces => Ok(Role::InBraces),
        Role::EntryOf { list, next } => Ok(Role::EntryOf {
            list: copied_result(alloc, list)?,
            next: *next,
        }),
        Role::Fills(ty) => Ok(Role::Fills(copied(alloc, ty)?)),
        Role::Assigns(ty) => Ok(Role::Assigns(copied(alloc, ty)?)),
        Role::Outside => Ok(Role::Outside),
    }
}

/// The same place in another role.
pub(crate) fn in_role(alloc: Global, context: &Context, role: Role) -> Result<Context, NoMemory>
    ensures { IfOk result (λ c. (names : List (List ℕ))
        → context_of names c ≡ in_role (role_of names role) (context_of names context.now)) }
{
    Ok(Context {
        is_in_loop: context.is_in_loop,
        is_in_switch: context.is_in_switch,
        result: copied_result(alloc, &context.result)?,
        role,
    })
}

/// The same place and role.
pub(crate) fn same_context(alloc: Global, context: &Context) -> Result<Context, NoMemory>
    ensures { IfOk result (λ c. (names : List (List ℕ)) → context_of names c ≡ context_of names context.now) }
{
    let role = copied_role(alloc, &context.role)?;
    let context = in_role(alloc, context, role)?;
    Ok(context)
}

/// In braces, behind members of any names.
pub(crate) fn brace_context(alloc: Global, frame: &Frame) -> Result<Context, NoMemory>
    ensures { IfOk result (λ c. (names inner : List (List ℕ))
        → context_of inner c ≡ in_role (parts.InBraces inner) (frame_of names frame.now).context) }
{
    let context = in_role(alloc, &frame.context, Role::InBraces)?;
    Ok(context)
}

/// In a loop.
pub(crate) fn loop_context(alloc: Global, frame: &Frame) -> Result<Context, NoMemory>
    ensures { IfOk result (λ c. (names : List (List ℕ)) → context_of names c ≡ specs.loop_context (frame_of names frame.now)) }
{
    Ok(Context {
        is_in_loop: true,
        is_in_switch: frame.context.is_in_switch,
        result: copied_result(alloc, &frame.context.result)?,
        role: Role::Plain,
    })
}

/// In a switch.
pub(crate) fn switch_context(alloc: Global, frame: &Frame) -> Result<Context, NoMemory>
    ensures { IfOk result (λ c. (names : List (List ℕ))
        → context_of names c ≡ record (frame_of names frame.now).context { is_in_switch = true; role = parts.Plain }) }
{
    Ok(Context {
        is_in_loop: frame.context.is_in_loop,
        is_in_switch: true,
        result: copied_result(alloc, &frame.context.result)?,
        role: Role::Plain,
    })
}

fn initialiser_of(alloc: Global, initialiser: Initialiser, ty: &CType) -> Result<Role, NoMemory>
    ensures { IfOk result (λ r. (names : List (List ℕ)) → role_of names r ≡ initialiser_of initialiser (type_of ty.now)) }
{
    match initialiser {
        Initialiser::Nothing => Ok(Role::Plain),
        Initialiser::First => Ok(Role::Fills(copied(alloc, ty)?)),
        Initialiser::Assigned => Ok(Role::Assigns(copied(alloc, ty)?)),
    }
}

/// The role of the initialiser of an object, if it is one.
pub(crate) fn object_role(alloc: Global, object: Option<&Part>) -> Result<Role, NoMemory>
    ensures { IfOk result (λ r. (names : List (List ℕ))
        → role_of names r ≡ object_role (option_map part_of (option_copied object.entry))) }
{
    match object {
        Some(
            Part::Object {
                ty,
                steps: _,
                last: _,
                initialiser,
            },
        ) => {
            let role = initialiser_of(alloc, *initialiser, ty)?;
            Ok(role)
        }
        Some(
            Part::Value(_)
            | Part::Declarator(_)
            | Part::Members(_)
            | Part::Enumerator { .. }
            | Part::Parameter(_)
            | Part::NamedType(_)
            | Part::Braced(_)
            | Part::Filled(_)
            | Part::CaseLabel(_)
            | Part::DefaultLabel
            | Part::Statement,
        )
        | None => Ok(Role::Outside),
    }
}

// What a function gives.
#[tactic(auto, using(p9_types::proofs::Shapes::shapes))]
fn result_of(alloc: Global, ty: &CType) -> Result<Option<CType>, NoMemory>
    ensures { IfOk result (λ t. type_in t ≡ specs.result_of (type_of ty.now)) }
{
    match ty {
        CType::Function(result_type, _) => Ok(Some(copied(alloc, result_type.get())?)),
        CType::Void
        | CType::Char
        | CType::UChar
        | CType::Short
        | CType::UShort
        | CType::Int
        | CType::UInt
        | CType::Long
        | CType::ULong
        | CType::Pointer(_)
        | CType::Array(..)
        | CType::Tagged(_) => Ok(None),
    }
}

fn object_result(alloc: Global, object: Option<&Part>) -> Result<Option<CType>, NoMemory>
    ensures { IfOk result (λ t. type_in t
        ≡ specs.result_of (parts.object_type (option_map part_of (option_copied object.entry)) Void)) }
{
    match object {
        Some(
            Part::Object {
                ty,
                steps: _,
                last: _,
                initialiser: _,
            },
        ) => {
            let result_type = result_of(alloc, ty)?;
            Ok(result_type)
        }
        Some(
            Part::Value(_)
            | Part::Declarator(_)
            | Part::Members(_)
            | Part::Enumerator { .. }
            | Part::Parameter(_)
            | Part::NamedType(_)
            | Part::Braced(_)
            | Part::Filled(_)
            | Part::CaseLabel(_)
            | Part::DefaultLabel
            | Part::Statement,
        )
        | None => Ok(None),
    }
}

/// In the body of a function, which is this object.
pub(crate) fn body_context(alloc: Global, object: Option<&Part>) -> Result<Context, NoMemory>
    ensures { IfOk result (λ c. (names : List (List ℕ)) → context_of names c
        ≡ record parts.file_context { result = specs.result_of (parts.object_type (option_map part_of (option_copied object.entry)) Void) }) }
{
    Ok(Context {
        is_in_loop: false,
        is_in_switch: false,
        result: object_result(alloc, object)?,
        role: Role::Plain,
    })
}
