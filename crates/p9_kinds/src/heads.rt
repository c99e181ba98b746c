// Nodes with a spec, and enumeration constants.
ghost use Rattle.std.specs.Prelude.{◌≡◌, ℕ, [], ◌∷◌, ◌++◌, List, reverse, not, ◌&&◌, ◌||◌, IfOk};
ghost use Rattle.std.specs.Option.{option_map, option_copied};
ghost use Rattle.p9_lang.specs.Types.{Int, Nothing, type_of};
ghost use Rattle.p9_lang.specs.Conversions.{is_structure, is_void};
ghost use Rattle.p9_lang.specs.Declarators as declarators;
ghost use Rattle.p9_lang.specs.Opening.{is_some};
ghost use Rattle.p9_lang.specs.Parts as part_specs;
ghost use Rattle.p9_lang.specs.Rules as rules;
ghost use Rattle.p9_lang.specs.Scopes.{is_file_level};
ghost use Rattle.p9_lang.specs.Typing as specs;
ghost use Rattle.p9_operand.specs.Least.{least};
ghost use Rattle.p9_operand.specs.Told.{told_least, told_constant};
ghost use Rattle.p9_scopes.specs.State.{known_of};
ghost use Rattle.p9_declare.specs.Judging.{Judges};
ghost use Rattle.p9_declare.specs.Told.{told_storage};
ghost use Rattle.p9_parts.specs.Told.{frame_of, part_of, parts_of, rules_of};
ghost use Rattle.p9_kinds.specs.Alone.{enumerator_alone};

use crate::members::{declared_members, object_type, or_unnamed};
use crate::nodes::{added, has, typeless};
use crate::steps::{malformed, reversed};
use p9_base::NoMemory;
use p9_declare::{Storage, TypingFault, adjusted, own_list};
use p9_lang::{Bind, CType, Ident};
use p9_operand::{
    Constant, Rule, breaks_if, copied, is_complete, is_structure, is_within_limit, least_of_both,
};
use p9_parts::{Frame, Part, Parts};
use p9_scopes::Known;
use p9_types::is_void;
use std::alloc::Global;

#[tactic(auto, using(p9_types::proofs::Shapes::type_of_tagged))]
fn size_rule(known: &Known, alloc: Global, tag: Option<u32>) -> Result<Option<Rule>, NoMemory>
    ensures { IfOk result (λ rule. told_least rule ≡ least (specs.size_rules (known_of known.now).tags tag)) }
{
    match tag {
        Some(number) => {
            let is_within = is_within_limit(alloc, &CType::Tagged(number), known.tags())?;
            Ok(breaks_if(!is_within, Rule::BadConstant))
        }
        None => Ok(None),
    }
}

// The rule that a node breaks whose spec breaks this one, or has the body of a structure that is too
// large, and which may break another.
#[tactic(auto, using(crate::proofs::Specs::spec_least))]
fn spec_rule(
    known: &Known,
    alloc: Global,
    rule: Option<Rule>,
    tag: Option<u32>,
    other: Option<Rule>,
) -> Result<Option<Rule>, NoMemory>
    ensures { IfOk result (λ told. (others : List rules.Rule) → told_least other ≡ least others
        → told_least told ≡ least ((rules_of rule ++ specs.size_rules (known_of known.now).tags tag) ++ others)) }
{
    let size = size_rule(known, alloc, tag)?;
    let own = least_of_both(rule, size);
    Ok(least_of_both(own, other))
}

fn extern_rule(known: &Known, storage: Storage) -> Option<Rule>
    ensures { told_least result
        ≡ least (rules.breaks_if (declarators.is_extern (told_storage storage) && not (is_file_level (known_of known.now).names)) rules.Misplaced) }
{
    breaks_if(
        storage.is_extern() && !known.is_file_level(),
        Rule::Misplaced,
    )
}

/// A declaration.
pub(crate) fn judged_declaration(
    known: &mut Known,
    alloc: Global,
    frame: Frame,
) -> Result<Part, TypingFault>
    ensures { (names : List (List ℕ)) → Judges part_of result (known_of known.new)
        (specs.judged_declaration (frame_of names frame) (known_of known.old)) }
{
    let misplaced = extern_rule(known, frame.storage);
    let rule = spec_rule(known, alloc, frame.rule, frame.tag, misplaced)?;
    typeless(known, rule, Part::Statement)
}

fn has_own_list(object: Option<&Part>) -> bool
    ensures { result ≡ is_some (declarators.own_list (specs.steps_in (option_map part_of (option_copied object.entry)))) }
{
    match object {
        Some(
            Part::Object {
                ty: _,
                steps,
                last: _,
                initialiser: _,
            },
        ) => own_list(steps.as_slice()).is_some(),
        Some(
            Part::Value(_)
            | Part::Declarator(_)
            | Part::Members(_)
            | Part::Enumerator { .. }
            | Part::Parameter(_)
            | Part::NamedType(_)
            | Part::Braced(_)
            | Part::Filled(_)
            | Part::CaseLabel(_)
            | Part::DefaultLabel
            | Part::Statement,
        )
        | None => false,
    }
}

fn function_rule(storage: Storage, object: Option<&Part>) -> Option<Rule>
    ensures { told_least result ≡ least (rules.breaks_if
        (declarators.is_typedef (told_storage storage) || not (is_some (declarators.own_list (specs.steps_in (option_map part_of (option_copied object.entry))))))
        rules.NotFunction) }
{
    breaks_if(
        storage.is_typedef() || !has_own_list(object),
        Rule::NotFunction,
    )
}

/// A function with its body, with which the names of its parameters end.
pub(crate) fn judged_function(
    known: &mut Known,
    alloc: Global,
    frame: Frame,
    parts: &Parts,
) -> Result<Part, TypingFault>
    ensures { (names : List (List ℕ)) → Judges part_of result (known_of known.new)
        (specs.judged_function (frame_of names frame) (parts_of parts.now) (known_of known.old)) }
{
    let headless = function_rule(frame.storage, parts.last_object());
    let rule = spec_rule(known, alloc, frame.rule, frame.tag, headless)?;
    let _level = known.close_level(alloc);
    typeless(known, rule, Part::Statement)
}

// The rule that an unnamed member breaks, which is a structure or union.
#[tactic(auto, using(p9_operand::proofs::Leasts::least_append))]
fn unnamed_rule(
    known: &Known,
    alloc: Global,
    base: &CType,
    object: Option<&Part>,
) -> Result<Option<Rule>, NoMemory>
    ensures { IfOk result (λ rule. told_least rule
        ≡ least (specs.unnamed_rules (known_of known.now).tags (type_of base.now) (option_map part_of (option_copied object.entry)))) }
{
    match object {
        Some(_) => Ok(None),
        None => {
            let is_complete = is_complete(alloc, base, known.tags())?;
            Ok(least_of_both(
                breaks_if(!is_complete, Rule::Incomplete),
                breaks_if(!is_structure(base), Rule::BadOperands),
            ))
        }
    }
}

/// A declaration of members.
pub(crate) fn judged_member(
    known: &mut Known,
    alloc: Global,
    frame: Frame,
    parts: Parts,
) -> Result<Part, TypingFault>
    ensures { (names : List (List ℕ)) → Judges part_of result (known_of known.new)
        (specs.judged_member (frame_of names frame) (parts_of parts) (known_of known.old)) }
{
    let unnamed = unnamed_rule(known, alloc, &frame.base, parts.last_object())?;
    let rule = spec_rule(known, alloc, frame.rule, frame.tag, unnamed)?;
    let declared = declared_members(alloc, parts)?;
    let members = or_unnamed(alloc, frame.base, declared)?;
    typeless(known, rule, Part::Members(members))
}

fn parameter_rule(ty: &CType) -> Option<Rule>
    ensures { told_least result ≡ least (rules.breaks_if (is_structure (type_of ty.now) || is_void (type_of ty.now)) rules.BadOperands) }
{
    breaks_if(is_structure(ty) || is_void(ty), Rule::BadOperands)
}

fn parameter_type(alloc: Global, base: &CType, parts: &Parts) -> Result<CType, NoMemory>
    ensures { IfOk result (λ t. type_of t
        ≡ part_specs.object_type (part_specs.last_object (parts_of parts.now)) (declarators.adjusted (type_of base.now))) }
{
    let adjusted = adjusted(alloc, base)?;
    object_type(alloc, parts.last_object(), adjusted)
}

/// A parameter, which is no structure and not void.
pub(crate) fn judged_parameter(
    known: &mut Known,
    alloc: Global,
    frame: Frame,
    parts: &Parts,
) -> Result<Part, TypingFault>
    ensures { (names : List (List ℕ)) → Judges part_of result (known_of known.new)
        (specs.judged_parameter (frame_of names frame)
        (part_specs.object_type (part_specs.last_object (parts_of parts.now)) (declarators.adjusted (frame_of names frame).base)) (known_of known.old)) }
{
    let ty = parameter_type(alloc, &frame.base, parts)?;
    let rule = spec_rule(known, alloc, frame.rule, frame.tag, parameter_rule(&ty))?;
    let copy = copied(alloc, &ty)?;
    has(known, rule, copy, Bind::Nothing, Part::Parameter(ty))
}

fn named_type(alloc: Global, base: CType, parts: &Parts) -> Result<CType, NoMemory>
    ensures { IfOk result (λ t. type_of t ≡ part_specs.object_type (part_specs.last_object (parts_of parts.now)) (type_of base)) }
{
    object_type(alloc, parts.last_object(), base)
}

/// A type that is named in a cast or `sizeof`.
pub(crate) fn judged_type(
    known: &mut Known,
    alloc: Global,
    frame: Frame,
    parts: &Parts,
) -> Result<Part, TypingFault>
    ensures { (names : List (List ℕ)) → Judges part_of result (known_of known.new)
        (specs.judged_type (frame_of names frame)
        (part_specs.object_type (part_specs.last_object (parts_of parts.now)) (frame_of names frame).base) (known_of known.old)) }
{
    let rule = spec_rule(known, alloc, frame.rule, frame.tag, None)?;
    let ty = named_type(alloc, frame.base, parts)?;
    let means = Bind::TypeName(copied(alloc, &ty)?);
    let copy = copied(alloc, &ty)?;
    has(known, rule, copy, means, Part::NamedType(ty))
}

#[tactic(auto, using(p9_types::proofs::Shapes::type_of_int))]
fn enumerator(
    known: &mut Known,
    alloc: Global,
    name: &Ident,
    value: Option<Constant>,
) -> Result<Part, TypingFault>
    ensures { Judges part_of result (known_of known.new)
        (specs.has [] Int Nothing (part_specs.Enumerator name.now (option_map told_constant value)) (known_of known.old)) }
{
    let name = name.copied(alloc)?;
    added(
        known,
        CType::Int,
        Bind::Nothing,
        Part::Enumerator { name, value },
    )
}

// A constant with this value, behind which stand these parts, the last one first.
fn valued_enumerator(
    known: &mut Known,
    alloc: Global,
    name: &Ident,
    value: Constant,
    left: &[Part],
) -> Result<Part, TypingFault>
    ensures { Judges part_of result (known_of known.new)
        (enumerator_alone name.now (told_constant value) (parts_of (reverse left.now)) (known_of known.old)) }
{
    if left.is_empty() {
        enumerator(known, alloc, name, Some(value))
    } else {
        Err(malformed(known))
    }
}

/// An enumeration constant, with a value or without.
pub(crate) fn judged_enumerator(
    known: &mut Known,
    alloc: Global,
    name: &Ident,
    parts: Parts,
) -> Result<Part, TypingFault>
    ensures { Judges part_of result (known_of known.new)
        (specs.judged_enumerator name.now (parts_of parts) (known_of known.old)) }
{
    let mut left = reversed(parts);
    match left.pop() {
        None => enumerator(known, alloc, name, None),
        Some(Part::Value(operand)) => {
            valued_enumerator(known, alloc, name, operand.constant, left.as_slice())
        }
        Some(
            Part::Declarator(_)
            | Part::Object { .. }
            | Part::Members(_)
            | Part::Enumerator { .. }
            | Part::Parameter(_)
            | Part::NamedType(_)
            | Part::Braced(_)
            | Part::Filled(_)
            | Part::CaseLabel(_)
            | Part::DefaultLabel
            | Part::Statement,
        ) => Err(malformed(known)),
    }
}
