// Initialisers: the length that one gives, and the rules that it breaks.
ghost use Rattle.std.specs.Prelude.{◌≡◌, ℕ, List, IfOk};
ghost use Rattle.std.specs.Option.{option_map, option_copied};
ghost use Rattle.p9_lang.specs.Types.{type_of, tags_of};
ghost use Rattle.p9_lang.specs.TagRules.{NoneContainsItself};
ghost use Rattle.p9_lang.specs.Rules.{and_then};
ghost use Rattle.p9_lang.specs.Entries as entries;
ghost use Rattle.p9_lang.specs.Parts as parts;
ghost use Rattle.p9_lang.specs.Declaring as specs;
ghost use Rattle.p9_operand.specs.Least.{least};
ghost use Rattle.p9_operand.specs.Told.{told_least};
ghost use Rattle.p9_scopes.specs.State.{known_of};
ghost use Rattle.p9_declare.specs.Judging.{Judges, Leaves};
ghost use Rattle.p9_declare.specs.Types.{lacks_length};
ghost use Rattle.p9_parts.specs.Told.{role_of, initialiser_of, part_of, parts_of, frame_of};

use p9_base::NoMemory;
use p9_declare::{TypingFault, last_node, with_given_length};
use p9_lang::{CType, EntryBy, Kind, Tags};
use p9_opening::{entry_role, is_index_next};
use p9_operand::{Rule, is_scalar, value_rules};
use p9_parts::{Frame, Initialiser, Part, Parts, Role};
use p9_scopes::Known;
use p9_types::array_elements;
use p9_verdict::assigned_rules;
use std::alloc::Global;

// Whether the length of an array may still be given.
fn lacks_length(ty: &CType) -> bool
    ensures { result ≡ lacks_length (type_of ty.now) }
{
    match array_elements(ty) {
        Some(elements) => elements.count == 0,
        None => false,
    }
}

// The length that an initialiser gives to an array without one.
#[tactic(auto, using(crate::proofs::Lengths::array_gives, crate::proofs::Lengths::other_gives))]
fn given_length(part: &Part) -> u32
    ensures { result ≡ specs.given_length (part_of part.now) }
{
    match part {
        Part::Braced(count) => *count,
        Part::Value(operand) => match array_elements(&operand.ty) {
            Some(elements) => elements.count,
            None => 0,
        },
        Part::Declarator(_)
        | Part::Object { .. }
        | Part::Members(_)
        | Part::Enumerator { .. }
        | Part::Parameter(_)
        | Part::NamedType(_)
        | Part::Filled(_)
        | Part::CaseLabel(_)
        | Part::DefaultLabel
        | Part::Statement => 0,
    }
}

// Once its initialiser is judged, an object without a length has it.
#[tactic(auto, using(crate::proofs::Carrying::leaves_same, crate::proofs::Lengths::length_given, crate::proofs::Lengths::length_kept))]
fn with_length_given(
    known: &mut Known,
    alloc: Global,
    base: &CType,
    object: Option<&Part>,
    part: &Part,
) -> Result<(), TypingFault>
    ensures { Leaves result (known_of known.new)
        (specs.with_length_given (type_of base.now) (option_map part_of (option_copied object.entry)) (part_of part.now) (known_of known.old)) }
{
    match object {
        Some(
            Part::Object {
                ty,
                steps,
                last,
                initialiser: _,
            },
        ) => {
            if !lacks_length(ty) {
                return Ok(());
            }
            with_given_length(
                known,
                alloc,
                base,
                steps.as_slice(),
                *last,
                given_length(part),
            )
        }
        Some(
            Part::Value(_)
            | Part::Declarator(_)
            | Part::Members(_)
            | Part::Enumerator { .. }
            | Part::Parameter(_)
            | Part::NamedType(_)
            | Part::Braced(_)
            | Part::Filled(_)
            | Part::CaseLabel(_)
            | Part::DefaultLabel
            | Part::Statement,
        )
        | None => Ok(()),
    }
}

// The rule on what fills an object or a part of one. A scalar is converted.
fn filling_rule(
    alloc: Global,
    tags: &Tags,
    ty: &CType,
    part: &Part,
) -> Result<Option<Rule>, NoMemory>
    requires { NoneContainsItself (tags_of tags.now.list) }
    ensures { IfOk result (λ rule. told_least rule
        ≡ least (specs.initialiser_rules (tags_of tags.now.list) (parts.Fills (type_of ty.now)) (part_of part.now))) }
{
    match part {
        Part::Value(operand) => {
            if !is_scalar(ty) {
                return Ok(None);
            }
            let rule = value_rules(alloc, operand, ty, tags)?;
            Ok(rule)
        }
        Part::Declarator(_)
        | Part::Object { .. }
        | Part::Members(_)
        | Part::Enumerator { .. }
        | Part::Parameter(_)
        | Part::NamedType(_)
        | Part::Braced(_)
        | Part::Filled(_)
        | Part::CaseLabel(_)
        | Part::DefaultLabel
        | Part::Statement => Ok(None),
    }
}

// The rule on what is assigned to an automatic, as a statement of its own.
fn assigned_rule(
    alloc: Global,
    tags: &Tags,
    ty: &CType,
    part: &Part,
) -> Result<Option<Rule>, NoMemory>
    requires { NoneContainsItself (tags_of tags.now.list) }
    ensures { IfOk result (λ rule. told_least rule
        ≡ least (specs.initialiser_rules (tags_of tags.now.list) (parts.Assigns (type_of ty.now)) (part_of part.now))) }
{
    match part {
        Part::Value(operand) => {
            let rule = assigned_rules(alloc, true, ty, operand, tags)?;
            Ok(rule)
        }
        Part::Declarator(_)
        | Part::Object { .. }
        | Part::Members(_)
        | Part::Enumerator { .. }
        | Part::Parameter(_)
        | Part::NamedType(_)
        | Part::Braced(_)
        | Part::Filled(_)
        | Part::CaseLabel(_)
        | Part::DefaultLabel
        | Part::Statement => Ok(None),
    }
}

// The rule on an initialiser, by what it does to an object of this type.
fn declared_rule(
    alloc: Global,
    tags: &Tags,
    initialiser: Initialiser,
    ty: &CType,
    part: &Part,
) -> Result<Option<Rule>, NoMemory>
    requires { NoneContainsItself (tags_of tags.now.list) }
    ensures { IfOk result (λ rule. told_least rule
        ≡ least (specs.initialiser_rules (tags_of tags.now.list) (initialiser_of initialiser (type_of ty.now)) (part_of part.now))) }
{
    match initialiser {
        Initialiser::Nothing => Ok(None),
        Initialiser::First => filling_rule(alloc, tags, ty, part),
        Initialiser::Assigned => assigned_rule(alloc, tags, ty, part),
    }
}

// The rule on an initialiser that stands behind an object.
fn object_rule(
    alloc: Global,
    tags: &Tags,
    object: Option<&Part>,
    part: &Part,
) -> Result<Option<Rule>, NoMemory>
    requires { NoneContainsItself (tags_of tags.now.list) }
    ensures { IfOk result (λ rule. told_least rule
        ≡ least (specs.initialiser_rules (tags_of tags.now.list) (parts.object_role (option_map part_of (option_copied object.entry))) (part_of part.now))) }
{
    match object {
        Some(
            Part::Object {
                ty,
                steps: _,
                last: _,
                initialiser,
            },
        ) => declared_rule(alloc, tags, *initialiser, ty, part),
        Some(
            Part::Value(_)
            | Part::Declarator(_)
            | Part::Members(_)
            | Part::Enumerator { .. }
            | Part::Parameter(_)
            | Part::NamedType(_)
            | Part::Braced(_)
            | Part::Filled(_)
            | Part::CaseLabel(_)
            | Part::DefaultLabel
            | Part::Statement,
        )
        | None => Ok(None),
    }
}

// The rule on an initialiser in this role.
fn role_rule(alloc: Global, tags: &Tags, role: &Role, part: &Part) -> Result<Option<Rule>, NoMemory>
    requires { NoneContainsItself (tags_of tags.now.list) }
    ensures { IfOk result (λ rule. (names : List (List ℕ)) → told_least rule
        ≡ least (specs.initialiser_rules (tags_of tags.now.list) (role_of names role.now) (part_of part.now))) }
{
    match role {
        Role::Fills(ty) => filling_rule(alloc, tags, ty, part),
        Role::Assigns(ty) => assigned_rule(alloc, tags, ty, part),
        Role::Plain
        | Role::Whole
        | Role::Declares { .. }
        | Role::ParameterOf { .. }
        | Role::InBraces
        | Role::EntryOf { .. }
        | Role::Outside => Ok(None),
    }
}

// The initialiser of a declared object.
#[tactic(auto, using(p9_operand::proofs::Leasts::unless_at_node, p9_declare::proofs::Judging::fault_goes_on))]
fn object_initialised(
    known: &mut Known,
    alloc: Global,
    frame: &Frame,
    before: &Parts,
    part: &Part,
) -> Result<(), TypingFault>
    ensures { Judges (λ _. part_of part.now) result (known_of known.new)
        (and_then (specs.with_length_given (type_of frame.now.base) (parts.last_object (parts_of before.now)) (part_of part.now) (known_of known.old))
        (λ given. specs.unless_broken (specs.initialiser_rules given.tags (parts.object_role (parts.last_object (parts_of before.now))) (part_of part.now)) (part_of part.now) given)) }
{
    let object = before.last_object();
    match with_length_given(known, alloc, &frame.base, object, part) {
        Ok(()) => match object_rule(alloc, known.tags(), object, part)? {
            Some(rule) => Err(TypingFault::Broken {
                node: last_node(known),
                rule,
            }),
            None => Ok(()),
        },
        Err(fault) => Err(fault),
    }
}

// The initialiser of an entry in a list.
#[tactic(auto, using(p9_operand::proofs::Leasts::unless_at_node))]
fn entry_initialised(
    known: &Known,
    alloc: Global,
    by: &EntryBy,
    role: &Role,
    before: &Parts,
    part: &Part,
) -> Result<(), TypingFault>
    ensures { (names : List (List ℕ)) → Judges (λ _. part_of part.now) result (known_of known.now)
        (specs.unless_broken
        (specs.initialiser_rules (known_of known.now).tags (entries.entry_role (known_of known.now).tags (role_of names role.now) by.now (parts_of before.now)) (part_of part.now))
        (part_of part.now) (known_of known.now)) }
{
    let filled = entry_role(known, alloc, role, by, before.as_slice())?;
    match role_rule(alloc, known.tags(), &filled, part)? {
        Some(rule) => Err(TypingFault::Broken {
            node: last_node(known),
            rule,
        }),
        None => Ok(()),
    }
}

/// The rules on an initialiser, and the length that it gives.
pub(crate) fn check_initialiser(
    known: &mut Known,
    alloc: Global,
    kind: &Kind,
    frame: &Frame,
    before: &Parts,
    part: &Part,
) -> Result<(), TypingFault>
    ensures { (names : List (List ℕ)) → Judges (λ _. part_of part.now) result (known_of known.new)
        (specs.initialised kind.now (frame_of names frame.now) (parts_of before.now) (part_of part.now) (known_of known.old)) }
{
    match kind {
        Kind::Declaration { .. } => object_initialised(known, alloc, frame, before, part),
        Kind::Entry { by, equals: _ } => {
            if is_index_next(by, before.as_slice()) {
                return Ok(());
            }
            let role = &frame.context.role;
            entry_initialised(known, alloc, by, role, before, part)
        }
        _ => Ok(()),
    }
}
