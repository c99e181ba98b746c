// Enumeration constants, and labels of switches.
ghost use Rattle.std.specs.Prelude.{◌≡◌, Some};
ghost use Rattle.std.specs.List.{list_any};
ghost use Rattle.std.specs.Option.{option_map};
ghost use Rattle.p9_lang.specs.Rules as rules;
ghost use Rattle.p9_lang.specs.Parts as parts;
ghost use Rattle.p9_lang.specs.Declaring as specs;
ghost use Rattle.p9_operand.specs.Told.{told_constant};
ghost use Rattle.p9_scopes.specs.State.{known_of};
ghost use Rattle.p9_declare.specs.Judging.{Judges};
ghost use Rattle.p9_parts.specs.Told.{part_of, parts_of};

use p9_declare::{TypingFault, enumerated, last_node};
use p9_lang::Ident;
use p9_operand::{Constant, Rule};
use p9_parts::{Part, Parts};
use p9_scopes::Known;
use std::alloc::Global;

fn enumerator_value(before: &Parts, value: Option<Constant>) -> Constant
    ensures { told_constant result ≡ specs.enumerator_value (parts_of before.now) (option_map told_constant value) }
{
    match value {
        Some(value) => value,
        None => Constant::Value(before.next_value()),
    }
}

/// An enumeration constant is declared, with its value.
pub(crate) fn enumerator(
    known: &mut Known,
    alloc: Global,
    before: &Parts,
    name: Ident,
    value: Option<Constant>,
) -> Result<Part, TypingFault>
    ensures { Judges part_of result (known_of known.new)
        (specs.enumerated name (specs.enumerator_value (parts_of before.now) (option_map told_constant value)) (known_of known.old)) }
{
    let value = enumerator_value(before, value);
    match enumerated(known, alloc, &name, value) {
        Ok(()) => Ok(Part::Enumerator {
            name,
            value: Some(value),
        }),
        Err(fault) => Err(fault),
    }
}

// Unless it stands there already.
fn placed_once(known: &Known, is_there: bool, label: Part) -> Result<Part, TypingFault>
    ensures { Judges part_of result (known_of known.now)
        (specs.unless_broken (rules.breaks_if is_there rules.Misplaced) (part_of label) (known_of known.now)) }
{
    if is_there {
        return Err(TypingFault::Broken {
            node: last_node(known),
            rule: Rule::Misplaced,
        });
    }
    Ok(label)
}

/// A case label, unless its switch has one of its value.
pub(crate) fn case_label(known: &Known, before: &Parts, word: u32) -> Result<Part, TypingFault>
    ensures { Judges part_of result (known_of known.now)
        (specs.unless_broken (rules.breaks_if (list_any (specs.is_case word) (parts_of before.now)) rules.Misplaced) (parts.CaseLabel word) (known_of known.now)) }
{
    placed_once(known, before.has_case(word), Part::CaseLabel(word))
}

/// A default label, unless its switch has one.
pub(crate) fn default_label(known: &Known, before: &Parts) -> Result<Part, TypingFault>
    ensures { Judges part_of result (known_of known.now)
        (specs.unless_broken (rules.breaks_if (list_any specs.is_default (parts_of before.now)) rules.Misplaced) parts.DefaultLabel (known_of known.now)) }
{
    placed_once(known, before.has_default(), Part::DefaultLabel)
}
