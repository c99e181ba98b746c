// The rules on statements: on tests, on what is switched on or returned, and on case labels.
ghost use Rattle.std.specs.Prelude.{◌≡◌, ◌∷◌, [], Some, IfOk};
ghost use Rattle.std.specs.Option.{option_map, option_copied};
ghost use Rattle.p9_lang.specs.Types.{type_of};
ghost use Rattle.p9_lang.specs.Conversions.{decayed, is_integer, is_scalar};
ghost use Rattle.p9_lang.specs.Entries.{constant_or_zero};
ghost use Rattle.p9_lang.specs.Typing as specs;
ghost use Rattle.p9_operand.specs.Least.{least};
ghost use Rattle.p9_operand.specs.Told.{told_least, told_constant};
ghost use Rattle.p9_scopes.specs.State.{known_of};
ghost use Rattle.p9_declare.specs.Judging.{Judges};
ghost use Rattle.p9_declare.specs.Told.{type_in};
ghost use Rattle.p9_parts.specs.Told.{part_of, parts_of};

use crate::nodes::typeless;
use p9_base::NoMemory;
use p9_declare::{TypingFault, constant_rules};
use p9_lang::CType;
use p9_operand::{Constant, Rule, breaks_if, is_array, is_function, is_scalar, value_rules};
use p9_parts::Part;
use p9_scopes::Known;
use p9_types::{is_integer, is_void};
use std::alloc::Global;

// Whether a value of this type can be tested: an array or a function is a pointer then.
#[tactic(auto, using(crate::proofs::Values::scalar_value))]
fn has_scalar_value(ty: &CType) -> bool
    ensures { result ≡ is_scalar (decayed (type_of ty.now)) }
{
    is_scalar(ty) || is_array(ty) || is_function(ty)
}

#[tactic(auto, using(crate::proofs::Values::integer_value))]
fn has_integer_value(ty: &CType) -> bool
    ensures { result ≡ is_integer (decayed (type_of ty.now)) }
{
    is_integer(ty)
}

/// The rule that a test breaks.
pub(crate) fn test_rule(part: Option<&Part>) -> Option<Rule>
    ensures { told_least result ≡ least (specs.test_rules (option_map part_of (option_copied part.entry))) }
{
    match part {
        Some(Part::Value(operand)) => breaks_if(!has_scalar_value(&operand.ty), Rule::NotScalar),
        Some(
            Part::Declarator(_)
            | Part::Object { .. }
            | Part::Members(_)
            | Part::Enumerator { .. }
            | Part::Parameter(_)
            | Part::NamedType(_)
            | Part::Braced(_)
            | Part::Filled(_)
            | Part::CaseLabel(_)
            | Part::DefaultLabel
            | Part::Statement,
        )
        | None => Some(Rule::Malformed),
    }
}

/// The rule that the test of a `for` breaks, where there is one: `first` says that an expression
/// stands before it.

pub(crate) fn loop_test_rule(first: bool, test: bool, parts: &[Part]) -> Option<Rule>
    ensures { told_least result ≡ least (specs.loop_test_rules first test (parts_of parts.now)) }
{
    if !test {
        return None;
    }
    test_rule(parts.get(usize::from(first)))
}

/// The rule that what is switched on breaks.
pub(crate) fn switch_rule(part: Option<&Part>) -> Option<Rule>
    ensures { told_least result ≡ least (specs.switch_rules (option_map part_of (option_copied part.entry))) }
{
    match part {
        Some(Part::Value(operand)) => breaks_if(!has_integer_value(&operand.ty), Rule::BadOperands),
        Some(
            Part::Declarator(_)
            | Part::Object { .. }
            | Part::Members(_)
            | Part::Enumerator { .. }
            | Part::Parameter(_)
            | Part::NamedType(_)
            | Part::Braced(_)
            | Part::Filled(_)
            | Part::CaseLabel(_)
            | Part::DefaultLabel
            | Part::Statement,
        )
        | None => Some(Rule::Malformed),
    }
}

// The rule that a returned part breaks in a function with this result.
fn returned_rule(
    known: &Known,
    alloc: Global,
    ty: &CType,
    part: &Part,
) -> Result<Option<Rule>, NoMemory>
    ensures { IfOk result (λ rule. told_least rule
        ≡ least (specs.return_rules (known_of known.now).tags (Some (type_of ty.now)) (part_of part.now ∷ []))) }
{
    match part {
        Part::Value(operand) => {
            if is_void(ty) {
                return Ok(Some(Rule::BadReturn));
            }
            value_rules(alloc, operand, ty, known.tags())
        }
        Part::Declarator(_)
        | Part::Object { .. }
        | Part::Members(_)
        | Part::Enumerator { .. }
        | Part::Parameter(_)
        | Part::NamedType(_)
        | Part::Braced(_)
        | Part::Filled(_)
        | Part::CaseLabel(_)
        | Part::DefaultLabel
        | Part::Statement => Ok(Some(Rule::Malformed)),
    }
}

#[tactic(auto, using(crate::proofs::Values::nothing_returned, crate::proofs::Values::one_returned, crate::proofs::Values::several_returned))]
fn result_rule(
    known: &Known,
    alloc: Global,
    ty: &CType,
    parts: &[Part],
) -> Result<Option<Rule>, NoMemory>
    ensures { IfOk result (λ rule. told_least rule
        ≡ least (specs.return_rules (known_of known.now).tags (Some (type_of ty.now)) (parts_of parts.now))) }
{
    match parts {
        [] => Ok(breaks_if(!is_void(ty), Rule::BadReturn)),
        [part] => returned_rule(known, alloc, ty, part),
        [_, _, ..] => Ok(Some(Rule::Malformed)),
    }
}

/// The rule that a `return` breaks in a function with this result. In the body of what is no function
/// there is none.
pub(crate) fn return_rule(
    known: &Known,
    alloc: Global,
    result_type: &Option<CType>,
    parts: &[Part],
) -> Result<Option<Rule>, NoMemory>
    ensures { IfOk result (λ rule. told_least rule
        ≡ least (specs.return_rules (known_of known.now).tags (type_in result_type.now) (parts_of parts.now))) }
{
    match result_type {
        Some(ty) => result_rule(known, alloc, ty, parts),
        None => Ok(None),
    }
}

fn label_word(constant: Constant) -> u32
    ensures { result ≡ constant_or_zero (told_constant constant) }
{
    match constant {
        Constant::Value(word) => word,
        Constant::NotConstant | Constant::Undefined | Constant::Null => 0,
    }
}

/// A case label of this constant.
pub(crate) fn judged_case(known: &mut Known, constant: Constant) -> Result<Part, TypingFault>
    ensures { Judges part_of result (known_of known.new)
        (specs.judged_case (told_constant constant) (known_of known.old)) }
{
    typeless(
        known,
        constant_rules(constant),
        Part::CaseLabel(label_word(constant)),
    )
}
