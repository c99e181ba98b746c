// The types that steps of declarators make.
ghost use Rattle.std.specs.Prelude.{◌≡◌, not, IfOk};
ghost use Rattle.p9_lang.specs.Types.{Array, Pointer, type_of, types_of, type_row, tags_of};
ghost use Rattle.p9_lang.specs.Layout.{is_complete};
ghost use Rattle.p9_lang.specs.Rules as rules;
ghost use Rattle.p9_lang.specs.TagRules.{NoneContainsItself};
ghost use Rattle.p9_lang.specs.Declarators.{gives_length, array_rules, word_of, shaped, adjusted};
ghost use Rattle.p9_operand.specs.Answers.{TellsType};
ghost use Rattle.p9_operand.specs.Least.{least};
ghost use Rattle.p9_operand.specs.Told.{told_least, told_constant};
ghost use Rattle.p9_declare.specs.Closing.{sized_type, unsized_type, function_type, with_given};
ghost use Rattle.p9_declare.specs.Told.{told_by, told_shape, told_step};

use crate::steps::{Shape, Step};
use p9_base::NoMemory;
use p9_lang::{CType, Tags};
use p9_operand::{
    Constant, Rule, RuleFault, breaks_if, copied, is_array, is_character, is_complete, is_function,
    is_structure, is_within_limit, least_of_both,
};
use p9_types::array_elements;
use sqlite_items::{Boxed, Items};
use std::alloc::Global;

/// What gives a length to brackets without one: nothing; the braces of an initialiser; a text, for an
/// array of characters; or the caller, for a parameter.
#[derive(Clone, Copy, PartialEq, Eq, Debug, Drop)]
pub enum LengthBy {
    ByNothing,
    ByBraces,
    ByText,
    ByCaller,
}

fn gives_length(by: LengthBy, element: &CType) -> bool
    ensures { result ≡ gives_length (told_by by) (type_of element.now) }
{
    match by {
        LengthBy::ByNothing => false,
        LengthBy::ByBraces | LengthBy::ByCaller => true,
        LengthBy::ByText => is_character(element),
    }
}

#[tactic(auto, using(p9_types::proofs::Shapes::shapes))]
fn pointer_to(alloc: Global, target: &CType) -> Result<CType, NoMemory>
    ensures { IfOk result (λ t. type_of t ≡ Pointer (type_of target.now)) }
{
    let target = copied(alloc, target)?;
    Ok(CType::Pointer(Boxed::new(alloc, target)?))
}

#[tactic(auto, using(p9_types::proofs::Shapes::shapes))]
fn array_of(alloc: Global, element: &CType, count: u32) -> Result<CType, NoMemory>
    ensures { IfOk result (λ t. type_of t ≡ Array (type_of element.now) count) }
{
    let element = copied(alloc, element)?;
    Ok(CType::Array(Boxed::new(alloc, element)?, count))
}

fn word_of(length: Constant) -> u32
    ensures { result ≡ word_of (told_constant length) }
{
    match length {
        Constant::NotConstant | Constant::Undefined | Constant::Null => 0,
        Constant::Value(word) => word,
    }
}

// The rule on the length of an array with this element.
fn array_rules(
    alloc: Global,
    tags: &Tags,
    element: &CType,
    length: Constant,
) -> Result<Option<Rule>, NoMemory>
    requires { NoneContainsItself (tags_of tags.now.list) }
    ensures { IfOk result (λ rule. told_least rule
        ≡ least (array_rules (tags_of tags.now.list) (type_of element.now) (told_constant length))) }
{
    match length {
        Constant::NotConstant | Constant::Undefined | Constant::Null | Constant::Value(0) => {
            Ok(Some(Rule::BadConstant))
        }
        Constant::Value(count) => {
            let array = array_of(alloc, element, count)?;
            let is_within = is_within_limit(alloc, &array, tags)?;
            Ok(breaks_if(!is_within, Rule::BadConstant))
        }
    }
}

// The rule on an element, which has a size.
fn element_rules(alloc: Global, tags: &Tags, element: &CType) -> Result<Option<Rule>, NoMemory>
    requires { NoneContainsItself (tags_of tags.now.list) }
    ensures { IfOk result (λ rule. told_least rule ≡ least (rules.breaks_if
        (not (is_complete (tags_of tags.now.list) (type_of element.now))) rules.Incomplete)) }
{
    let is_complete = is_complete(alloc, element, tags)?;
    Ok(breaks_if(!is_complete, Rule::Incomplete))
}

#[tactic(auto, using(p9_operand::proofs::Leasts::least_append, p9_operand::proofs::Leasts::unless_least_of))]
fn array_with_length(
    alloc: Global,
    tags: &Tags,
    length: Constant,
    element: &CType,
) -> Result<CType, RuleFault>
    requires { NoneContainsItself (tags_of tags.now.list) }
    ensures { TellsType result (sized_type (tags_of tags.now.list) (told_constant length) (type_of element.now)) }
{
    let incomplete = element_rules(alloc, tags, element)?;
    let bad_length = array_rules(alloc, tags, element, length)?;
    match least_of_both(incomplete, bad_length) {
        Some(rule) => Err(RuleFault::Rule(rule)),
        None => Ok(array_of(alloc, element, word_of(length))?),
    }
}

#[tactic(auto, using(p9_operand::proofs::Leasts::least_append, p9_operand::proofs::Leasts::unless_least_of))]
fn array_without_length(
    alloc: Global,
    tags: &Tags,
    by: LengthBy,
    is_outermost: bool,
    element: &CType,
) -> Result<CType, RuleFault>
    requires { NoneContainsItself (tags_of tags.now.list) }
    ensures { TellsType result (unsized_type (tags_of tags.now.list) (told_by by) is_outermost (type_of element.now)) }
{
    let incomplete = element_rules(alloc, tags, element)?;
    let is_given = is_outermost && gives_length(by, element);
    match least_of_both(incomplete, breaks_if(!is_given, Rule::BadConstant)) {
        Some(rule) => Err(RuleFault::Rule(rule)),
        None => Ok(array_of(alloc, element, 0)?),
    }
}

fn all_copied(alloc: Global, types: &[CType]) -> Result<Items<CType>, NoMemory>
    ensures { IfOk result (λ ts. ts ≡ types.now) }
{
    let mut copies = Items::new(alloc);
    'each: for ty in types {
        copies.push(copied(alloc, ty)?)?;
    }
    Ok(copies)
}

// No function gives an array, a function or a structure.
#[tactic(auto, using(p9_types::proofs::Shapes::shapes))]
fn function_of(alloc: Global, parameters: &[CType], ty: &CType) -> Result<CType, RuleFault>
    ensures { TellsType result (function_type (type_row (types_of parameters.now)) (type_of ty.now)) }
{
    if is_array(ty) || is_function(ty) || is_structure(ty) {
        return Err(RuleFault::Rule(Rule::BadOperands));
    }
    let parameters = all_copied(alloc, parameters)?;
    let ty = copied(alloc, ty)?;
    Ok(CType::Function(Boxed::new(alloc, ty)?, parameters))
}

/// The type that a step makes of the one outside it.
pub(crate) fn shaped(
    alloc: Global,
    tags: &Tags,
    by: LengthBy,
    is_outermost: bool,
    shape: &Shape,
    ty: &CType,
) -> Result<CType, RuleFault>
    requires { NoneContainsItself (tags_of tags.now.list) }
    ensures { TellsType result
        (shaped (tags_of tags.now.list) (told_by by) is_outermost (told_shape shape.now) (type_of ty.now)) }
{
    match shape {
        Shape::Names(_) | Shape::Keeps => Ok(copied(alloc, ty)?),
        Shape::Points => Ok(pointer_to(alloc, ty)?),
        Shape::Sized(length) => array_with_length(alloc, tags, *length, ty),
        Shape::Unsized => array_without_length(alloc, tags, by, is_outermost, ty),
        Shape::Takes {
            parameters,
            level: _,
        } => function_of(alloc, parameters.as_slice(), ty),
    }
}

/// The same, where an initialiser gives a length to brackets without one.
#[tactic(auto, using(crate::proofs::Outermost::shaped_given, crate::proofs::Outermost::shaped_as_before))]
pub(crate) fn shaped_with(
    alloc: Global,
    tags: &Tags,
    by: LengthBy,
    given: Option<u32>,
    is_outermost: bool,
    step: &Step,
    ty: &CType,
) -> Result<CType, RuleFault>
    requires { NoneContainsItself (tags_of tags.now.list) }
    ensures { TellsType result
        (shaped (tags_of tags.now.list) (told_by by) is_outermost (with_given given (told_step step.now)).shape (type_of ty.now)) }
{
    if let Some(count) = given {
        if step.shape.is_unsized() {
            return array_with_length(alloc, tags, Constant::Value(count), ty);
        }
    }
    shaped(alloc, tags, by, is_outermost, &step.shape, ty)
}

/// The type of a parameter: one of array or function type is a pointer.
#[tactic(auto, using(p9_types::proofs::Shapes::shapes))]
pub fn adjusted(alloc: Global, ty: &CType) -> Result<CType, NoMemory>
    ensures { IfOk result (λ t. type_of t ≡ adjusted (type_of ty.now)) }
{
    if let Some(elements) = array_elements(ty) {
        return pointer_to(alloc, elements.ty);
    }
    if is_function(ty) {
        return pointer_to(alloc, ty);
    }
    copied(alloc, ty)
}
