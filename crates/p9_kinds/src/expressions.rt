// Expressions: the operators by their operands, names, and texts.
ghost use Rattle.std.specs.Prelude.{◌≡◌, ◌∷◌, ◌+◌, ◌&&◌, [], ℕ, List, Some, None, true, not, length, map, sum, IfOk, MatchOption};
ghost use Rattle.std.specs.Option.{option_map};
ghost use Rattle.p9_lang.specs.Types.{Nothing, Static, type_of, meant};
ghost use Rattle.p9_lang.specs.Conversions as conversions;
ghost use Rattle.p9_lang.specs.Constants as constants;
ghost use Rattle.p9_lang.specs.Layout as layout;
ghost use Rattle.p9_lang.specs.Declarators as declarators;
ghost use Rattle.p9_lang.specs.Expressions as expressions;
ghost use Rattle.p9_lang.specs.Scopes.{in_levels};
ghost use Rattle.p9_lang.specs.Parts as parts;
ghost use Rattle.p9_lang.specs.Rules as rules;
ghost use Rattle.p9_lang.specs.Typing as specs;
ghost use Rattle.p9_operand.specs.Least.{least};
ghost use Rattle.p9_operand.specs.Told.{told_constant, told_least, told_operand, told_operands};
ghost use Rattle.p9_scopes.specs.Seen.{declared_of};
ghost use Rattle.p9_scopes.specs.State.{known_of};
ghost use Rattle.p9_declare.specs.Judging.{Judges};
ghost use Rattle.p9_parts.specs.Told.{part_of, parts_of, role_of};
ghost use Rattle.p9_kinds.specs.Operands.{operand_in};

use crate::nodes::{added, has};
use crate::roles::is_filled_by_text;
use p9_base::NoMemory;
use p9_declare::TypingFault;
use p9_lang::{Bind, CType, Ident, Kind};
use p9_operand::{
    Constant, Operand, Rule, RuleFault, breaks_if, constant_at, copied, is_function,
    is_within_limit,
};
use p9_parts::{Part, Parts, Role};
use p9_scopes::{Declared, Known};
use p9_verdict::verdict;
use sqlite_items::Boxed;
use std::alloc::Global;

// The next node is an expression, unless it breaks a rule.
fn has_value(
    known: &mut Known,
    alloc: Global,
    rule: Option<Rule>,
    bind: Bind,
    operand: Operand,
) -> Result<Part, TypingFault>
    ensures { (broken : List rules.Rule) → told_least rule ≡ least broken → Judges part_of result (known_of known.new)
        (specs.has broken (type_of operand.ty) (meant bind) (parts.Value (told_operand operand)) (known_of known.old)) }
{
    let ty = copied(alloc, &operand.ty)?;
    has(known, rule, ty, bind, Part::Value(operand))
}

// The next node is an expression that stands for nothing; it breaks no rule.
fn added_value(known: &mut Known, alloc: Global, operand: Operand) -> Result<Part, TypingFault>
    ensures { Judges part_of result (known_of known.new)
        (specs.has [] (type_of operand.ty) Nothing (parts.Value (told_operand operand)) (known_of known.old)) }
{
    let ty = copied(alloc, &operand.ty)?;
    added(known, ty, Bind::Nothing, Part::Value(operand))
}

// OPERATORS

// The operand that a part is, an expression or a type's name.
fn operand_in(part: Part) -> Option<Operand>
    ensures { option_map told_operand result ≡ operand_in (part_of part) }
{
    match part {
        Part::Value(operand) => Some(operand),
        Part::NamedType(ty) => Some(Operand {
            ty,
            is_lvalue: false,
            constant: Constant::NotConstant,
        }),
        Part::Declarator(_)
        | Part::Object { .. }
        | Part::Members(_)
        | Part::Enumerator { .. }
        | Part::Parameter(_)
        | Part::Braced(_)
        | Part::Filled(_)
        | Part::CaseLabel(_)
        | Part::DefaultLabel
        | Part::Statement => None,
    }
}

// The operands that the parts are, where each is one.
fn operands_of(alloc: Global, parts: Vec<Part>) -> Result<Option<Vec<Operand>>, NoMemory>
    ensures { IfOk result (λ found. MatchOption found (specs.operands_of (parts_of parts.items) ≡ None)
        (λ operands. specs.operands_of (parts_of parts.items) ≡ Some (told_operands operands.items))) }
{
    let mut operands = Vec::new(alloc);
    'parts: for part in parts {
        match operand_in(part) {
            Some(operand) => operands.push(operand)?,
            None => return Ok(None),
        }
    }
    Ok(Some(operands))
}

fn is_whole(role: &Role) -> bool
    ensures { (names : List (List ℕ)) → result ≡ specs.is_whole (role_of names role.now) }
{
    match role {
        Role::Whole => true,
        Role::Plain
        | Role::Declares { .. }
        | Role::ParameterOf { .. }
        | Role::InBraces
        | Role::EntryOf { .. }
        | Role::Fills(_)
        | Role::Assigns(_)
        | Role::Outside => false,
    }
}

// An operator with these operands.
fn judged_operator(
    known: &mut Known,
    alloc: Global,
    kind: &Kind,
    is_statement: bool,
    operands: &[Operand],
) -> Result<Part, TypingFault>
    ensures { Judges part_of result (known_of known.new)
        (specs.judged_as kind.now (told_operands operands.now)
        (expressions.verdict (known_of known.old).tags is_statement kind.now (told_operands operands.now)) (known_of known.old)) }
{
    match verdict(alloc, known.tags(), is_statement, kind, operands) {
        Ok(made) => {
            let means = Bind::Nothing;
            let constant = constant_at(alloc, known.tags(), kind, &made.ty, &means, operands)?;
            added_value(
                known,
                alloc,
                Operand {
                    ty: made.ty,
                    is_lvalue: made.is_lvalue,
                    constant,
                },
            )
        }
        Err(RuleFault::Rule(rule)) => Err(TypingFault::Broken {
            node: known.next_node(),
            rule,
        }),
        Err(RuleFault::Memory) => Err(TypingFault::Memory),
    }
}

/// An expression that is no name and no text, by its operands.
pub(crate) fn judged_expression(
    known: &mut Known,
    alloc: Global,
    kind: &Kind,
    role: &Role,
    parts: Parts,
) -> Result<Part, TypingFault>
    ensures { (names : List (List ℕ)) → Judges part_of result (known_of known.new)
        (specs.judged_expression kind.now (role_of names role.now) (specs.operands_of (parts_of parts)) (known_of known.old)) }
{
    let found = operands_of(alloc, parts.into_list())?;
    match found {
        Some(operands) => {
            judged_operator(known, alloc, kind, is_whole(role), operands.as_slice())
        }
        None => Err(TypingFault::Broken {
            node: known.next_node(),
            rule: Rule::Malformed,
        }),
    }
}

// NAMES

// Another meaning like it.
fn copied_meaning(alloc: Global, means: &Bind) -> Result<Bind, NoMemory>
    ensures { IfOk result (λ copy. copy ≡ means.now) }
{
    match means {
        Bind::Nothing => Ok(Bind::Nothing),
        Bind::Outer(name) => Ok(Bind::Outer(name.copied(alloc)?)),
        Bind::Static(number) => Ok(Bind::Static(*number)),
        Bind::Auto(number) => Ok(Bind::Auto(*number)),
        Bind::EnumValue(value) => Ok(Bind::EnumValue(*value)),
        Bind::TypeName(ty) => Ok(Bind::TypeName(copied(alloc, ty)?)),
    }
}

fn is_type_name(means: &Bind) -> bool
    ensures { result ≡ declarators.is_type_name (meant means.now) }
{
    match means {
        Bind::TypeName(_) => true,
        Bind::Nothing | Bind::Outer(_) | Bind::Static(_) | Bind::Auto(_) | Bind::EnumValue(_) =>
            false,
    }
}

fn is_enumerator(means: &Bind) -> bool
    ensures { result ≡ specs.is_enumerator (meant means.now) }
{
    match means {
        Bind::EnumValue(_) => true,
        Bind::Nothing | Bind::Outer(_) | Bind::Static(_) | Bind::Auto(_) | Bind::TypeName(_) =>
            false,
    }
}

fn enumeration_constant(means: &Bind) -> Constant
    ensures { told_constant result ≡ constants.enumeration_constant (meant means.now) }
{
    match means {
        Bind::EnumValue(value) => Constant::Value(*value),
        Bind::Nothing | Bind::Outer(_) | Bind::Static(_) | Bind::Auto(_) | Bind::TypeName(_) =>
            Constant::NotConstant,
    }
}

// Whether a declared name stands for a value.
fn is_usable(known: &Known, alloc: Global, declared: &Declared) -> Result<bool, NoMemory>
    ensures { IfOk result (λ usable. usable ≡ specs.is_usable (known_of known.now).bodies (declared_of declared.now)) }
{
    if is_type_name(&declared.means) {
        return Ok(false);
    }
    if declared.is_static && is_function(&declared.ty) {
        return known.has_body(alloc, &declared.name);
    }
    Ok(true)
}

// The rule that a name isn't declared, where it is broken.
fn undeclared_if(alloc: Global, holds: bool, name: &Ident) -> Result<Option<Rule>, NoMemory>
    ensures { IfOk result (λ rule. told_least rule ≡ least (rules.breaks_if holds (rules.Undeclared name.now))) }
{
    if holds {
        Ok(Some(Rule::Undeclared(name.copied(alloc)?)))
    } else {
        Ok(None)
    }
}

// What a declared name is to the operator that it is an operand of.
fn named_operand(alloc: Global, declared: &Declared) -> Result<Operand, NoMemory>
    ensures { IfOk result (λ o. told_operand o ≡ specs.operand (type_of declared.now.ty)
        (not (conversions.is_function (type_of declared.now.ty)) && not (specs.is_enumerator (meant declared.now.means)))
        (constants.enumeration_constant (meant declared.now.means))) }
{
    Ok(Operand {
        ty: copied(alloc, &declared.ty)?,
        is_lvalue: !is_function(&declared.ty) && !is_enumerator(&declared.means),
        constant: enumeration_constant(&declared.means),
    })
}

/// A name that stands for a value.
pub(crate) fn judged_name(
    known: &mut Known,
    alloc: Global,
    name: &Ident,
) -> Result<Part, TypingFault>
    ensures { Judges part_of result (known_of known.new)
        (specs.judged_name name.now (in_levels name.now (known_of known.old).names) (known_of known.old)) }
{
    let Some(declared) = known.find(name) else {
        return Err(TypingFault::Broken {
            node: known.next_node(),
            rule: Rule::Undeclared(name.copied(alloc)?),
        });
    };
    let is_usable = is_usable(known, alloc, declared)?;
    let rule = undeclared_if(alloc, !is_usable, name)?;
    let bind = copied_meaning(alloc, &declared.means)?;
    let operand = named_operand(alloc, declared)?;
    has_value(known, alloc, rule, bind, operand)
}

// TEXTS

fn added_length(count: u32, text: &Ident) -> Result<u32, NoMemory>
    ensures { IfOk result (λ more. more ≡ count + length text.now) }
{
    let Ok(length) = u32::try_from(text.list.len()) else {
        return Err(NoMemory);
    };
    match count.checked_add(length) {
        Some(more) => Ok(more),
        None => Err(NoMemory),
    }
}

// How many characters the texts have together, with the 0 behind them.
fn text_size(texts: &[Ident]) -> Result<u32, NoMemory>
    ensures { IfOk result (λ size. size ≡ sum (map length texts.now) + 1) }
{
    let mut size = 1;
    'texts: for text in texts {
        size = added_length(size, text)?;
    }
    Ok(size)
}

#[tactic(auto, using(p9_types::proofs::Shapes::shapes))]
fn text_type(alloc: Global, texts: &[Ident]) -> Result<CType, NoMemory>
    ensures { IfOk result (λ ty. type_of ty ≡ specs.text_type texts.now) }
{
    let size = text_size(texts)?;
    Ok(CType::Array(Boxed::new(alloc, CType::Char)?, size))
}

fn is_filled(role: &Role) -> bool
    ensures { (names : List (List ℕ)) → result ≡ specs.is_filled_by_text (role_of names role.now) }
{
    match role {
        Role::Fills(ty) => is_filled_by_text(ty),
        Role::Plain
        | Role::Whole
        | Role::Declares { .. }
        | Role::ParameterOf { .. }
        | Role::InBraces
        | Role::EntryOf { .. }
        | Role::Assigns(_)
        | Role::Outside => false,
    }
}

fn text_of(ty: CType) -> Operand
    ensures { told_operand result ≡ specs.operand (type_of ty) true constants.NotConstant }
{
    Operand {
        ty,
        is_lvalue: true,
        constant: Constant::NotConstant,
    }
}

// A text that is an object of its own, with the next number.
fn judged_object(known: &mut Known, alloc: Global, text: Operand) -> Result<Part, TypingFault>
    ensures { Judges part_of result (known_of known.new)
        (specs.has (rules.breaks_if (not (layout.is_within_limit (known_of known.old).tags (type_of text.ty))) rules.BadConstant)
        (type_of text.ty) (Static (known_of known.old).statics) (parts.Value (told_operand text))
        (record (known_of known.old) { statics = (known_of known.old).statics + 1 })) }
{
    let is_within = is_within_limit(alloc, &text.ty, known.tags())?;
    let number = known.take_static()?;
    let rule = breaks_if(!is_within, Rule::BadConstant);
    has_value(known, alloc, rule, Bind::Static(number), text)
}

/// Texts that stand side by side: an object of its own, but where they fill an array.
pub(crate) fn judged_text(
    known: &mut Known,
    alloc: Global,
    texts: &[Ident],
    role: &Role,
) -> Result<Part, TypingFault>
    ensures { (names : List (List ℕ)) → Judges part_of result (known_of known.new)
        (specs.judged_text (specs.text_type texts.now) (role_of names role.now) (known_of known.old)) }
{
    let text = text_of(text_type(alloc, texts)?);
    if is_filled(role) {
        added_value(known, alloc, text)
    } else {
        judged_object(known, alloc, text)
    }
}
