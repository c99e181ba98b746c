// Assignments.
ghost use Rattle.std.specs.Prelude.{◌≡◌, ◌&&◌, IfOk};
ghost use Rattle.p9_lang.specs.Types.{type_of, tags_of};
ghost use Rattle.p9_lang.specs.TagRules.{NoneContainsItself};
ghost use Rattle.p9_lang.specs.Conversions.{is_structure, same_type};
ghost use Rattle.p9_lang.specs.Expressions.{assigned_rules, assign_rules, assign_verdict};
ghost use Rattle.p9_operand.specs.Least.{least};
ghost use Rattle.p9_operand.specs.Told.{told_least, told_operand};
ghost use Rattle.p9_operand.specs.Answers.{TellsVerdict};

use crate::binary::binary_type;
use crate::unary::is_writable;
use p9_base::NoMemory;
use p9_lang::{CBinary, CType, Tags};
use p9_operand::{
    Operand, Rule, RuleFault, Verdict, breaks_if, conversion_rules, copied, is_structure,
    least_of_both, value_rules,
};
use p9_types::same_type;
use std::alloc::Global;

// A structure and one of the same.
fn is_copied(alloc: Global, to: &CType, from: &CType) -> Result<bool, NoMemory>
    ensures { IfOk result (λ copied. copied
        ≡ (is_structure (type_of to.now) && same_type (type_of to.now) (type_of from.now))) }
{
    let same = same_type(alloc, to, from)?;
    Ok(is_structure(to) && same)
}

/// The rule that an operand breaks which is assigned to an object of a type. A structure is copied
/// only as a statement of its own.
pub fn assigned_rules(
    alloc: Global,
    is_statement: bool,
    to: &CType,
    value: &Operand,
    tags: &Tags,
) -> Result<Option<Rule>, NoMemory>
    requires { NoneContainsItself (tags_of tags.now.list) }
    ensures { IfOk result (λ rule. told_least rule
        ≡ least (assigned_rules (tags_of tags.now.list) is_statement (type_of to.now)
        (told_operand value.now))) }
{
    if is_copied(alloc, to, &value.ty)? {
        return Ok(breaks_if(!is_statement, Rule::BadOperands));
    }
    value_rules(alloc, value, to, tags)
}

// The rule that the value of an assignment breaks.
fn assign_rules(
    alloc: Global,
    is_statement: bool,
    op: Option<CBinary>,
    a: &Operand,
    b: &Operand,
    tags: &Tags,
) -> Result<Option<Rule>, NoMemory>
    requires { NoneContainsItself (tags_of tags.now.list) }
    ensures { IfOk result (λ rule. told_least rule
        ≡ least (assign_rules (tags_of tags.now.list) is_statement op (told_operand a.now)
        (told_operand b.now))) }
{
    let Some(op) = op else {
        return assigned_rules(alloc, is_statement, &a.ty, b, tags);
    };
    match binary_type(alloc, op, a, b, tags) {
        Ok(ty) => conversion_rules(alloc, &ty, &a.ty, tags, false),
        Err(RuleFault::Rule(rule)) => Ok(Some(rule)),
        Err(RuleFault::Memory) => Err(NoMemory),
    }
}

/// What an assignment makes of a place and a value; `op` is that of `+=` and its like.
#[tactic(auto, using(p9_operand::proofs::Leasts::least_append, p9_operand::proofs::Leasts::unless_least_of))]
pub(crate) fn assign_verdict(
    alloc: Global,
    is_statement: bool,
    op: Option<CBinary>,
    a: &Operand,
    b: &Operand,
    tags: &Tags,
) -> Result<Verdict, RuleFault>
    requires { NoneContainsItself (tags_of tags.now.list) }
    ensures { TellsVerdict result
        (assign_verdict (tags_of tags.now.list) is_statement op (told_operand a.now) (told_operand b.now)) }
{
    let place = breaks_if(!is_writable(a), Rule::NotLvalue);
    let value = assign_rules(alloc, is_statement, op, a, b, tags)?;
    match least_of_both(place, value) {
        Some(rule) => Err(RuleFault::Rule(rule)),
        None => Ok(Verdict {
            ty: copied(alloc, &a.ty)?,
            is_lvalue: false,
        }),
    }
}
