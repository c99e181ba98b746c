// Calls: the arguments against the parameters.
ghost use Rattle.std.specs.Prelude.{◌≡◌, IfOk};
ghost use Rattle.p9_lang.specs.Types.{type_of, types_of, type_row, tags_of};
ghost use Rattle.p9_lang.specs.TagRules.{NoneContainsItself};
ghost use Rattle.p9_lang.specs.Expressions.{argument_rules, call_of, call_verdict};
ghost use Rattle.p9_operand.specs.Least.{least};
ghost use Rattle.p9_operand.specs.Told.{told_least, told_operands};
ghost use Rattle.p9_operand.specs.Answers.{TellsVerdict};

use p9_base::NoMemory;
use p9_lang::{CType, Tags};
use p9_operand::{
    Operand, Rule, RuleFault, Verdict, copied, least_of_both, value_rules, value_type,
};
use p9_types::{signature_of, target_of};
use std::alloc::Global;

fn argument_rules(
    alloc: Global,
    parameters: &[CType],
    arguments: &[Operand],
    tags: &Tags,
) -> Result<Option<Rule>, NoMemory>
    requires { NoneContainsItself (tags_of tags.now.list) }
    ensures { IfOk result (λ rule. told_least rule
        ≡ least (argument_rules (tags_of tags.now.list) (type_row (types_of parameters.now))
        (told_operands arguments.now))) }
{
    let mut broken = None;
    let mut asked = parameters;
    let mut given = arguments;
    'parameters: while let [parameter, others @ ..] = asked {
        let [argument, after @ ..] = given else {
            return Ok(least_of_both(broken, Some(Rule::ArgCount)));
        };
        let rule = value_rules(alloc, argument, parameter, tags)?;
        broken = least_of_both(broken, rule);
        asked = others;
        given = after;
    }
    if given.is_empty() {
        return Ok(broken);
    }
    Ok(least_of_both(broken, Some(Rule::ArgCount)))
}

// A call of a value with these arguments.
fn call_of(
    alloc: Global,
    function: &CType,
    arguments: &[Operand],
    tags: &Tags,
) -> Result<Verdict, RuleFault>
    requires { NoneContainsItself (tags_of tags.now.list) }
    ensures { TellsVerdict result
        (call_of (tags_of tags.now.list) (type_of function.now) (told_operands arguments.now)) }
{
    let Some(target) = target_of(function) else {
        return Err(RuleFault::Rule(Rule::NotFunction));
    };
    let Some((result_type, parameters)) = signature_of(target) else {
        return Err(RuleFault::Rule(Rule::NotFunction));
    };
    match argument_rules(alloc, parameters, arguments, tags)? {
        Some(rule) => Err(RuleFault::Rule(rule)),
        None => Ok(Verdict {
            ty: copied(alloc, result_type)?,
            is_lvalue: false,
        }),
    }
}

/// What a call makes of its operands, the function and its arguments.
pub(crate) fn call_verdict(
    alloc: Global,
    operands: &[Operand],
    tags: &Tags,
) -> Result<Verdict, RuleFault>
    requires { NoneContainsItself (tags_of tags.now.list) }
    ensures { TellsVerdict result
        (call_verdict (tags_of tags.now.list) (told_operands operands.now)) }
{
    match operands {
        [] => Err(RuleFault::Rule(Rule::Malformed)),
        [function, arguments @ ..] => {
            let ty = value_type(alloc, &function.ty)?;
            call_of(alloc, ty.get(), arguments, tags)
        }
    }
}
