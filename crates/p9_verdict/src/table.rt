// The table of expressions.
ghost use Rattle.std.specs.Prelude.{◌≡◌};
ghost use Rattle.p9_lang.specs.Types.{type_of, tags_of};
ghost use Rattle.p9_lang.specs.TagRules.{NoneContainsItself};
ghost use Rattle.p9_lang.specs.Expressions as expressions;
ghost use Rattle.p9_lang.specs.Expressions.{of_one, of_two, of_three, verdict};
ghost use Rattle.p9_operand.specs.Told.{told_verdict, told_operands};
ghost use Rattle.p9_operand.specs.Answers.{TellsVerdict};

use crate::access::{as_value, index_verdict, select_verdict};
use crate::assigning::assign_verdict;
use crate::binary::binary_type;
use crate::calls::call_verdict;
use crate::choosing::choose_verdict;
use crate::unary::{cast_verdict, size_verdict, step_verdict, unary_verdict};
use p9_lang::{CBinary, CType, CUnary, Ident, Kind, Tags};
use p9_operand::{
    Operand, Rule, RuleFault, Verdict, copied, number_type, one, three, two, value_type,
};
use std::alloc::Global;

fn malformed() -> RuleFault
    ensures { result ≡ RuleFault.Rule Rule.Malformed }
{
    RuleFault::Rule(Rule::Malformed)
}

fn parens_at(alloc: Global, operands: &[Operand]) -> Result<Verdict, RuleFault>
    ensures { TellsVerdict result
        (of_one (λ a. Ok (record { type = a.type; is_lvalue = a.is_lvalue })) (told_operands operands.now)) }
{
    match one(operands) {
        Some(a) => Ok(Verdict {
            ty: copied(alloc, &a.ty)?,
            is_lvalue: a.is_lvalue,
        }),
        None => Err(malformed()),
    }
}

fn index_at(alloc: Global, operands: &[Operand], tags: &Tags) -> Result<Verdict, RuleFault>
    requires { NoneContainsItself (tags_of tags.now.list) }
    ensures { TellsVerdict result
        (of_two (expressions.index_verdict (tags_of tags.now.list)) (told_operands operands.now)) }
{
    match two(operands) {
        Some((a, i)) => index_verdict(alloc, a, i, tags),
        None => Err(malformed()),
    }
}

fn select_at(
    alloc: Global,
    arrow: bool,
    name: &Ident,
    operands: &[Operand],
    tags: &Tags,
) -> Result<Verdict, RuleFault>
    requires { NoneContainsItself (tags_of tags.now.list) }
    ensures { TellsVerdict result
        (of_one (expressions.select_verdict (tags_of tags.now.list) arrow name.now)
        (told_operands operands.now)) }
{
    match one(operands) {
        Some(a) => select_verdict(alloc, arrow, name, a, tags),
        None => Err(malformed()),
    }
}

fn step_at(alloc: Global, operands: &[Operand], tags: &Tags) -> Result<Verdict, RuleFault>
    requires { NoneContainsItself (tags_of tags.now.list) }
    ensures { TellsVerdict result
        (of_one (expressions.step_verdict (tags_of tags.now.list)) (told_operands operands.now)) }
{
    match one(operands) {
        Some(a) => step_verdict(alloc, a, tags),
        None => Err(malformed()),
    }
}

fn unary_at(
    alloc: Global,
    op: CUnary,
    operands: &[Operand],
    tags: &Tags,
) -> Result<Verdict, RuleFault>
    requires { NoneContainsItself (tags_of tags.now.list) }
    ensures { TellsVerdict result
        (of_one (expressions.unary_verdict (tags_of tags.now.list) op) (told_operands operands.now)) }
{
    match one(operands) {
        Some(a) => unary_verdict(alloc, op, a, tags),
        None => Err(malformed()),
    }
}

fn size_at(alloc: Global, operands: &[Operand], tags: &Tags) -> Result<Verdict, RuleFault>
    requires { NoneContainsItself (tags_of tags.now.list) }
    ensures { TellsVerdict result
        (of_one (λ a. expressions.size_verdict (tags_of tags.now.list) a.type)
        (told_operands operands.now)) }
{
    match one(operands) {
        Some(a) => size_verdict(alloc, &a.ty, tags),
        None => Err(malformed()),
    }
}

fn cast_at(alloc: Global, operands: &[Operand]) -> Result<Verdict, RuleFault>
    ensures { TellsVerdict result
        (of_two (λ t a. expressions.cast_verdict t.type a) (told_operands operands.now)) }
{
    match two(operands) {
        Some((named, a)) => cast_verdict(alloc, &named.ty, a),
        None => Err(malformed()),
    }
}

fn binary_at(
    alloc: Global,
    op: CBinary,
    operands: &[Operand],
    tags: &Tags,
) -> Result<Verdict, RuleFault>
    requires { NoneContainsItself (tags_of tags.now.list) }
    ensures { TellsVerdict result
        (of_two (λ a b. expressions.as_value (expressions.binary_type (tags_of tags.now.list) op a b))
        (told_operands operands.now)) }
{
    match two(operands) {
        Some((a, b)) => as_value(binary_type(alloc, op, a, b, tags)),
        None => Err(malformed()),
    }
}

fn choose_at(alloc: Global, operands: &[Operand]) -> Result<Verdict, RuleFault>
    ensures { TellsVerdict result
        (of_three expressions.choose_verdict (told_operands operands.now)) }
{
    match three(operands) {
        Some((test, a, b)) => choose_verdict(alloc, test, a, b),
        None => Err(malformed()),
    }
}

fn assign_at(
    alloc: Global,
    is_statement: bool,
    op: Option<CBinary>,
    operands: &[Operand],
    tags: &Tags,
) -> Result<Verdict, RuleFault>
    requires { NoneContainsItself (tags_of tags.now.list) }
    ensures { TellsVerdict result
        (of_two (expressions.assign_verdict (tags_of tags.now.list) is_statement op)
        (told_operands operands.now)) }
{
    match two(operands) {
        Some((a, b)) => assign_verdict(alloc, is_statement, op, a, b, tags),
        None => Err(malformed()),
    }
}

fn comma_at(alloc: Global, operands: &[Operand]) -> Result<Verdict, RuleFault>
    ensures { TellsVerdict result
        (of_two (λ a b. Ok (expressions.value (expressions.value_type b))) (told_operands operands.now)) }
{
    match two(operands) {
        Some((_, b)) => {
            let ty = value_type(alloc, &b.ty)?;
            Ok(Verdict {
                ty: copied(alloc, ty.get())?,
                is_lvalue: false,
            })
        }
        None => Err(malformed()),
    }
}

fn value_of(ty: CType) -> Verdict
    ensures { told_verdict result ≡ expressions.value (type_of ty) }
{
    Verdict {
        ty,
        is_lvalue: false,
    }
}

/// The type of a node of a kind with these operands and whether it is an lvalue, or the rule that it
/// breaks. A name or a string literal, and what is no expression, is malformed here. `is_statement`
/// says that the node is the whole of an expression statement.
#[tactic(auto, using(p9_types::proofs::Shapes::shapes))]
pub fn verdict(
    alloc: Global,
    tags: &Tags,
    is_statement: bool,
    kind: &Kind,
    operands: &[Operand],
) -> Result<Verdict, RuleFault>
    requires { NoneContainsItself (tags_of tags.now.list) }
    ensures { TellsVerdict result
        (verdict (tags_of tags.now.list) is_statement kind.now (told_operands operands.now)) }
{
    match kind {
        Kind::Number {
            value,
            unsigned,
            long,
        } => Ok(value_of(number_type(*value, *unsigned, *long))),
        Kind::Character(_) => Ok(value_of(CType::Int)),
        Kind::Parens => parens_at(alloc, operands),
        Kind::Index => index_at(alloc, operands, tags),
        Kind::Call => call_verdict(alloc, operands, tags),
        Kind::Dot { arrow, name } => select_at(alloc, *arrow, name, operands, tags),
        Kind::Post { .. } | Kind::Pre { .. } => step_at(alloc, operands, tags),
        Kind::Unary(op) => unary_at(alloc, *op, operands, tags),
        Kind::SizeofValue | Kind::SizeofType => size_at(alloc, operands, tags),
        Kind::Cast => cast_at(alloc, operands),
        Kind::Binary(op) => binary_at(alloc, *op, operands, tags),
        Kind::Choose => choose_at(alloc, operands),
        Kind::Assign(op) => assign_at(alloc, is_statement, *op, operands, tags),
        Kind::Comma => comma_at(alloc, operands),
        Kind::Declaration { .. }
        | Kind::Function { .. }
        | Kind::Member { .. }
        | Kind::EnumConst { .. }
        | Kind::DeclName(_)
        | Kind::Star { .. }
        | Kind::Brackets { .. }
        | Kind::Params { .. }
        | Kind::DeclParens
        | Kind::Param { .. }
        | Kind::NamedType { .. }
        | Kind::InitList { .. }
        | Kind::Entry { .. }
        | Kind::Block
        | Kind::Expression
        | Kind::If
        | Kind::While
        | Kind::Do
        | Kind::For { .. }
        | Kind::Switch
        | Kind::Case
        | Kind::Default
        | Kind::Break
        | Kind::Continue
        | Kind::Return
        | Kind::Name(_)
        | Kind::Text(_) => Err(malformed()),
    }
}
