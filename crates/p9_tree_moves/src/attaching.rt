// What a part that is read makes of the node that it is part of.
ghost use Rattle.std.specs.Prelude.{◌≡◌, suc, [], ◌∷◌, IfOk};
ghost use Rattle.p9_lang.specs.declared.tree.SpecWord.TheVariants as word;
ghost use Rattle.p9_grammar.specs.Machine as machine;
ghost use Rattle.p9_grammar.specs.Trees.{tree_of};
ghost use Rattle.p9_tree_moves.specs.Moves.{after_of};
ghost use Rattle.p9_tree_moves.specs.Marks.{is_lone_void, is_void};

use crate::After;
use p9_grammar::Head;
use p9_lang::{Kind, Node, Spec, SpecWord};
use std::alloc::AllocError;

fn next(count: u32) -> Result<u32, AllocError>
    ensures { IfOk result (λ n. n ≡ suc count) }
{
    count.checked_add(1).ok_or(AllocError)
}

fn is_void(word: &SpecWord) -> bool
    ensures { result ≡ is_void word.now }
{
    match word {
        SpecWord::Void => true,
        _ => false,
    }
}

fn is_lone_void(words: &[SpecWord]) -> bool
    ensures { result ≡ is_lone_void words.now }
{
    match words {
        [word] => is_void(word),
        _ => false,
    }
}

// Whether a parameter is the word `void` alone.
fn only_void(node: &Node) -> bool
    ensures { result ≡ machine.only_void (tree_of node.now) }
{
    match &node.kind {
        Kind::Param { spec } => match node.parts.as_slice() {
            [] => is_lone_void(spec.words.as_slice()),
            [_, ..] => false,
        },
        _ => false,
    }
}

fn first_param(only_void: bool, inner: bool) -> After
    ensures { after_of result ≡ machine.first_param only_void inner }
{
    match only_void {
        true => After::To(Head::ParamsLone(inner)),
        false => After::To(Head::ParamsNext(inner)),
    }
}

/// What a part makes of an open node.
pub fn attached(head: Head, part: &Node) -> Result<After, AllocError>
    ensures { IfOk result (λ a. after_of a ≡ machine.attached head (tree_of part.now)) }
{
    match head {
        Head::FileItems => Ok(After::To(Head::FileItems)),
        Head::GoalExpression => Ok(After::To(Head::GoalRead)),
        Head::GoalHead => Ok(After::To(Head::HeadRead)),
        Head::Group => Ok(After::To(Head::GroupEnd)),
        Head::CastType => Ok(After::To(Head::CastEnd)),
        Head::CastOf => Ok(After::Makes(Kind::Cast)),
        Head::UnaryOf(op) => Ok(After::Makes(Kind::Unary(op))),
        Head::PreOf(minus) => Ok(After::Makes(Kind::Pre { minus })),
        Head::SizeofOf => Ok(After::Makes(Kind::SizeofValue)),
        Head::SizeofType => Ok(After::To(Head::SizeofEnd)),
        Head::BinaryOf(op) => Ok(After::Makes(Kind::Binary(op))),
        Head::AssignOf(op) => Ok(After::Makes(Kind::Assign(op))),
        Head::CommaOf => Ok(After::Makes(Kind::Comma)),
        Head::ChooseYes => Ok(After::To(Head::ChooseColon)),
        Head::ChooseNo => Ok(After::Makes(Kind::Choose)),
        Head::IndexOf => Ok(After::To(Head::IndexEnd)),
        Head::CallStart | Head::CallMore => Ok(After::To(Head::CallNext)),
        Head::BlockItems => Ok(After::To(Head::BlockItems)),
        Head::ExpressionOf => Ok(After::To(Head::ExpressionEnd)),
        Head::IfTest => Ok(After::To(Head::IfEnd)),
        Head::IfThen => Ok(After::To(Head::IfThenEnd)),
        Head::IfElse => Ok(After::Makes(Kind::If)),
        Head::WhileTest => Ok(After::To(Head::WhileEnd)),
        Head::WhileBody => Ok(After::Makes(Kind::While)),
        Head::DoBody => Ok(After::To(Head::DoWhile)),
        Head::DoTest => Ok(After::To(Head::DoClose)),
        Head::ForFirst => Ok(After::To(Head::ForFirstEnd)),
        Head::ForTest(first) => Ok(After::To(Head::ForTestEnd(first))),
        Head::ForStep(first, test) => Ok(After::To(Head::ForStepEnd(first, test))),
        Head::ForBody(first, test, step) => Ok(After::Makes(Kind::For { first, test, step })),
        Head::SwitchValue => Ok(After::To(Head::SwitchEnd)),
        Head::SwitchItems => Ok(After::To(Head::SwitchItems)),
        Head::CaseOf => Ok(After::To(Head::CaseEnd)),
        Head::ReturnOf => Ok(After::To(Head::ReturnEnd)),
        Head::Members(context, words, is_union, name, count) => Ok(After::To(Head::Members(
            context,
            words,
            is_union,
            name,
            next(count)?,
        ))),
        Head::Constants(context, words, name, count)
        | Head::ConstantsComma(context, words, name, count) => Ok(After::To(Head::ConstantsNext(
            context,
            words,
            name,
            next(count)?,
        ))),
        Head::ConstantOf(name) => Ok(After::Makes(Kind::EnumConst { name, valued: true })),
        Head::Declarators(context, words, inits) => {
            Ok(After::To(Head::Declared(context, words, inits)))
        }
        Head::Initialised(context, words, inits) => {
            Ok(After::To(Head::InitialisedEnd(context, words, inits)))
        }
        Head::FunctionBody(words) => Ok(After::Makes(Kind::Function {
            spec: Spec { words },
        })),
        Head::MemberDeclarators(words) => Ok(After::To(Head::MemberDeclared(words))),
        Head::ParamOf(words) => Ok(After::Makes(Kind::Param {
            spec: Spec { words },
        })),
        Head::TypeOf(words) => Ok(After::Makes(Kind::NamedType {
            spec: Spec { words },
        })),
        Head::Stars(_, volatiles) => Ok(After::Makes(Kind::Star { volatiles })),
        Head::DeclGroup(naming) => Ok(After::To(Head::DeclGroupEnd(naming))),
        Head::BracketsStart(inner) => Ok(After::To(Head::BracketsEnd(inner))),
        Head::ParamsStart(inner) => Ok(first_param(only_void(part), inner)),
        Head::ParamsMore(inner) => Ok(After::To(Head::ParamsNext(inner))),
        Head::ListStart | Head::ListComma => Ok(After::To(Head::ListNext)),
        Head::EntryIndex => Ok(After::To(Head::EntryIndexEnd)),
        Head::EntryOf(by, equals) => Ok(After::Makes(Kind::Entry { by, equals })),
        _ => Ok(After::Unwanted),
    }
}
