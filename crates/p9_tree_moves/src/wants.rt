// What a node that is open wants, and what a part makes of it.
ghost use Rattle.std.specs.Prelude.{◌≡◌, suc, if◌then◌else◌};
ghost use Rattle.p9_grammar.specs.Machine as machine;
ghost use Rattle.p9_grammar.specs.Scopes as scopes;
ghost use Rattle.p9_grammar.specs.Grammar as grammar;
ghost use Rattle.p9_grammar.specs.Symbols as symbols;
ghost use Rattle.p9_tree_moves.specs.Moves.{role_of};

use crate::words::is_typedef;
use p9_grammar::{Class, Head, Naming};
use p9_lang::CBinary;

/// How tightly a binary operator binds.
pub fn binds(op: CBinary) -> u8
    ensures { result ≡ symbols.binds op }
{
    match op {
        CBinary::OrOr => 4,
        CBinary::AndAnd => 5,
        CBinary::Or => 6,
        CBinary::Xor => 7,
        CBinary::And => 8,
        CBinary::Eq | CBinary::Ne => 9,
        CBinary::Lt | CBinary::Gt | CBinary::Le | CBinary::Ge => 10,
        CBinary::Shl | CBinary::Shr => 11,
        CBinary::Add | CBinary::Sub => 12,
        CBinary::Mul | CBinary::Div | CBinary::Rem => 13,
    }
}

fn right_of(op: CBinary) -> u8
    ensures { result ≡ suc (symbols.binds op) }
{
    match op {
        CBinary::OrOr => 5,
        CBinary::AndAnd => 6,
        CBinary::Or => 7,
        CBinary::Xor => 8,
        CBinary::And => 9,
        CBinary::Eq | CBinary::Ne => 10,
        CBinary::Lt | CBinary::Gt | CBinary::Le | CBinary::Ge => 11,
        CBinary::Shl | CBinary::Shr => 12,
        CBinary::Add | CBinary::Sub => 13,
        CBinary::Mul | CBinary::Div | CBinary::Rem => 14,
    }
}

fn pointed(naming: Naming) -> Naming
    ensures { result ≡ grammar.pointed naming }
{
    match naming {
        Naming::Hidden => Naming::Either,
        Naming::Named | Naming::Either | Naming::Bare => naming,
    }
}

fn grouped(naming: Naming) -> Naming
    ensures { result ≡ grammar.grouped naming }
{
    match naming {
        Naming::Either => Naming::Hidden,
        Naming::Named | Naming::Hidden | Naming::Bare => naming,
    }
}

/// What may stand next in an open node.
pub fn wanted(head: &Head) -> Class
    ensures { result ≡ machine.wanted head.now }
{
    match head {
        Head::FileItems => Class::FileItem,
        Head::GoalHead => Class::HeadItem,
        Head::GoalExpression
        | Head::Group
        | Head::ChooseYes
        | Head::IndexOf
        | Head::ExpressionOf
        | Head::IfTest
        | Head::WhileTest
        | Head::DoTest
        | Head::ForFirst
        | Head::ForTest(_)
        | Head::ForStep(_, _)
        | Head::SwitchValue
        | Head::ReturnOf => Class::Expression(1),
        Head::AssignOf(_) | Head::CommaOf | Head::CallStart | Head::CallMore => {
            Class::Expression(2)
        }
        Head::ChooseNo
        | Head::CaseOf
        | Head::ConstantOf(_)
        | Head::BracketsStart(_)
        | Head::EntryIndex => Class::Expression(3),
        Head::CastOf | Head::UnaryOf(_) => Class::Expression(14),
        Head::PreOf(_) | Head::SizeofOf => Class::Expression(15),
        Head::BinaryOf(op) => Class::Expression(right_of(*op)),
        Head::CastType | Head::SizeofType => Class::Type,
        Head::BlockItems => Class::BlockItem,
        Head::IfThen | Head::IfElse | Head::WhileBody | Head::DoBody | Head::ForBody(_, _, _) =>
            Class::Statement(true),
        Head::SwitchItems => Class::SwitchItem,
        Head::Members(_, _, _, _, _) => Class::Member,
        Head::Constants(_, _, _, _) | Head::ConstantsComma(_, _, _, _) => Class::Constant,
        Head::Declarators(_, _, _) | Head::MemberDeclarators(_) => {
            Class::Declarator(Naming::Named, 15)
        }
        Head::ParamOf(_) => Class::Declarator(Naming::Either, 15),
        Head::TypeOf(_) => Class::Declarator(Naming::Bare, 15),
        Head::Stars(naming, _) => Class::Declarator(pointed(*naming), 15),
        Head::DeclGroup(naming) => Class::Declarator(grouped(*naming), 15),
        Head::Initialised(_, _, _) | Head::EntryOf(_, _) => Class::Initialiser,
        Head::ParamsStart(_) | Head::ParamsMore(_) => Class::Param,
        Head::ListStart | Head::ListComma => Class::Entry,
        _ => Class::Body,
    }
}

/// Whether a part declares its name in the names round the node, and then whether as a type.
pub fn declares(head: &Head) -> Option<bool>
    ensures { role_of result ≡ machine.role head.now }
{
    match head {
        Head::Declarators(_, words, _) => Some(is_typedef(words.as_slice())),
        Head::ParamOf(_) => Some(false),
        _ => None,
    }
}

/// Whether an open node tells what its part tells.
pub fn hears(head: &Head) -> bool
    ensures { (before now : scopes.Told) → machine.retold head.now before now ≡ (if result then now else before) }
{
    match head {
        Head::Declarators(_, _, _) | Head::ParamOf(_) | Head::Stars(_, _) | Head::DeclGroup(_) =>
            true,
        _ => false,
    }
}
