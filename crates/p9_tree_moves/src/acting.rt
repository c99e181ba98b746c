// What a node that is open does with a token.
ghost use Rattle.std.specs.Prelude.{◌≡◌, IfOk};
ghost use Rattle.p9_grammar.specs.Machine as machine;
ghost use Rattle.p9_tree_moves.specs.Moves.{move_of};

use crate::Move;
use crate::declarators::{
    declared_move, entry_dot, entry_named, list_next, member_declared, next_declarator,
    params_next, params_start, stars_move,
};
use crate::heads::{
    constant_named, constants_comma, constants_next, enum_move, enum_start, members_move,
    spec_move, tag_move, tag_start,
};
use crate::marks::{
    brace_move, call_next, dot_move, else_move, is_close_brace, is_close_bracket, is_close_paren,
    is_colon, is_end, is_open_paren, is_semicolon, params_lone, sizeof_start, while_move,
};
use crate::words::pushed;
use p9_grammar::{Head, Terminal};
use p9_lang::{EntryBy, Kind};
use p9_tree_build::Scope;
use std::alloc::{AllocError, Global};

/// What an open node does with a token.
#[tactic(auto, using(crate::proofs::Wanting::close_paren_at, crate::proofs::Wanting::close_paren_else, crate::proofs::Wanting::open_paren_at, crate::proofs::Wanting::open_paren_else, crate::proofs::Wanting::close_bracket_at, crate::proofs::Wanting::close_bracket_else, crate::proofs::Wanting::semicolon_at, crate::proofs::Wanting::semicolon_else, crate::proofs::Wanting::colon_at, crate::proofs::Wanting::colon_else, crate::proofs::Wanting::paren_or_at, crate::proofs::Wanting::paren_or_else, crate::proofs::Wanting::semicolon_or_at, crate::proofs::Wanting::semicolon_or_else, crate::proofs::Wanting::brace_or_at, crate::proofs::Wanting::brace_or_else, crate::proofs::Wanting::bracket_or_at, crate::proofs::Wanting::bracket_or_else, crate::proofs::Wanting::end_or_at, crate::proofs::Wanting::end_or_else,))]
pub fn act(alloc: Global, scope: &Scope, head: Head, token: &Terminal) -> Result<Move, AllocError>
    ensures { IfOk result (λ m. move_of m ≡ machine.move scope.now.levels head token.now) }
{
    match head {
        Head::FileItems => match is_end(token) {
            true => Ok(Move::Shift(Head::FileOver)),
            false => Ok(Move::Opens(Head::FileItems)),
        },
        Head::GoalExpression => Ok(Move::Opens(Head::GoalExpression)),
        Head::GoalRead => match is_end(token) {
            true => Ok(Move::Shift(Head::GoalOver)),
            false => Ok(Move::Refused),
        },
        Head::GoalHead => Ok(Move::Opens(Head::GoalHead)),
        Head::Group => Ok(Move::Opens(Head::Group)),
        Head::GroupEnd => match is_close_paren(token) {
            true => Ok(Move::Ends(Kind::Parens)),
            false => Ok(Move::Refused),
        },
        Head::CastType => Ok(Move::Opens(Head::CastType)),
        Head::CastEnd => match is_close_paren(token) {
            true => Ok(Move::Shift(Head::CastOf)),
            false => Ok(Move::Refused),
        },
        Head::CastOf => Ok(Move::Opens(Head::CastOf)),
        Head::UnaryOf(op) => Ok(Move::Opens(Head::UnaryOf(op))),
        Head::PreOf(minus) => Ok(Move::Opens(Head::PreOf(minus))),
        Head::SizeofStart => Ok(sizeof_start(token)),
        Head::SizeofOf => Ok(Move::Opens(Head::SizeofOf)),
        Head::SizeofType => Ok(Move::Opens(Head::SizeofType)),
        Head::SizeofEnd => match is_close_paren(token) {
            true => Ok(Move::Ends(Kind::SizeofType)),
            false => Ok(Move::Refused),
        },
        Head::BinaryOf(op) => Ok(Move::Opens(Head::BinaryOf(op))),
        Head::AssignOf(op) => Ok(Move::Opens(Head::AssignOf(op))),
        Head::CommaOf => Ok(Move::Opens(Head::CommaOf)),
        Head::ChooseYes => Ok(Move::Opens(Head::ChooseYes)),
        Head::ChooseColon => match is_colon(token) {
            true => Ok(Move::Shift(Head::ChooseNo)),
            false => Ok(Move::Refused),
        },
        Head::ChooseNo => Ok(Move::Opens(Head::ChooseNo)),
        Head::IndexOf => Ok(Move::Opens(Head::IndexOf)),
        Head::IndexEnd => match is_close_bracket(token) {
            true => Ok(Move::Ends(Kind::Index)),
            false => Ok(Move::Refused),
        },
        Head::CallStart => match is_close_paren(token) {
            true => Ok(Move::Ends(Kind::Call)),
            false => Ok(Move::Opens(Head::CallStart)),
        },
        Head::CallNext => Ok(call_next(token)),
        Head::CallMore => Ok(Move::Opens(Head::CallMore)),
        Head::DotOf(arrow) => dot_move(alloc, arrow, token),
        Head::BlockItems => match is_close_brace(token) {
            true => Ok(Move::Ends(Kind::Block)),
            false => Ok(Move::Opens(Head::BlockItems)),
        },
        Head::ExpressionOf => Ok(Move::Opens(Head::ExpressionOf)),
        Head::ExpressionEnd => match is_semicolon(token) {
            true => Ok(Move::Ends(Kind::Expression)),
            false => Ok(Move::Refused),
        },
        Head::IfStart => match is_open_paren(token) {
            true => Ok(Move::Shift(Head::IfTest)),
            false => Ok(Move::Refused),
        },
        Head::IfTest => Ok(Move::Opens(Head::IfTest)),
        Head::IfEnd => match is_close_paren(token) {
            true => Ok(Move::Shift(Head::IfThen)),
            false => Ok(Move::Refused),
        },
        Head::IfThen => Ok(Move::Opens(Head::IfThen)),
        Head::IfThenEnd => Ok(else_move(token)),
        Head::IfElse => Ok(Move::Opens(Head::IfElse)),
        Head::WhileStart => match is_open_paren(token) {
            true => Ok(Move::Shift(Head::WhileTest)),
            false => Ok(Move::Refused),
        },
        Head::WhileTest => Ok(Move::Opens(Head::WhileTest)),
        Head::WhileEnd => match is_close_paren(token) {
            true => Ok(Move::Shift(Head::WhileBody)),
            false => Ok(Move::Refused),
        },
        Head::WhileBody => Ok(Move::Opens(Head::WhileBody)),
        Head::DoBody => Ok(Move::Opens(Head::DoBody)),
        Head::DoWhile => Ok(while_move(token)),
        Head::DoOpen => match is_open_paren(token) {
            true => Ok(Move::Shift(Head::DoTest)),
            false => Ok(Move::Refused),
        },
        Head::DoTest => Ok(Move::Opens(Head::DoTest)),
        Head::DoClose => match is_close_paren(token) {
            true => Ok(Move::Shift(Head::DoEnd)),
            false => Ok(Move::Refused),
        },
        Head::DoEnd => match is_semicolon(token) {
            true => Ok(Move::Ends(Kind::Do)),
            false => Ok(Move::Refused),
        },
        Head::ForStart => match is_open_paren(token) {
            true => Ok(Move::Shift(Head::ForFirst)),
            false => Ok(Move::Refused),
        },
        Head::ForFirst => match is_semicolon(token) {
            true => Ok(Move::Shift(Head::ForTest(false))),
            false => Ok(Move::Opens(Head::ForFirst)),
        },
        Head::ForFirstEnd => match is_semicolon(token) {
            true => Ok(Move::Shift(Head::ForTest(true))),
            false => Ok(Move::Refused),
        },
        Head::ForTest(first) => match is_semicolon(token) {
            true => Ok(Move::Shift(Head::ForStep(first, false))),
            false => Ok(Move::Opens(Head::ForTest(first))),
        },
        Head::ForTestEnd(first) => match is_semicolon(token) {
            true => Ok(Move::Shift(Head::ForStep(first, true))),
            false => Ok(Move::Refused),
        },
        Head::ForStep(first, test) => match is_close_paren(token) {
            true => Ok(Move::Shift(Head::ForBody(first, test, false))),
            false => Ok(Move::Opens(Head::ForStep(first, test))),
        },
        Head::ForStepEnd(first, test) => match is_close_paren(token) {
            true => Ok(Move::Shift(Head::ForBody(first, test, true))),
            false => Ok(Move::Refused),
        },
        Head::ForBody(first, test, step) => Ok(Move::Opens(Head::ForBody(first, test, step))),
        Head::SwitchStart => match is_open_paren(token) {
            true => Ok(Move::Shift(Head::SwitchValue)),
            false => Ok(Move::Refused),
        },
        Head::SwitchValue => Ok(Move::Opens(Head::SwitchValue)),
        Head::SwitchEnd => match is_close_paren(token) {
            true => Ok(Move::Shift(Head::SwitchBrace)),
            false => Ok(Move::Refused),
        },
        Head::SwitchBrace => Ok(brace_move(token)),
        Head::SwitchItems => match is_close_brace(token) {
            true => Ok(Move::Ends(Kind::Switch)),
            false => Ok(Move::Opens(Head::SwitchItems)),
        },
        Head::CaseOf => Ok(Move::Opens(Head::CaseOf)),
        Head::CaseEnd => match is_colon(token) {
            true => Ok(Move::Ends(Kind::Case)),
            false => Ok(Move::Refused),
        },
        Head::DefaultEnd => match is_colon(token) {
            true => Ok(Move::Ends(Kind::Default)),
            false => Ok(Move::Refused),
        },
        Head::BreakEnd => match is_semicolon(token) {
            true => Ok(Move::Ends(Kind::Break)),
            false => Ok(Move::Refused),
        },
        Head::ContinueEnd => match is_semicolon(token) {
            true => Ok(Move::Ends(Kind::Continue)),
            false => Ok(Move::Refused),
        },
        Head::ReturnOf => match is_semicolon(token) {
            true => Ok(Move::Ends(Kind::Return)),
            false => Ok(Move::Opens(Head::ReturnOf)),
        },
        Head::ReturnEnd => match is_semicolon(token) {
            true => Ok(Move::Ends(Kind::Return)),
            false => Ok(Move::Refused),
        },
        Head::Spec(context, words) => spec_move(alloc, scope, context, words, token),
        Head::TagStart(context, words, is_union) => tag_start(
            alloc, context, words, is_union, token,
        ),
        Head::TagNamed(context, words, is_union, name) => tag_move(
            alloc, scope, context, words, is_union, name, token,
        ),
        Head::Members(context, words, is_union, name, count) => members_move(
            context, words, is_union, name, count, token,
        ),
        Head::EnumStart(context, words) => enum_start(alloc, context, words, token),
        Head::EnumNamed(context, words, name) => enum_move(
            alloc, scope, context, words, name, token,
        ),
        Head::Constants(context, words, name, count) => Ok(Move::Opens(Head::Constants(
            context, words, name, count,
        ))),
        Head::ConstantsNext(context, words, name, count) => constants_next(
            context, words, name, count, token,
        ),
        Head::ConstantsComma(context, words, name, count) => constants_comma(
            context, words, name, count, token,
        ),
        Head::ConstantNamed(name) => Ok(constant_named(name, token)),
        Head::ConstantOf(name) => Ok(Move::Opens(Head::ConstantOf(name))),
        Head::Declarators(context, words, inits) => Ok(Move::Opens(Head::Declarators(
            context, words, inits,
        ))),
        Head::Declared(context, words, inits) => declared_move(context, words, inits, token),
        Head::Initialised(context, words, inits) => Ok(Move::Opens(Head::Initialised(
            context, words, inits,
        ))),
        Head::InitialisedEnd(context, words, inits) => Ok(next_declarator(
            context,
            words,
            pushed(inits, true)?,
            token,
        )),
        Head::MemberDeclarators(words) => Ok(Move::Opens(Head::MemberDeclarators(words))),
        Head::MemberDeclared(words) => Ok(member_declared(words, token)),
        Head::ParamOf(words) => Ok(Move::Opens(Head::ParamOf(words))),
        Head::TypeOf(words) => Ok(Move::Opens(Head::TypeOf(words))),
        Head::Stars(naming, volatiles) => stars_move(naming, volatiles, token),
        Head::DeclGroup(naming) => Ok(Move::Opens(Head::DeclGroup(naming))),
        Head::DeclGroupEnd(naming) => match is_close_paren(token) {
            true => Ok(Move::Ends(Kind::DeclParens)),
            false => Ok(Move::Refused),
        },
        Head::BracketsStart(inner) => match is_close_bracket(token) {
            true => Ok(Move::Ends(Kind::Brackets {
                inner,
                sized: false,
            })),
            false => Ok(Move::Opens(Head::BracketsStart(inner))),
        },
        Head::BracketsEnd(inner) => match is_close_bracket(token) {
            true => Ok(Move::Ends(Kind::Brackets { inner, sized: true })),
            false => Ok(Move::Refused),
        },
        Head::ParamsStart(inner) => Ok(params_start(inner, token)),
        Head::ParamsNext(inner) => Ok(params_next(inner, token)),
        Head::ParamsLone(inner) => Ok(params_lone(inner, token)),
        Head::ParamsMore(inner) => Ok(Move::Opens(Head::ParamsMore(inner))),
        Head::ParamsVoid(inner) => match is_close_paren(token) {
            true => Ok(Move::Ends(Kind::Params {
                inner,
                void_word: true,
            })),
            false => Ok(Move::Refused),
        },
        Head::ListStart => Ok(Move::Opens(Head::ListStart)),
        Head::ListNext => Ok(list_next(token)),
        Head::ListComma => match is_close_brace(token) {
            true => Ok(Move::Ends(Kind::InitList { comma: true })),
            false => Ok(Move::Opens(Head::ListComma)),
        },
        Head::EntryIndex => Ok(Move::Opens(Head::EntryIndex)),
        Head::EntryIndexEnd => match is_close_bracket(token) {
            true => Ok(Move::Shift(Head::EntryNamed(EntryBy::Index))),
            false => Ok(Move::Refused),
        },
        Head::EntryDot => entry_dot(alloc, token),
        Head::EntryNamed(place) => Ok(entry_named(place, token)),
        Head::EntryOf(place, equals) => Ok(Move::Opens(Head::EntryOf(place, equals))),
        Head::FileOver
        | Head::GoalOver
        | Head::HeadRead
        | Head::HeadOver(_)
        | Head::Opened(_)
        | Head::SizeofOpen
        | Head::FunctionBody(_)
        | Head::DeclOpened(_) => Ok(Move::Refused),
    }
}
