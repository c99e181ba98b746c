// Tokens of which one is wanted, and statements and expressions.
ghost use Rattle.std.specs.Prelude.{◌≡◌, IfOk};
ghost use Rattle.p9_grammar.specs.declared.head.Head.TheVariants as head;
ghost use Rattle.p9_grammar.specs.Machine as machine;
ghost use Rattle.p9_tree_moves.specs.Moves.{move_of};
ghost use Rattle.p9_tree_moves.specs.Marks.{is_comma, is_open_paren, is_open_brace, is_semicolon, is_colon, is_close_brace, is_close_bracket, is_end};

use crate::Move;
use p9_grammar::{Head, Keyword, Punctuator, Terminal};
use p9_lang::Kind;
use std::alloc::{AllocError, Global};

pub fn is_comma(token: &Terminal) -> bool
    ensures { result ≡ is_comma token.now }
{
    match token {
        Terminal::Mark(Punctuator::Comma) => true,
        _ => false,
    }
}

pub fn is_open_paren(token: &Terminal) -> bool
    ensures { result ≡ is_open_paren token.now }
{
    match token {
        Terminal::Mark(Punctuator::OpenParen) => true,
        _ => false,
    }
}

pub fn is_open_brace(token: &Terminal) -> bool
    ensures { result ≡ is_open_brace token.now }
{
    match token {
        Terminal::Mark(Punctuator::OpenBrace) => true,
        _ => false,
    }
}

pub fn is_close_paren(token: &Terminal) -> bool
    ensures { result ≡ machine.is_close_paren token.now }
{
    match token {
        Terminal::Mark(Punctuator::CloseParen) => true,
        _ => false,
    }
}

pub fn is_semicolon(token: &Terminal) -> bool
    ensures { result ≡ is_semicolon token.now }
{
    match token {
        Terminal::Mark(Punctuator::Semicolon) => true,
        _ => false,
    }
}

pub fn is_colon(token: &Terminal) -> bool
    ensures { result ≡ is_colon token.now }
{
    match token {
        Terminal::Mark(Punctuator::Colon) => true,
        _ => false,
    }
}

pub fn is_close_brace(token: &Terminal) -> bool
    ensures { result ≡ is_close_brace token.now }
{
    match token {
        Terminal::Mark(Punctuator::CloseBrace) => true,
        _ => false,
    }
}

pub fn is_close_bracket(token: &Terminal) -> bool
    ensures { result ≡ is_close_bracket token.now }
{
    match token {
        Terminal::Mark(Punctuator::CloseBracket) => true,
        _ => false,
    }
}

pub fn is_end(token: &Terminal) -> bool
    ensures { result ≡ is_end token.now }
{
    match token {
        Terminal::End => true,
        _ => false,
    }
}

/// Behind a parameter that is the word `void`.
pub fn params_lone(inner: bool, token: &Terminal) -> Move
    ensures { move_of result ≡ machine.by_comma (head.ParamsMore inner) token.now }
{
    match token {
        Terminal::Mark(Punctuator::Comma) => Move::Shift(Head::ParamsMore(inner)),
        _ => Move::Refused,
    }
}

/// Behind an argument.
pub fn call_next(token: &Terminal) -> Move
    ensures { move_of result ≡ machine.call_next token.now }
{
    match token {
        Terminal::Mark(Punctuator::Comma) => Move::Shift(Head::CallMore),
        Terminal::Mark(Punctuator::CloseParen) => Move::Ends(Kind::Call),
        _ => Move::Refused,
    }
}

/// Behind `.` or `->`.
pub fn dot_move(alloc: Global, arrow: bool, token: &Terminal) -> Result<Move, AllocError>
    ensures { IfOk result (λ m. move_of m ≡ machine.dot_move arrow token.now) }
{
    match token {
        Terminal::Name(name) => Ok(Move::Ends(Kind::Dot {
            arrow,
            name: name.copied(alloc)?,
        })),
        _ => Ok(Move::Refused),
    }
}

/// Behind `sizeof`.
pub fn sizeof_start(token: &Terminal) -> Move
    ensures { move_of result ≡ machine.sizeof_start token.now }
{
    match token {
        Terminal::Mark(Punctuator::OpenParen) => Move::Shift(Head::SizeofOpen),
        _ => Move::Opens(Head::SizeofOf),
    }
}

/// Behind the first branch of an `if`.
pub fn else_move(token: &Terminal) -> Move
    ensures { move_of result ≡ machine.else_move token.now }
{
    match token {
        Terminal::Key(Keyword::Else) => Move::Shift(Head::IfElse),
        _ => Move::Over(Kind::If),
    }
}

/// Behind the body of a `do`.
pub fn while_move(token: &Terminal) -> Move
    ensures { move_of result ≡ machine.while_move token.now }
{
    match token {
        Terminal::Key(Keyword::While) => Move::Shift(Head::DoOpen),
        _ => Move::Refused,
    }
}

/// Behind the head of a `switch`.
pub fn brace_move(token: &Terminal) -> Move
    ensures { move_of result ≡ machine.brace_move token.now }
{
    match token {
        Terminal::Mark(Punctuator::OpenBrace) => Move::Shift(Head::SwitchItems),
        _ => Move::Refused,
    }
}
