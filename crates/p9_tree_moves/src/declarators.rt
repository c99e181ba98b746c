// Declarations, declarators and initialisers.
ghost use Rattle.std.specs.Prelude.{◌≡◌, ◌++◌, ◌∷◌, [], IfOk};
ghost use Rattle.p9_grammar.specs.Machine as machine;
ghost use Rattle.p9_tree_moves.specs.Moves.{move_of};

use crate::Move;
use crate::words::pushed;
use p9_grammar::{Context, Head, Keyword, Naming, Punctuator, Terminal};
use p9_lang::{EntryBy, Kind, Spec, SpecWord};
use sqlite_items::Items;
use std::alloc::{AllocError, Global};

// A function's block may follow its declarator alone.
fn body_move(context: Context, words: Items<SpecWord>, inits: Items<bool>) -> Move
    ensures { move_of result ≡ machine.body_move context words inits }
{
    if !inits.is_empty() {
        return Move::Refused;
    }
    match context {
        Context::File => Move::Opens(Head::FunctionBody(words)),
        Context::Head => Move::Shift(Head::HeadOver(words)),
        Context::Local | Context::Member | Context::Param | Context::Type => Move::Refused,
    }
}

/// Behind a declarator with its initialiser.
pub fn next_declarator(
    context: Context,
    words: Items<SpecWord>,
    inits: Items<bool>,
    token: &Terminal,
) -> Move
    ensures { move_of result ≡ machine.next_declarator context words inits token.now }
{
    match token {
        Terminal::Mark(Punctuator::Comma) => Move::Shift(Head::Declarators(context, words, inits)),
        Terminal::Mark(Punctuator::Semicolon) => Move::Ends(Kind::Declaration {
            spec: Spec { words },
            inits,
        }),
        _ => Move::Refused,
    }
}

/// Behind a declarator.
pub fn declared_move(
    context: Context,
    words: Items<SpecWord>,
    inits: Items<bool>,
    token: &Terminal,
) -> Result<Move, AllocError>
    ensures { IfOk result (λ m. move_of m ≡ machine.declared_move context words inits token.now) }
{
    match token {
        Terminal::Mark(Punctuator::Equal) => {
            Ok(Move::Shift(Head::Initialised(context, words, inits)))
        }
        Terminal::Mark(Punctuator::OpenBrace) => Ok(body_move(context, words, inits)),
        _ => Ok(next_declarator(context, words, pushed(inits, false)?, token)),
    }
}

/// Behind a member's declarator.
pub fn member_declared(words: Items<SpecWord>, token: &Terminal) -> Move
    ensures { move_of result ≡ machine.member_declared words token.now }
{
    match token {
        Terminal::Mark(Punctuator::Comma) => Move::Shift(Head::MemberDeclarators(words)),
        Terminal::Mark(Punctuator::Semicolon) => Move::Ends(Kind::Member {
            spec: Spec { words },
        }),
        _ => Move::Refused,
    }
}

// A star with nothing behind it.
fn bare_star(naming: Naming, volatiles: Items<bool>) -> Move
    ensures { move_of result ≡ machine.bare_star naming volatiles }
{
    match naming {
        Naming::Named => Move::Refused,
        Naming::Either | Naming::Hidden | Naming::Bare => Move::Over(Kind::Star { volatiles }),
    }
}

/// Behind a star and its words.
pub fn stars_move(
    naming: Naming,
    volatiles: Items<bool>,
    token: &Terminal,
) -> Result<Move, AllocError>
    ensures { IfOk result (λ m. move_of m ≡ machine.stars_move naming volatiles token.now) }
{
    match token {
        Terminal::Key(Keyword::Const) => {
            Ok(Move::Shift(Head::Stars(naming, pushed(volatiles, false)?)))
        }
        Terminal::Key(Keyword::Volatile) => {
            Ok(Move::Shift(Head::Stars(naming, pushed(volatiles, true)?)))
        }
        Terminal::Mark(Punctuator::Comma | Punctuator::CloseParen) => {
            Ok(bare_star(naming, volatiles))
        }
        _ => Ok(Move::Opens(Head::Stars(naming, volatiles))),
    }
}

/// Behind the parenthesis of a parameter list.
pub fn params_start(inner: bool, token: &Terminal) -> Move
    ensures { move_of result ≡ machine.params_start inner token.now }
{
    match token {
        Terminal::Mark(Punctuator::CloseParen) => Move::Ends(Kind::Params {
            inner,
            void_word: false,
        }),
        Terminal::Key(Keyword::Void) => Move::Shift(Head::ParamsVoid(inner)),
        _ => Move::Opens(Head::ParamsStart(inner)),
    }
}

/// Behind a parameter.
pub fn params_next(inner: bool, token: &Terminal) -> Move
    ensures { move_of result ≡ machine.params_next inner token.now }
{
    match token {
        Terminal::Mark(Punctuator::Comma) => Move::Shift(Head::ParamsMore(inner)),
        Terminal::Mark(Punctuator::CloseParen) => Move::Ends(Kind::Params {
            inner,
            void_word: false,
        }),
        _ => Move::Refused,
    }
}

/// Behind an entry of an initialiser.
pub fn list_next(token: &Terminal) -> Move
    ensures { move_of result ≡ machine.list_next token.now }
{
    match token {
        Terminal::Mark(Punctuator::Comma) => Move::Shift(Head::ListComma),
        Terminal::Mark(Punctuator::CloseBrace) => Move::Ends(Kind::InitList { comma: false }),
        _ => Move::Refused,
    }
}

/// Behind the dot of an entry.
pub fn entry_dot(alloc: Global, token: &Terminal) -> Result<Move, AllocError>
    ensures { IfOk result (λ m. move_of m ≡ machine.entry_dot token.now) }
{
    match token {
        Terminal::Name(name) => {
            let name = name.copied(alloc)?;
            Ok(Move::Shift(Head::EntryNamed(EntryBy::Member(name))))
        }
        _ => Ok(Move::Refused),
    }
}

/// Behind the place of an entry.
pub fn entry_named(place: EntryBy, token: &Terminal) -> Move
    ensures { move_of result ≡ machine.entry_named place token.now }
{
    match token {
        Terminal::Mark(Punctuator::Equal) => Move::Shift(Head::EntryOf(place, true)),
        _ => Move::Opens(Head::EntryOf(place, false)),
    }
}
