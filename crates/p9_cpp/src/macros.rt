// Macros, and copies of tokens and lists.
ghost use Rattle.std.specs.Prelude.{◌≡◌, Some, None, IfOk, MatchOption};
ghost use Rattle.p9_cpp.specs.Macros.{at_line, word_in};

use crate::row::Row;
use p9_base::{Name, NoMemory};
use p9_lex::{Token, TokenKind};
use std::alloc::Global;

/// What a name stands for. A macro whose definition has a `(` joined to its name has parameters, maybe
/// none.
#[derive(Drop)]
pub struct Macro {
    pub params: Option<Row<Name>>,
    pub body: Row<Token>,
}

/// The name in a token. A keyword is a word too.
pub fn word_in(kind: TokenKind) -> Option<Name>
    ensures { result ≡ word_in kind }
{
    match kind {
        TokenKind::Word(name) => Some(name),
        TokenKind::Number {
            value: _,
            unsigned: _,
            long: _,
        } => None,
        TokenKind::Char(_) => None,
        TokenKind::Text(_) => None,
        TokenKind::Mark(_) => None,
        TokenKind::NewLine => None,
        TokenKind::End => None,
    }
}

/// The name in a token that is lent.
pub fn word_at(kind: &TokenKind) -> Option<&Name>
    ensures { MatchOption result (word_in kind.now ≡ None) (λ name. word_in kind.now ≡ Some name.now) }
{
    match kind {
        TokenKind::Word(name) => Some(name),
        TokenKind::Number {
            value: _,
            unsigned: _,
            long: _,
        } => None,
        TokenKind::Char(_) => None,
        TokenKind::Text(_) => None,
        TokenKind::Mark(_) => None,
        TokenKind::NewLine => None,
        TokenKind::End => None,
    }
}

fn copied_kind(alloc: Global, kind: &TokenKind) -> Result<TokenKind, NoMemory>
    ensures { IfOk result (λ copy. copy ≡ kind.now) }
{
    match kind {
        TokenKind::Word(name) => Ok(TokenKind::Word(name.copied(alloc)?)),
        TokenKind::Number {
            value,
            unsigned,
            long,
        } => Ok(TokenKind::Number {
            value: *value,
            unsigned: *unsigned,
            long: *long,
        }),
        TokenKind::Char(value) => Ok(TokenKind::Char(*value)),
        TokenKind::Text(bytes) => Ok(TokenKind::Text(bytes.copied(alloc)?)),
        TokenKind::Mark(number) => Ok(TokenKind::Mark(*number)),
        TokenKind::NewLine => Ok(TokenKind::NewLine),
        TokenKind::End => Ok(TokenKind::End),
    }
}

/// The token again, in another line.
pub fn copied_at(alloc: Global, token: &Token, line: u32) -> Result<Token, NoMemory>
    ensures { IfOk result (λ copy. copy ≡ at_line line token.now) }
{
    Ok(Token {
        kind: copied_kind(alloc, &token.kind)?,
        start: token.start,
        end: token.end,
        line,
        file: token.file,
        first: token.first,
        joined: token.joined,
    })
}
