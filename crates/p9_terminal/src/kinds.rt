ghost use Rattle.std.specs.Prelude.{◌≡◌, IfOk};
ghost use Rattle.p9_terminal.specs.Terminals.{terminal_of};

use crate::words::{keyword, punctuator};
use p9_base::Bytes;
use p9_grammar::Terminal;
use p9_lang::Ident;
use p9_lex::TokenKind;
use std::alloc::{AllocError, Global};

fn ident(alloc: Global, bytes: &Bytes) -> Result<Ident, AllocError>
    ensures { IfOk result (λ name. name ≡ bytes.now) }
{
    Ok(Ident {
        list: Vec::from_slice(alloc, bytes.list.as_slice())?,
    })
}

/// What a token is to the grammar.
pub fn terminal(alloc: Global, kind: &TokenKind) -> Result<Terminal, AllocError>
    ensures { IfOk result (λ t. t ≡ terminal_of kind.now) }
{
    match kind {
        TokenKind::Word(name) => match keyword(name.list.as_slice()) {
            Some(word) => Ok(Terminal::Key(word)),
            None => Ok(Terminal::Name(ident(alloc, name)?)),
        },
        TokenKind::Number {
            value,
            unsigned,
            long,
        } => Ok(Terminal::Number {
            value: *value,
            unsigned: *unsigned,
            long: *long,
        }),
        TokenKind::Char(value) => Ok(Terminal::Character(*value)),
        TokenKind::Text(bytes) => Ok(Terminal::Text(ident(alloc, bytes)?)),
        TokenKind::Mark(number) => match punctuator(*number) {
            Some(mark) => Ok(Terminal::Mark(mark)),
            None => Ok(Terminal::Other),
        },
        TokenKind::NewLine => Ok(Terminal::Other),
        TokenKind::End => Ok(Terminal::End),
    }
}
