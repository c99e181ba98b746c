// The tokens of a line, as the grammar of statements sees them.
ghost use Rattle.std.specs.Prelude.{◌≡◌};
ghost use Rattle.std.specs.List.{list_all};
ghost use Rattle.p9_statement.specs.Lexemes.{mark_lexeme, is_signature_byte, is_signature, text_lexeme, lexeme_of};

use crate::words::{Sense, sense_of};
use p9_lex::TokenKind;

/// A token. A word goes by the place where its spelling stands first among the tokens of its file,
/// and a text, which is spelled as a signature is, by its own place.
#[derive(Clone, Copy)]
pub enum Lexeme {
    Word(u32, Sense),
    Number(u32),
    Character(u32),
    Text(u32),
    Open,
    Close,
    Comma,
    Plus,
    Minus,
    Slash,
    Less,
    Greater,
    Colon,
    Dollar,
    LineEnd,
    Other,
}

fn mark_lexeme(mark: u8) -> Lexeme
    ensures { result ≡ mark_lexeme mark }
{
    match mark {
        2 => Lexeme::Open,
        3 => Lexeme::Close,
        7 => Lexeme::Comma,
        14 => Lexeme::Plus,
        15 => Lexeme::Minus,
        18 => Lexeme::Slash,
        22 => Lexeme::Less,
        23 => Lexeme::Greater,
        33 => Lexeme::Colon,
        46 => Lexeme::Dollar,
        _ => Lexeme::Other,
    }
}

fn is_signature_byte(byte: u8) -> bool
    ensures { result ≡ is_signature_byte byte }
{
    byte >= 33 && byte <= 126 && byte != 34 && byte != 92
}

fn are_signature_bytes(bytes: &[u8]) -> bool
    ensures { result ≡ list_all is_signature_byte bytes.now }
{
    bytes.iter().all(|b| is_signature_byte(*b))
}

fn is_signature(bytes: &[u8]) -> bool
    ensures { result ≡ is_signature bytes.now }
{
    bytes.len() <= 65536 && are_signature_bytes(bytes)
}

fn text_lexeme(place: u32, bytes: &[u8]) -> Lexeme
    ensures { result ≡ text_lexeme place bytes.now }
{
    if is_signature(bytes) {
        Lexeme::Text(place)
    } else {
        Lexeme::Other
    }
}

/// The token at a place of its file, where its spelling stands first at the other place.
pub fn lexeme_of(place: u32, first: u32, kind: &TokenKind) -> Lexeme
    ensures { result ≡ lexeme_of place first kind.now }
{
    match kind {
        TokenKind::Word(name) => Lexeme::Word(first, sense_of(&name.list)),
        TokenKind::Number { value, .. } => Lexeme::Number(*value),
        TokenKind::Char(value) => Lexeme::Character(*value),
        TokenKind::Text(bytes) => text_lexeme(place, &bytes.list),
        TokenKind::Mark(mark) => mark_lexeme(*mark),
        TokenKind::NewLine | TokenKind::End => Lexeme::LineEnd,
    }
}
