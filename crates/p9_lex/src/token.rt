// Tokens and refusals, as callers see them.
use p9_base::{Bytes, Name};

/// The language of a file. In the assembler's, ends of lines are tokens and `$` is a mark.
#[derive(Clone, Copy, Debug, PartialEq, Eq, Drop)]
pub enum Dialect {
    C,
    Asm,
}

/// What a token is. A mark goes by its place in the list of marks, from 0. A keyword is a word.
#[derive(Drop)]
pub enum TokenKind {
    Word(Name),
    Number {
        value: u32,
        unsigned: bool,
        long: bool,
    },
    Char(u32),
    Text(Bytes),
    Mark(u8),
    NewLine,
    End,
}

/// A token, with the places of its first byte and of the byte after its last.
#[derive(Drop)]
pub struct Token {
    pub kind: TokenKind,
    pub start: u32,
    pub end: u32,
    /// Counted from 1.
    pub line: u32,
    /// The place of the file's name in `Tokens::sources`.
    pub file: u32,
    /// No token stands before it on its line.
    pub first: bool,
    /// It touches the token before it.
    pub joined: bool,
}

/// The tokens of a file or of a unit. The last is the end.
#[derive(Drop)]
pub struct Tokens {
    pub list: Vec<Token>,
    /// The names of the files that the tokens come from.
    pub sources: Vec<Name>,
    /// The tags that are marked as incomplete.
    pub marks: Vec<Name>,
}

/// Why a file has no tokens: at which byte, from 0, and in which line, from 1.
#[derive(Clone, Copy, Debug, PartialEq, Eq, Drop)]
pub enum LexFault {
    BadByte { at: u32, line: u32 },
    OpenComment { at: u32, line: u32 },
    OpenText { at: u32, line: u32 },
    WideNumber { at: u32, line: u32 },
    Memory,
}
