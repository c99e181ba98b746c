//! The tokens of a source file, in C and in the assembler's language.
#![tactic(auto)]

mod blank;
mod broken;
mod classes;
mod mark;
mod number;
mod piece;
mod quoted;
mod scan;
mod token;

pub use scan::lex;
pub use token::{Dialect, LexFault, Token, TokenKind, Tokens};
