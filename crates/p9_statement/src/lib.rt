//! A line of the assembler's language: its tokens, and the statement that they are.
#![tactic(auto)]

mod lexemes;
mod operands;
mod statements;
mod words;

pub use lexemes::{Lexeme, lexeme_of};
pub use operands::{Argument, SymbolName};
pub use statements::{Arguments, Datum, Line, Statement, fits_frame, line_of, reserved_register};
pub use words::{Base, Directive, Sense, sense_of};
