//! The lexer's tokens as the grammar's terminals.
#![tactic(auto)]

mod kinds;
mod laws;
mod words;

pub use kinds::terminal;
pub use laws::one_spelling;
