//! The lines of an assembler file: what each is, and where in which function it stands.
#![tactic(auto)]

mod rows;

pub use rows::{Place, Row, lexemes_of, rows_of};
