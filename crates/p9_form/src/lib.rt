//! Files of one form of C: variables of type int and long that several files share by name, and one
//! `main` that assigns numbers, variables and sums of two, writes texts, and exits. `specs/` says
//! how such a file is spelled in bytes, and which tree it is.
#![tactic(auto)]

mod file;
mod parse;
mod reader;
mod scan;
mod token;

pub use file::{Declaration, Declarations, File, FileList, First, Operand, Statement, Statements};
pub use reader::read_file;
