//! The assembler: the module of a text, or why the text is refused.
#![tactic(auto)]

mod assembler;
mod breaks;
mod code;
mod fault;
mod pieces;
mod shown;
mod symbols;
mod tables;
mod unfinished;

pub use assembler::assemble;
pub use fault::AsmFault;
