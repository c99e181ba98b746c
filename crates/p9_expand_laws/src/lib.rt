//! The laws of a program's lines: those of each entry and instruction stand where the laws of
//! instructions ask.
#![tactic(auto)]

mod laws;

pub use laws::standing_laws;
