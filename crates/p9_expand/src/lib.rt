//! The machine lines of a program: those of the start, and of each function in the order of the text.
#![tactic(auto)]

mod base;
mod expanding;
mod targets;

pub use expanding::{ProgramLines, expand};
