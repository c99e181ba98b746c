//! The machine lines of one abstract instruction, of a function's entry, and of a program's start. A
//! line that goes to another instruction has that instruction's number as its target, until the
//! numbers of lines are known.
#![tactic(auto)]

mod adding;
mod building;
mod choosing;
mod laws;
mod parts;

pub use building::{add_entry, add_lines, add_start};
pub use laws::{way_laws, weight_laws};
pub use parts::{Access, Setting, Way};
