//! The lines of a program in pieces: one for each function's entry and one for each instruction, in
//! the order of the text. A line that goes to another instruction has that instruction's number as
//! its target.
#![tactic(auto)]

mod callees;
mod functions;
mod laws;
mod walking;

pub use callees::Callees;
pub use laws::piece_laws;
pub use walking::{Pieces, program_pieces};
