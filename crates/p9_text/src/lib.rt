//! The functions of modules in the order of the text, what they weigh, and where each begins among
//! the instructions.
#![tactic(auto)]

mod entries;
mod order;
mod program;
mod weighing;

pub use entries::{Entries, Key};
pub use order::{Routine, routines};
pub use program::Program;
pub use weighing::{ExpandFault, instruction_words, text_words};
