//! The reader of C's trees: one token after the other, over a stack of the nodes that are open, as
//! the grammar's machine does.
#![tactic(auto)]

mod names;
mod parts;
mod reader;
mod settling;
mod stepping;
mod steps;

pub use reader::{ReadFault, Reader};
