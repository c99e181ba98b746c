//! What the lines of an assembler file say: which line says each fact first, and the symbols that are
//! named, in order.
#![tactic(auto)]

mod facts;
mod names;

pub use facts::{Fact, Facts, symbol_at, symbol_in};
pub use names::Names;
