//! The symbols of a module, and their numbers by their names and by the numbers of statics.
#![tactic(auto)]

mod numbering;
mod numbers;
mod symbol;

pub use numbers::Numbering;
pub use symbol::{Form, OutlineSymbol, Title};
