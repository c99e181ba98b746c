//! Directives and macros: the tokens of a unit of C.
#![tactic(auto)]

mod arguments;
mod body;
mod brackets;
mod directive;
mod fault;
mod frame;
mod groups;
mod headers;
mod hidden;
mod items;
mod laws;
mod macros;
mod pile;
mod reader;
mod row;
mod source;
mod unit;
mod uses;
mod walk;
mod whole;

pub use fault::CppFault;
pub use laws::{expansion_is_exact, expansion_is_one};
pub use whole::preprocess;
