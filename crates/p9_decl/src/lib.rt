//! The reader of one expression or one declaration, and of all tokens of a list within the limits.
#![tactic(auto)]

mod fault;
mod finish;
mod limits;
mod phrase;
mod walk;

pub use fault::ParseFault;
pub use phrase::{Parsed, parse_decl, parse_expr};
pub use walk::read_all;
