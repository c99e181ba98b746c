//! The rules of C's expressions: of each operator, by its operands, the type and whether it is an
//! lvalue, or the rule that it breaks.
#![tactic(auto)]

mod access;
mod assigning;
mod binary;
mod calls;
mod choosing;
mod table;
mod unary;

pub use assigning::assigned_rules;
pub use table::verdict;
