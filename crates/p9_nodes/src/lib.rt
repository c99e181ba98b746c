//! Nodes of a module, read with their types and what they stand for.
#![tactic(auto)]

mod arities;
mod constants;
mod counting;
mod declarators;
mod nodes;
mod source;

pub use arities::{is_none, the_one, the_three, the_two};
pub use constants::constant_of;
pub use counting::{LEVELS, count_of};
pub use declarators::{initialiser, is_declarator, name_of};
pub use nodes::{NodeRow, TypedNode, items, split};
pub use source::Source;
