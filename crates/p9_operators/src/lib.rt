//! The trees of operators, conversions, accesses and assignments, from those of their operands. Each
//! function makes the tree that the definition of typed trees gives. Where a type or an offset within one
//! is past the limit of all sizes, its size is answered by want of memory: no valid module has one.
#![tactic(auto)]

mod access;
mod arithmetic;
mod comparing;
mod content;
mod converting;
mod laws;
mod making;
mod moving;
mod parts;
mod sizes;
mod updating;
mod widths;

pub use access::read_tree;
pub use arithmetic::{
    binary_tree, integer_pointer_tree, pointer_integer_tree, pointers_tree, works_unsigned,
};
pub use comparing::word_operator;
pub use converting::{cast_tree, passed_tree, stored_tree};
pub use laws::expressions_convert;
pub use moving::{divided_tree, forward_tree, inner_tree, moved_tree, scaled_tree};
pub use sizes::size_of;
pub use updating::{assigned_tree, elements_tree, step_amount, step_bytes, updated_tree};
pub use widths::{narrowed_tree, width_of};
