//! Joins modules: which definition each global name has, and why modules do not join.
#![tactic(auto)]

mod agreement;
mod builtin_module;
mod conflicts;
mod definitions;
mod joining;
mod places;
mod rules;
mod table;
mod uses;

pub use builtin_module::builtin;
pub use joining::resolve;
pub use p9_abs::Def;
pub use rules::Rule;
pub use table::{LinkFault, Table};
