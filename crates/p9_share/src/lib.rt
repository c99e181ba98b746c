//! Joins files that share variables: each file's symbols go to `resolve`, and where the modules join,
//! the files can be run together.
#![tactic(auto)]

mod joining;
mod symbols;

pub use joining::join;
