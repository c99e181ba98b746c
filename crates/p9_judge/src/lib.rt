//! The types of a file's nodes, or the rule that the file breaks first.
#![tactic(auto)]

mod bodies;
mod counting;
mod file;
mod marking;
mod naming;
mod statics;
mod walk;

pub use file::type_file;
