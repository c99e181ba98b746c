//! The functions of the built-in module that make system calls are right: their code does what C says
//! of `exits`, `read` and `write`.
#![tactic(auto)]

mod laws;

pub use laws::systems_are_right;
