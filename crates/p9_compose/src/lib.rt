//! Functions whose code is right make a program that is right: at each call its run comes to what the
//! call of C comes to, at every number of turns.
#![tactic(auto)]

mod laws;

pub use laws::{calls_are_right, modules_are_right};
