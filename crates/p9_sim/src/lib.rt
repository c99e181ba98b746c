//! When code translates a function of C: the match of a state of C and a state of the machine, what a
//! call leaves, code that does what a function's play does, and bytes that translate a module. These
//! are definitions, in `specs/`; no compiler stands here.
#![tactic(auto)]

mod laws;

pub use laws::{branches_are_steps, right_code, wrong_codes};
