//! The start: where the code of each function is right, the run of a program from its first instruction
//! comes to what C comes to.
#![tactic(auto)]

mod laws;

pub use laws::start_is_right;
