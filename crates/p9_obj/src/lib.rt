//! Object files: the test whether a module is valid, and a module's bytes.
#![tactic(auto)]

mod data;
mod distinct;
mod functions;
mod numbers;
mod operands;
mod spelling;
mod validity;
mod writer;

pub use validity::{all_numbered, all_valid, valid};
pub use writer::write_obj;
