//! Linear code of functions: a list of simple operations over a stack of values. The definitions in
//! `specs/` say what each operation does and which code a function has; laws say that the code plays
//! what the function means, and that the machine over it comes to what the program comes to.
#![tactic(auto)]

mod laws;
mod op;

pub use laws::{
    code_is_right, machine_ends, machine_is_right, programs_are_brief, programs_have_tables,
    start_ends, start_is_right,
};
pub use op::{Op, Operation, Scalar};
