//! The simulator of the big-endian R3000.
#![tactic(auto)]

mod machine;
mod operations;
mod simulation;
mod stop;

pub use machine::Machine;
pub use simulation::simulate;
pub use stop::Stop;
