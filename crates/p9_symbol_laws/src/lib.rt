//! What holds of the symbol entries of an executable.
#![tactic(auto)]

mod laws;

pub use laws::entry_laws;
