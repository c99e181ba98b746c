//! The law of loading: the machine does from an executable what the modules do.
#![tactic(auto)]

mod laws;

pub use laws::{executable_laws, map_laws};
