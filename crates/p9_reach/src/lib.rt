//! Scheduled lines of programs fit their words: their fields, their branches, and their number.
#![tactic(auto)]

mod laws;

pub use laws::{fit_laws, reach_laws, size_laws};
