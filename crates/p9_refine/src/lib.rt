//! The straight run of a program's lines follows the run of its modules.
#![tactic(auto)]

mod laws;

pub use laws::refinement_laws;
