//! What it means that an executable keeps the meaning of a source, whatever the source's language.
#![tactic(auto)]

mod laws;

pub use laws::{defined_sources_have_ended, exits_are_unique, no_halt_of_defined_sources};

/// So many instructions are simulated where no option says how many.
pub const DEFAULT_BUDGET: u32 = 100_000_000;
