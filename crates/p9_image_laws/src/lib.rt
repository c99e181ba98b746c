//! The law of the text's bytes: the machine that runs them does what the machine over the lines does.
#![tactic(auto)]

mod laws;

pub use laws::text_laws;
