//! The laws of the lines of abstract instructions and of entries: on the straight machine they do what
//! the instruction or the entry does.
#![tactic(auto)]

mod laws;

pub use laws::{entry_laws, form_laws};
