//! What the entry of a function leaves, and the code of a small function that calls another, which is
//! right.
#![tactic(auto)]

mod laws;

pub use laws::{calls_through, entries};
