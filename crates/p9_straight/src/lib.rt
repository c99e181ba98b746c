//! Straight code for files that share variables: data and code at addresses that are fixed first,
//! and the proof that the executable keeps the meaning of the files.
#![tactic(auto)]

mod building;
mod code;
mod commons;
mod layout;
mod places;
mod sizes;
mod words;

pub use building::compile;
