//! The law of carrying: code that keeps the steps of code that is right is right as well.
#![tactic(auto)]

mod laws;

pub use laws::{carries_framed, carries_over};
