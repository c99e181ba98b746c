//! What expressions are before the program runs: numbers, and addresses that are moved.
#![tactic(auto)]

mod addresses;
mod binary;
mod choosing;
mod evaluating;
mod kinds;
mod moving;
mod operations;
mod parts;
mod pointers;
mod scalars;

pub use evaluating::fixed_part;
pub use kinds::{Base, Fixed, FixedPart};
pub use moving::moved;
