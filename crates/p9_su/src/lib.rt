//! How many registers the value of an expression needs, and an order of evaluation that needs no more.
#![tactic(auto)]

mod moves;
mod plans;
mod shapes;

pub use moves::{Move, Plan};
pub use plans::order;
pub use shapes::{Shape, number};
