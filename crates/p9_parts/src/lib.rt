//! The parts of nodes while a file is typed: what they are asked to be, and what they turned out to be.
#![tactic(auto)]

mod counts;
mod labels;
mod names;
mod part;
mod parts;
mod role;
mod summary;

pub use part::{Frame, Initialiser, Part};
pub use parts::{Parts, first_constant, inner_steps};
pub use role::{Context, Role};
