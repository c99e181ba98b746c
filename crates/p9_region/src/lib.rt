//! Regions of automatics, what a register for one saves, and the registers that are their homes.
#![tactic(auto)]

mod classes;
mod costs;
mod edges;
mod finding;
mod groups;
mod homes;
mod masks;
mod points;
mod ranks;
mod steps;

pub use costs::cost;
pub use finding::regions;
pub use homes::assign;
