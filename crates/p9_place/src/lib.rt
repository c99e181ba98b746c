//! Places data: the offset of each data and common object from the start of the data.
#![tactic(auto)]

mod objects;
mod placing;
mod sizes;

pub use placing::{PlaceFault, Places, Spot, place};
