//! Functions with their frames: automatics become registers or words of the frame, and moves between
//! them stand round calls and at the entry.
#![tactic(auto)]

mod code;
mod moves;
mod operands;
mod settling;
mod sizes;
mod starts;

pub use settling::settle;
pub use sizes::has_room;
