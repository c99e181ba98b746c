//! The schedule: lines for a machine with branch slots and load delays, that do there what the
//! lines given do on the straight machine.
#![tactic(auto)]

mod blocks;
mod placing;
mod scheduling;

pub use scheduling::{Scheduled, schedule};
