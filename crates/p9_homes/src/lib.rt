//! Which automatic each of the registers R9 to R20 holds at each instruction.
#![tactic(auto)]

mod holders;
mod tables;

pub use holders::{holder, home_of};
pub use tables::{Table, table_of};
