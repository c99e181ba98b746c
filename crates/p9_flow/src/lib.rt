//! Where the automatics of a function are live.
#![tactic(auto)]

mod acts;
mod candidates;
mod columns;
mod order;
mod rows;

pub use acts::{falls, jump_of, written_of};
pub use candidates::register_candidates;
pub use rows::{Rows, live};
