//! Whether a function over automatics may be given its frame.
#![tactic(auto)]

mod functions;
mod operands;

pub use functions::{has_near_addresses, may_settle};
