//! Nodes, scopes and open nodes of the reader of C's trees, as the grammar's machine has them.
#![tactic(auto)]

mod frame;
mod level;
mod pile;
mod row;
mod scope;
mod told;

pub use frame::{Body, Frame, Read, closed, opened, single, start_of};
pub use level::Level;
pub use pile::Pile;
pub use row::{Row, Whole};
pub use scope::Scope;
pub use told::{Told, is_name, nothing_told, told_alone, told_at_end};
