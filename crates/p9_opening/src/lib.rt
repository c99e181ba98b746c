//! What a node opens before its parts are judged, and what it asks of each part.
#![tactic(auto)]

mod arrays;
mod asking;
mod contexts;
mod entries;
mod members;
mod opening;
mod structures;

pub use asking::{asked, has_spec, is_declarator, is_in_braces, lent};
pub use entries::{entry_position, entry_role, entry_rule, filled, is_index_next, listed_position};
pub use opening::opened;
