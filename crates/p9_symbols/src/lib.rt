//! Where the symbols of modules lie: the addresses of what they stand for, and the symbol entries of an
//! executable.
#![tactic(auto)]

mod entries;
mod layout;
mod offsets;
mod tables;

pub use entries::{Section, symbol_entries};
pub use layout::Layout;
pub use offsets::Offsets;
pub use tables::symbol_tables;
