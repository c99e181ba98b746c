//! The bytes of a program's text, from its lines and the addresses of its symbols.
#![tactic(auto)]

mod filling;
mod text;

pub use filling::{SymbolAddresses, address};
pub use text::text_bytes;
