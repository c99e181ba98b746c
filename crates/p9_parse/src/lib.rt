//! The reader of whole files: the one tree of a unit's tokens.
#![tactic(auto)]

mod unit;

pub use p9_decl::ParseFault;
pub use unit::parse;
