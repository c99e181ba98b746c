//! Rows of typing: some three hundred small files, and the rule that each of them breaks, computed by
//! the definitions of `p9_lang`.
#![tactic(auto)]

mod laws;

pub use laws::{rows_of_declarations, rows_of_statements};
