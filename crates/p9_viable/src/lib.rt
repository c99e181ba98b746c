//! That what the grammar's reader has read begins a file, an expression or a declaration.
#![tactic(auto)]

mod laws;

pub use laws::{machine_reads_only_wholes, tokens_go_on};
