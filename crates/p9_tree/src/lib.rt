//! Typed trees: what `elaborate` makes of a module. Every conversion, width and pointer offset is
//! explicit in them. Their meaning stands in `specs/`.
#![tactic(auto)]

mod laws;
mod module;
mod tree;

pub use laws::{
    bind_keeps_same, contents_of_trees, loops_keep_same, runs_mean_same, runs_of_trees,
    same_calls_end_same, sizes_of_trees, tested_loops_keep_same,
};
pub use module::{State, TEntry, TFunction, TInit, TModule, TSym};
pub use tree::{BinOp, TArm, TStmt, TTree, UnOp, Width};
