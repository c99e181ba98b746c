//! The grammar of C: which trees are well formed and how they are written, and a machine that reads
//! them, one token after the other.
#![tactic(auto)]

mod head;
mod laws;
mod scope;
mod terminal;

pub use head::{Class, Context, Head, Naming};
pub use laws::{
    expressions_have_one_tree, files_have_one_tree, machine_reads_files, machine_reads_only_files,
    machine_refuses_rightly, small_file,
};
pub use scope::ScopeName;
pub use terminal::{Keyword, Punctuator, Terminal};
