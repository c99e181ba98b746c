//! Laws on the beginnings of files, expressions and declarations: the grammar's reader reads each
//! whole, what it has read of one only grows, and nothing stands behind the first end of a file.
#![tactic(auto)]

mod laws;
mod phrase;

pub use laws::{
    end_adds_nothing, files_end_once, machine_reads_wholes, machine_refuses_wholes_rightly,
    phrases_are_endless, trees_only_grow,
};
pub use phrase::Phrase;
