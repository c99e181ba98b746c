//! The language and its meaning as far as the first form of C goes: its types and trees, how files
//! of the form are spelled and typed, and what their runs come to. It is temporary: it stands beside
//! the crates of the form (`p9_form`, `p9_share`, `p9_straight`, `p9_agree`), and goes with them when
//! C is compiled whole. So that work on the whole language leaves these crates as they are, it has
//! types of its own; the whole language stands in `p9_lang`, its meaning in `p9_cmean`.
#![tactic(auto)]

mod ident;
mod laws;
mod module;
mod tree;
mod types;

pub use ident::Ident;
pub use laws::{
    bind_is_associative, calls_take_turns, depth_is_enough, loops_follow, loops_last, output_grows,
    runs_go_on, runs_of_form, small_file_of_form,
};
pub use module::{Bind, Module};
pub use tree::{CBinary, CUnary, EntryBy, Kind, Node, Spec, SpecWord, Tree};
pub use types::{CType, Member, Tag, Tags};

/// An operation that C leaves undefined.
#[derive(Clone, Copy, Debug, PartialEq, Eq, Drop)]
pub enum Cause {
    Unset,
    Mixed,
    Range,
    Dead,
    Null,
    Misaligned,
    Divide,
    Shift,
    Compare,
    WrongCall,
    NoValue,
    Overlap,
}

/// Where an operation stands: the number of its module, and that of its node in it.
#[derive(Clone, Copy, Debug, PartialEq, Eq, Drop)]
pub struct Place {
    pub module: u32,
    pub node: u32,
}
