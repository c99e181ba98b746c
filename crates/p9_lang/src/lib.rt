//! The language: types of C, trees of a file, and modules, which are trees with a type and a
//! bind for each node; in `specs/` what the types mean: layout, typing, modules.
#![tactic(auto)]

mod ident;
mod laws;
mod module;
mod tree;
mod types;

pub use ident::Ident;
pub use laws::{
    agreement_examples, agreement_is_decided, each_node_is_typed, layout_examples,
    layout_is_that_of_members, layouts_stay, members_are_placed, refusals, sizes_stay,
    structures_end, typed_files, word_examples,
};
pub use module::{Bind, Module};
pub use tree::{CBinary, CUnary, EntryBy, Kind, Node, Spec, SpecWord, Tree};
pub use types::{CType, Member, Tag, Tags};
