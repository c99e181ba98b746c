//! Laws that the first contents of a typed module's objects are as the law of typed trees asks. Each law is
//! the contract of a function that does nothing.
#![tactic(auto)]

mod laws;

pub use laws::{
    bodies_have_members, contents_are_sound, firsts_are_sound, known_names_are_found,
    objects_are_complete, texts_are_typed, typedefs_have_lengths, writes_are_sound,
};
