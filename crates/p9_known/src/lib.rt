//! Laws that the nodes of a typed file are known, so far as that can be had without the types of names of
//! file scope. Each law is the contract of a function that does nothing.
#![tactic(auto)]

mod laws;

pub use laws::{items_name_integers, known_rows_are_found, typed_statics_are_found};
