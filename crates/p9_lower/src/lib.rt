//! The typed trees of a typed module, as a definition, and laws that they mean what the module means.
//! Each law is the contract of a function that does nothing.
#![tactic(auto)]

mod laws;

pub use laws::{
    contents_mean_same, differences_are_complete, examples_are_sound, functions_mean_same,
    lowered_means, parts_are_same, places_mean, runs_of_lowered, statements_mean,
    tested_sources_are_sound, trees_of_lowered, updates_are_sound, values_mean,
};
