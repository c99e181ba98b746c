//! What the laws of typing ask of trees holds of each well-formed file: laws, each the contract of a function
//! that does nothing.
#![tactic(auto)]

mod laws;

pub use laws::{
    well_formed_files_are_made, well_formed_files_are_orderly, well_formed_files_hold_functions,
};
