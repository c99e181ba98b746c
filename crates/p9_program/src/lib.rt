//! The program of modules whose objects are translations of them, and which join: each function has
//! its code, the run begins with what C begins with, and comes to what C comes to.
#![tactic(auto)]

mod laws;

pub use laws::{
    codes_are_right, files_are_translated, programs_are_right, programs_begin, small_program,
};
