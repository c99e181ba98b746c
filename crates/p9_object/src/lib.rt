//! Object files as definitions: the fields and bytes of a module, the reader as a machine that takes
//! one field after the other, and the laws that say what its answers mean. The layout of objects is
//! this project's own.
#![tactic(auto)]

mod laws;

pub use laws::{faults_tell_the_first_break, objects_have_one_spelling, small_objects};
