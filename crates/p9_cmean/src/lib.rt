//! What C programs mean: the operations that are undefined, and where they stand.
#![tactic(auto)]

mod laws;

pub use laws::{
    access_inverts, bind_is_associative, bodies_last, calls_take_turns,
    constants_keep_their_values, depth_is_enough, input_falls, join_is_tested, joining_files,
    loops_follow, loops_last, output_grows, runs_go_on, runs_of_calls, runs_of_expressions,
    runs_of_files, runs_of_flow, runs_of_missing, runs_of_misuse, runs_of_operators,
    runs_of_statements, runs_of_undefined, runs_of_word_counter, tested_constants_are_typed,
    tested_loops_follow, tested_loops_last, typed_constants,
};

/// An operation that C leaves undefined.
#[derive(Clone, Copy, Debug, PartialEq, Eq, Drop)]
pub enum Cause {
    Unset,
    Mixed,
    Range,
    Dead,
    Null,
    Misaligned,
    Divide,
    Shift,
    Compare,
    WrongCall,
    NoValue,
    Overlap,
}

/// Where an operation stands: the number of its module, and that of its node in it.
#[derive(Clone, Copy, Debug, PartialEq, Eq, Drop)]
pub struct Place {
    pub module: u32,
    pub node: u32,
}
