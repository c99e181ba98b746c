// The stages of which commands are made.
mod execution;
mod files;
mod simulation;

pub(crate) use execution::write_and_run;
pub(crate) use files::{read_file, write_file};
pub(crate) use simulation::run_file;
