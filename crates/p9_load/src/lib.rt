//! Loads modules: joins them, places their data, makes and schedules the machine lines of their program,
//! and writes the executable.
#![tactic(auto)]

mod addresses;
mod executable;
mod expansion;
mod fault;
mod loaded;
mod loading;

pub use expansion::{Expansion, expand_modules};
pub use fault::LoadFault;
pub use loaded::Loaded;
pub use loading::load;
