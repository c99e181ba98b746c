//! The reader of objects: from bytes, whole or in pieces, a module or why they are no object.
#![tactic(auto)]

mod faults;
mod fields;
mod laws;
mod progress;
mod reader;
mod whole;

pub use faults::ObjFault;
pub use laws::refusals_stay;
pub use reader::ObjReader;
pub use whole::read_obj;
