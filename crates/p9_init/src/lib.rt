//! First contents: the bytes and addresses that an initialiser leaves in its object.
#![tactic(auto)]

mod cell;
mod content;
mod fault;
mod fixed;
mod imaging;
mod parting;
mod value;
mod writing;

pub use fault::InitFault;
pub use imaging::image;
