//! The symbols of a module in their order: what each is called, its type and what it is.
#![tactic(auto)]

mod declared;
mod locals;
mod names;
mod outers;
mod outlining;
mod statics;
mod storage;
mod summary;
mod system;
mod uses;

pub use outlining::outline;
