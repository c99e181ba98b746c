//! The bytes of the data of modules, with the addresses of symbols put in.
#![tactic(auto)]

mod data;

pub use data::data_bytes;
