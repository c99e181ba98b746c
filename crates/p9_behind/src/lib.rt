//! What a part means to the node that it is a part of: declarators that are whole, enumeration
//! constants, members, initialisers, labels.
#![tactic(auto)]

mod declarators;
mod following;
mod initialisers;
mod labels;
mod members;
mod passing;

pub use passing::behind;
