//! What a node is, once its parts are judged, by its kind.
#![tactic(auto)]

mod controls;
mod expressions;
mod heads;
mod initialisers;
mod kinds;
mod members;
mod nodes;
mod roles;
mod statements;
mod steps;

pub use kinds::judged;
pub use roles::role_rule;
