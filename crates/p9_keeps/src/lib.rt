//! Framed code keeps the meaning of the code over automatics that it is framed from.
#![tactic(auto)]

mod laws;

pub use laws::keeps_law;
