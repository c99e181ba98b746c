//! What instructions become whose automatics stand in registers or in the frame: their forms, and that
//! they keep naming no other homes.
#![tactic(auto)]

mod laws;

pub use laws::homed_law;
