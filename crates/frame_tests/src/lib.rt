//! Tests of frames: small functions through liveness, regions, homes and their frames.
#![tactic(auto)]

#[cfg(test)]
mod flow;
#[cfg(test)]
mod region;
#[cfg(test)]
mod tests;
