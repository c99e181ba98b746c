//! Tests of what forms weigh, of which modules are valid, and of how valid modules join.
#![tactic(auto)]

#[cfg(test)]
mod samples;
#[cfg(test)]
mod tests;
#[cfg(test)]
mod validity;
#[cfg(test)]
mod weights;
