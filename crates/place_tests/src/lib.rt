//! Tests of where the data of valid modules lie.
#![tactic(auto)]

#[cfg(test)]
mod tests;
