//! Tests of the executables of assembled modules.
#![tactic(auto)]

#[cfg(test)]
mod load;
#[cfg(test)]
mod tests;
