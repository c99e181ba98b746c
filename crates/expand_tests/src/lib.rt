//! Tests of the machine lines of valid modules.
#![tactic(auto)]

#[cfg(test)]
mod image;
#[cfg(test)]
mod lines;
#[cfg(test)]
mod pieces;
#[cfg(test)]
mod tests;
#[cfg(test)]
mod text;
