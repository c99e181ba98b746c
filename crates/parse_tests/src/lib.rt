//! Tests of trees: programs after their directives, and what is refused.
#![tactic(auto)]

#[cfg(test)]
mod parse;
#[cfg(test)]
mod phrases;
#[cfg(test)]
mod programs;
#[cfg(test)]
mod refused;
#[cfg(test)]
mod support;
#[cfg(test)]
mod terminal;
#[cfg(test)]
mod tree_build;
#[cfg(test)]
mod tree_reader;
#[cfg(test)]
mod trees;
