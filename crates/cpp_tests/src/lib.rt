//! Tests of directives.
#![tactic(auto)]

#[cfg(test)]
mod cpp;
