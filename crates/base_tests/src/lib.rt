//! Tests of numbers, streams, names and files, of the registers that expressions need, and of the lexer.
#![tactic(auto)]

#[cfg(test)]
mod base;
#[cfg(test)]
mod lang;
#[cfg(test)]
mod lex;
#[cfg(test)]
mod su;
