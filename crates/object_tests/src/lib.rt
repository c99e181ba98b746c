//! Tests of abstract instructions, objects, the assembler and the first form of C.
#![tactic(auto)]

#[cfg(test)]
mod abs;
#[cfg(test)]
mod asm;
#[cfg(test)]
mod facts;
#[cfg(test)]
mod form;
#[cfg(test)]
mod obj;
#[cfg(test)]
mod reader;
#[cfg(test)]
mod rows;
#[cfg(test)]
mod statement;
