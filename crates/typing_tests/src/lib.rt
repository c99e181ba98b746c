//! Tests of types, operands, operators, scopes, signatures and first contents.
#![tactic(auto)]

#[cfg(test)]
mod init;
#[cfg(test)]
mod operand;
#[cfg(test)]
mod scopes;
#[cfg(test)]
mod sig;
#[cfg(test)]
mod types;
#[cfg(test)]
mod verdict;
