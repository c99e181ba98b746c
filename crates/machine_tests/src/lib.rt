//! Tests of the machine, its executables, its simulator and the schedule.
#![tactic(auto)]

#[cfg(test)]
mod aout;
#[cfg(test)]
mod r3k;
#[cfg(test)]
mod slot;
#[cfg(test)]
mod vi;
