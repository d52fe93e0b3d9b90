//! Tests of a desk, with a counter for a machine.
#![tactic(auto)]

#[cfg(test)]
mod counter;
#[cfg(test)]
mod memory;
