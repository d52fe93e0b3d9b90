//! A test of the commands that make a network from a number.
#![tactic(auto)]

#[cfg(test)]
mod commands;
