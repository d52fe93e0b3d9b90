//! Tests of how many stars a walk asks for, and of counts of steps.
#![tactic(auto)]

#[cfg(test)]
mod pump;
#[cfg(test)]
mod steps;
#[cfg(test)]
mod walks;
