//! Tests of a network at a desk of sessions: two that commit at once, a view that is kept meanwhile, and validations that are
//! prepared in advance.
#![tactic(auto)]

#[cfg(test)]
mod desk;
#[cfg(test)]
mod features;
#[cfg(test)]
mod prepared;
#[cfg(test)]
mod views;
