//! One board with the last state of a machine: one writer publishes states, and sessions read them without waiting.
#![tactic(auto)]

pub mod board;
pub mod prefix;
pub mod published;
mod publisher;
pub mod session;
