//! A desk at which threads share one machine: edits behind one lock, and reads beside it.
#![tactic(auto)]

pub mod desk;
pub mod past;
pub mod span;
