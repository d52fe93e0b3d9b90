//! What a server prints as changes of the kept topology, a follower reads back: each page of differences between two states of one log is
//! sound.
#![tactic(auto)]

pub mod laws;
pub mod typed;
