//! A journal: a board with its log kept, and for each session the number of its entries.
#![tactic(auto)]

pub mod journal;
pub mod receipt;
