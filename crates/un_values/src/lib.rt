//! Values of JSON that replies are made of.
#![tactic(auto)]

pub mod laws;
pub mod member;
