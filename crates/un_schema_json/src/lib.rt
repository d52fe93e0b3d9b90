//! The JSON of schemas: the line that says which kinds, rules and tiers a network has.
#![tactic(auto)]

mod built_in;
mod config;
mod kind;
pub mod laws;
pub mod line;
mod list;
mod members;
mod rule;
mod source;
mod tier;

pub use line::read_schema;
pub use un_schema::SchemaFault;
