//! JSON of requests and replies.
#![tactic(auto)]

mod attrs;
mod certificate;
mod changes;
mod command;
pub mod condition;
mod diagram;
mod edit;
pub mod fault;
pub mod form;
mod include;
pub mod list;
mod past;
mod path;
mod query;
pub mod request;
pub mod rule;
pub mod scalar;
mod words;

pub use fault::ReadFault;
pub use request::read_request;
