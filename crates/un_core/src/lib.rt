//! The state of a network: what commands do to it, and what queries answer of it.
#![tactic(auto)]

mod answer;
mod apply;
mod batch;
mod changes;
mod edit;
mod feature;
pub mod histories;
mod kept;
pub mod laws;
pub mod net;
pub mod prepared;
mod rule;
mod update;
mod validate;
mod walks;

pub use net::Net;
pub use prepared::Prepared;
pub use un_tiers::Setup;
