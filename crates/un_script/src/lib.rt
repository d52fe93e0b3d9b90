//! The commands over lines of JSON: a network that is edited and asked, and a copy that follows a server's.
#![tactic(auto)]

mod follow;
mod laws;
mod make;
mod opening;
mod recoverable;
mod run;
mod script;

pub use run::run_script;
