//! Differences between two kept topologies, pages of them, and a follower's copy that pages bring up to date.
#![tactic(auto)]

pub mod changes;
pub mod differences;
pub mod follower;
pub mod laws;
pub mod putting;

pub use changes::{Change, Changes, Page, Pairs};
pub use differences::diff;
pub use follower::Follower;
pub use putting::put_in;
pub use un_pages::Memory;
