//! The JSON of changes of the kept topology: replies that print pages and stars, and lines that a follower reads.
#![tactic(auto)]

mod change;
pub mod laws;
pub mod line;
mod named;
mod parts;
pub mod print;
mod read;
pub mod setup;
mod show;
mod spot;

pub use line::{FollowLine, read_follow};
pub use print::{print_changes, print_star};
