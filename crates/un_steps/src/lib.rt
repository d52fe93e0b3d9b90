//! A count of steps that contracts speak of and that no program carries.
//!
//! A function whose cost is to be bounded takes a `&mut Steps<L>` last, calls [`Steps::tick`] at each step, and says in its contract
//! by how much the count rises at most. Contracts see the count as a number. At run time it takes no bytes, and `tick` does nothing.
#![tactic(auto)]

mod count;
pub mod steps;

pub use steps::Steps;
