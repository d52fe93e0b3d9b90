//! The statuses that programs end with, of a line that is written and of a door that has ended.
#![tactic(auto)]

mod door;
mod line;

pub use door::door_status;
pub use line::write_line;
