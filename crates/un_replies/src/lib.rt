//! The JSON of replies.
//!
//! The reply to a command is short, and printing it allocates nothing, so that an applied command always gets its reply. What may tell a whole
//! network, as the result of a trace does, is appended as text too, since it is long; all other replies are written as tokens of JSON.
#![tactic(auto)]

mod command;
mod feature;
pub mod laws;
mod member;
mod names;
mod print;
mod put;
mod query;
mod reach;
mod refusal;
mod to_json;

pub use command::{COMMAND_REPLY_ROOM, print_command_reply};
pub use print::{print_past, print_reply};
