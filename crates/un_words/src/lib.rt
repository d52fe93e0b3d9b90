//! The words after a program's name, read as one of its commands.
#![tactic(auto)]

mod command;
mod number;

pub use command::{ProgramCommand, read_words};
