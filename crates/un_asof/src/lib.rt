//! The state after the first `n` entries of a log, over any machine.
//!
//! An answer at an older version needs the state after the first `n` entries of the log, where `n` may be any number up
//! to the log's length. A board keeps the last state alone, and a state for each version would take
//! too much memory. But a machine steps the same way each time, so the state after `n` entries can be computed again
//! from any earlier one: by the commands of the entries between the two.
//!
//! So a [`Past`] keeps a few states with their versions, the opening state among them. To find the state after `n`
//! entries, [`Past::near`] gives the kept state of the greatest version that isn't over `n`; [`replay`] makes the steps
//! of the entries from there to the `n`-th; and [`Past::keep`] keeps the state that was reached, so that the next query
//! near it is answered sooner. A long way may be gone in pieces: each state that is reached on the way may be kept.
//!
//! Why that is enough: the opening state is never given up, so there is always a kept state to begin from. An entry is
//! in the log only because its command was done at the state before it, with the entry's reply and mark. Since a step
//! is a function of the state and the command, making it again is done too, and leads to the same state.
//!
//! A past knows no log. Contracts say for which logs its states are right (`StandsFor`): each kept state is the one after
//! as many first entries of the log as its version says. A log only grows, so a past that stands for a log stands for it
//! when it is longer, too (`laws::stands_for_longer`), and nothing has to be given up when a command is accepted.
//!
//! `Past::new` takes room for 16 states; looking and keeping take no memory, and at most 16 comparisons and moves. A
//! kept state is shared, so it costs what it doesn't have in common with the others. `replay` costs the steps of
//! its entries.
#![tactic(auto)]

pub mod laws;
mod past;
mod steps;

pub use past::Past;
pub use steps::replay;
