//! The live features of a network, by id.
//!
//! A store is an ordered map on shared pages, from the id of a feature to its row. An edit of a row changes nothing: it answers
//! the change that it makes, a [`RowChange`]. `Store::apply` makes a change on the store itself. Pages that another store shares
//! are copied first, those on the way to the row alone, and the other store stays as it was. A look-up, an edit and a change take
//! time by the logarithm of the count of rows, and a row that is changed is copied once, with its points and its note.
//!
//! Before an edit is made, what may refuse it is looked at in a set order, and the first refusal is the answer. Each such check
//! is a function of its own in `checks`, with the same two clauses: where it lets the edit pass nothing is due, and a refusal
//! that it answers is the one that is due, unless there was no memory.
#![tactic(auto)]

pub mod change;
mod checks;
pub mod edit;
pub mod edits;
pub mod insert;
pub mod laws;
mod parts;
pub mod store;

pub use change::RowChange;
pub use store::Store;
