//! The requests of one session, one after another, over any machine.
//!
//! A link of the server has a session of its own, and its requests are handled in their order. A command goes to the
//! desk, which decides it at the end of the log. A query is answered at the state that the session reads by itself; the
//! desk is asked only if that state comes after fewer entries of the log than the query wants. A query at a past version
//! is answered at the state after that many entries, which the desk finds from the states that the session's past keeps; one
//! about two versions, by the states at both and what is gathered of the entries between them.
//! What is to be shown is what a client may rely on, whatever other sessions do meanwhile:
//!
//! - the versions that it is told never fall;
//! - each reply and each answer is right at the state after that many entries of the one log, or after as many as the
//!   past version says, and these are no more;
//! - the session's entries in the log are exactly the commands that were accepted, each once and in order;
//! - a query waits for nobody, unless it asks for more entries than the client can know of, or about past versions.
//!
//! A request takes the session from one state to the next by one *turn*, and a turn is one of the results that the
//! calls of the session and of the desk may have. So the laws are inductions over a list of turns. Each rests on one
//! summary of a turn: what the session has seen begins with what it had seen, so many entries became its own, and so
//! many calls may have waited. `laws::responses_are_truthful` restates them all over requests and responses alone.
#![tactic(auto)]

mod answers;
mod handle;
pub mod laws;
mod request;

pub use answers::Answers;
pub use handle::handle_request;
pub use request::{Request, Response, Span};
