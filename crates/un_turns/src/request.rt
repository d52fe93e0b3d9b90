//! What is asked of a session, and the response.

use un_journal::receipt::Ahead;
use un_publish::session::Denied;

/// A request, by what it asks of a session.
#[derive(Drop)]
pub enum Request<C, Q> {
    /// It asks nothing of the session.
    Other,
    Command(C),
    Query(Q),
    /// The query at a past version: at the state after the first `at` entries of the log.
    Past {
        at: u64,
        query: Q,
    },
    /// The query about two versions: the states after the first `since` and the first `upto` entries of the log. Without
    /// `upto` the second one is the version of the view that is read.
    Between {
        since: u64,
        upto: Option<u64>,
        query: Q,
    },
}

/// The two versions that an answer is about, and the one that it reports.
#[derive(Clone, Copy, Debug, PartialEq, Eq, Hash)]
pub struct Span {
    pub since: u64,
    pub upto: u64,
    /// Not below `upto`, nor below what was read before it.
    pub version: u64,
}

/// The response to a request. A version is the number of entries of the log at which the request was decided or answered,
/// except at a past answer.
#[derive(Drop)]
pub enum Response<R, A> {
    /// The request asked nothing of the session.
    Nothing,
    Accepted { version: u64, reply: R },
    Refused { version: u64, reply: R },
    Answer { version: u64, answer: A },
    /// The answer of a query at a past version. `version` is not below that one, nor below what was read before it.
    PastAnswer { version: u64, answer: A },
    /// The answer of a query about two versions. `version` is not below them, nor below what was read before it.
    BetweenAnswer { version: u64, answer: A },
    /// Of two versions the first comes after the second. `version` is that of the view that was read.
    Reversed { version: u64, since: u64, upto: u64 },
    /// The query asks for more entries than the log has.
    Ahead(Ahead),
    /// The past version is none yet: the log has fewer entries.
    NotYet(Ahead),
    /// The session can't go on. The request did nothing else.
    Denied(Denied),
    /// Out of memory. The request did nothing.
    Memory,
}
