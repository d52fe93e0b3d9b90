//! What a request asks for.

use crate::page::Page;

/// What a request asks for.
#[derive(Drop)]
pub enum Asked<C, Q> {
    /// It asks nothing of the session, and this is its response.
    Page(Page),
    Command(C),
    Query(Q),
    /// The query at a past version: at the state after the first `at` entries of the log.
    Past {
        at: u64,
        query: Q,
    },
    /// The query about two versions: the states after the first `since` and the first `upto` entries of the log, or the version of the
    /// view that is read.
    Between {
        since: u64,
        upto: Option<u64>,
        query: Q,
    },
}
