//! The requests of a link and their responses, over any machine.
//!
//! A link carries the requests of one client, one after another (HTTP/1.1, RFC 9112), and each gets its response before
//! the next one is read. The bytes of the requests are found by `un_http`, and what they do to the state by `un_turns`.
//! This crate joins the two: a `Service` says what a request asks, and how replies and answers are printed.
//!
//! `serve_link` handles one request after another, in four steps:
//!
//! 1. the inbox gives the next request, or the check that it fails (`next_request`);
//! 2. the service reads what the request asks (`Service::read`);
//! 3. the session handles it (`handle_request`);
//! 4. the reply is printed, and the response is written.
//!
//! A command that was accepted must get its reply, so the reply is printed into room that was reserved when the link was
//! opened, and writing a response allocates nothing. If memory runs out before step 3, the request did nothing. The answer of
//! a query at a past version is printed into memory of its own; if that runs out, the response says so, and the query has
//! changed nothing but what the session has seen. The link keeps the past of its session, from the first such query on.
//!
//! What is shown is one statement over the whole link: the bytes that were read are these requests and a rest; each was
//! handled by the session, in order; and the bytes that were written are their responses, in order, where a write did not
//! fail. `un_turns` says what follows for the versions, the replies and the session's entries.
#![tactic(auto)]

mod asked;
mod end;
mod page;
mod respond;
mod send;
mod serve;
mod service;
mod status;

pub use asked::Asked;
pub use end::LinkEnd;
pub use page::Page;
pub use send::refuse_link;
pub use serve::serve_link;
pub use service::{REPLY_ROOM, Service};
pub use status::Status;
